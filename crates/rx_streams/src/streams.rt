//! The standard streams of the process.

ghost use Rattle.std.specs.Prelude.{◌≡◌, None};

use crate::faults::Faults;
use crate::pieces::{print_some, read_some};
use rx_world::{Failed, Sink, Source};
use std::io::{Print, Read};

/// Bytes that come in by a reader, as standard input. It tells what its reader tells.
#[derive(Drop)]
pub struct HostSource<I> {
    /// Where they come from.
    pub input: I,
    faults: Faults,
}

/// Bytes that go out by a printer, as standard output. Nothing is kept back.
#[derive(Drop)]
pub struct HostSink<P> {
    output: P,
    faults: Faults,
}

impl<I: Read> HostSource<I> {
    /// What this reader has left.
    pub fn new(input: I) -> HostSource<I>
        ensures input { result.input ≡ input }
        ensures faults { ⟦<HostSource<I> as Source>⟧.faults result ≡ 0 }
    {
        HostSource {
            input,
            faults: Faults::new(),
        }
    }
}

impl<P: Print> HostSink<P> {
    /// What goes out by this printer.
    pub fn new(output: P) -> HostSink<P> {
        HostSink {
            output,
            faults: Faults::new(),
        }
    }
}

impl<I: Read> Source for HostSource<I> {
    ghost left = { λ s. I.remaining s.input };

    ghost faults = { λ s. s.faults.count };

    fn read(&mut self, into: &mut [u8]) -> Result<usize, Failed> {
        match read_some(&mut self.input, into) {
            Ok(count) => Ok(count),
            Err(error) => Err(self.faults.failed(error)),
        }
    }
}

impl<P: Print> Sink for HostSink<P> {
    ghost taken = { λ s. None };

    ghost faults = { λ s. s.faults.count };

    fn write(&mut self, piece: &[u8]) -> Result<usize, Failed> {
        match print_some(&self.output, piece) {
            Ok(count) => Ok(count),
            Err(error) => Err(self.faults.failed(error)),
        }
    }
}
