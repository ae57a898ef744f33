//! The farm's end of a connection over TCP. Nothing is told of its bytes.

ghost use Rattle.std.specs.Prelude.{None};
ghost use Rattle.rx_host.specs.Farms.{any_bytes};

use rx_streams::{Faults, read_some, write_some};
use rx_world::{Failed, Link};
use std::net::TcpStream;
use std::sync::atomic::{AtomicBool, Ordering};

/// A connection that a client made, which ends as soon as something comes behind a mark.
#[derive(Drop)]
pub(crate) struct FarmLink<'a> {
    stream: TcpStream,
    mark: &'a AtomicBool,
    ended: bool,
    faults: Faults,
}

impl<'a> FarmLink<'a> {
    /// A connection on which nothing was sent or received.
    pub(crate) fn new(stream: TcpStream, mark: &'a AtomicBool) -> FarmLink<'a> {
        FarmLink {
            stream,
            mark,
            ended: false,
            faults: Faults::new(),
        }
    }
}

impl<'a> Link for FarmLink<'a> {
    ghost wire = { λ l. None };

    ghost ended = { λ l. l.ended };

    ghost rule = { λ l. any_bytes };

    ghost faults = { λ l. l.faults.count };

    fn send(&mut self, piece: &[u8]) -> Result<usize, Failed> {
        match write_some(&mut self.stream, piece) {
            Ok(count) => Ok(count),
            Err(error) => Err(self.faults.failed(error)),
        }
    }

    fn receive(&mut self, into: &mut [u8]) -> Result<usize, Failed> {
        match read_some(&mut self.stream, into) {
            Ok(count) => {
                let count = if self.mark.load(Ordering::SeqCst) {
                    0
                } else {
                    count
                };
                self.ended = self.ended || count == 0 && !into.is_empty();
                Ok(count)
            }
            Err(error) => Err(self.faults.failed(error)),
        }
    }
}
