//! Bytes in memory that were written.

ghost use Rattle.std.specs.Prelude.{◌≡◌, [], false, None, Some};

use crate::Script;
use rx_world::{Failed, Sink};
use std::alloc::Global;

/// The bytes that were written. Want of memory is a counted fault.
#[derive(Debug, Drop)]
pub struct MemorySink {
    pub bytes: Vec<u8>,
    /// How many bytes a call takes at most. A zero counts as one.
    pub most: usize,
    pub script: Script,
}

/// The same, but that no call fails: where memory is wanting, the bytes are lost.
#[derive(Debug, Drop)]
pub struct QuietSink {
    pub bytes: Vec<u8>,
    /// Whether bytes were lost.
    pub lost: bool,
}

impl MemorySink {
    /// Nothing was written, and a call takes all that it is given.
    pub fn new(alloc: Global, script: Script) -> MemorySink
        ensures bytes { result.bytes.items ≡ [] }
        ensures script { result.script ≡ script }
    {
        MemorySink {
            bytes: Vec::new(alloc),
            most: usize::MAX,
            script,
        }
    }
}

impl QuietSink {
    /// Nothing was written.
    pub fn new(alloc: Global) -> QuietSink
        ensures bytes { result.bytes.items ≡ [] }
        ensures lost { result.lost ≡ false }
    {
        QuietSink {
            bytes: Vec::new(alloc),
            lost: false,
        }
    }
}

impl Sink for MemorySink {
    ghost taken = { λ s. Some s.bytes.items };

    ghost faults = { λ s. s.script.faults };

    fn write(&mut self, piece: &[u8]) -> Result<usize, Failed> {
        self.script.call()?;
        let count = piece.len().min(self.most.max(1));
        let (front, _) = piece.split_at(count);
        match self.bytes.extend_from_slice(front) {
            Ok(()) => Ok(count),
            Err(_) => Err(self.script.fault()),
        }
    }
}

impl Sink for QuietSink {
    ghost taken = { λ s. None };

    ghost faults = { λ s. 0 };

    fn write(&mut self, piece: &[u8]) -> Result<usize, Failed> {
        if self.bytes.extend_from_slice(piece).is_err() {
            self.lost = true;
        }
        Ok(piece.len())
    }
}
