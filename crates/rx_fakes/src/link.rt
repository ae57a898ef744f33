//! Connections in memory, and a dial that makes them one after the other.

ghost use Rattle.std.specs.Prelude.{◌≡◌, ◌≤◌, [], false, length, Some, take};
ghost use Rattle.rx_world.specs.declared.versions.Dialect.TheVariants.{New as new_dialect};
ghost use Rattle.rx_world.specs.Links.{Wire};

use crate::Script;
use crate::source::read_from;
use rx_world::{Dial, Failed, Link};
use std::alloc::Global;
use std::collections::VecDeque;

/// A connection whose other side sends stated bytes, whatever it is sent, and then ends it. Want of memory is a counted fault.
#[derive(Debug, Drop)]
pub struct MemoryLink {
    /// What was sent.
    pub sent: Vec<u8>,
    /// What the other side sends, of which so many bytes were received.
    pub bytes: Vec<u8>,
    pub at: usize,
    /// How many bytes a call sends or receives at most. A zero counts as one.
    pub most: usize,
    pub ended: bool,
    /// Sending and receiving count together.
    pub script: Script,
    ghost within: { at ≤ length bytes.items },
}

impl MemoryLink {
    /// Nothing was sent or received.
    pub fn new(alloc: Global, ahead: Ahead) -> MemoryLink
        ensures sent { result.sent.items ≡ [] }
        ensures bytes { result.bytes ≡ ahead.bytes }
        ensures at { result.at ≡ 0 }
        ensures ended { result.ended ≡ false }
        ensures faults { result.script.faults ≡ 0 }
    {
        MemoryLink {
            sent: Vec::new(alloc),
            bytes: ahead.bytes,
            at: 0,
            most: ahead.most,
            ended: false,
            script: Script::new(ahead.fails),
        }
    }
}

impl Link for MemoryLink {
    ghost wire = { λ s. Some (record { sent = s.sent.items; received = take s.at s.bytes.items }) };

    ghost ended = { λ s. s.ended };

    ghost rule = { λ s sent received. Unit {0} };

    ghost faults = { λ s. s.script.faults };

    fn send(&mut self, piece: &[u8]) -> Result<usize, Failed> {
        self.script.call()?;
        let count = piece.len().min(self.most.max(1));
        let (front, _) = piece.split_at(count);
        match self.sent.extend_from_slice(front) {
            Ok(()) => Ok(count),
            Err(_) => Err(self.script.fault()),
        }
    }

    fn receive(&mut self, into: &mut [u8]) -> Result<usize, Failed> {
        self.script.call()?;
        let room = into.len();
        let count = read_from(&self.bytes, self.at, self.most, into);
        self.at += count;
        self.ended = self.ended || (count == 0 && room != 0);
        Ok(count)
    }
}

/// A connection that isn't made yet.
#[derive(Debug, Drop)]
pub struct Ahead {
    /// What the other side sends.
    pub bytes: Vec<u8>,
    /// How many bytes a call sends or receives at most. A zero counts as one.
    pub most: usize,
    /// The numbers of the calls that fail, from 1 on.
    pub fails: Vec<u64>,
}

/// Makes stated connections one after the other. Where none is left, that is a counted fault.
#[derive(Debug, Drop)]
pub struct MemoryDial {
    pub alloc: Global,
    pub ahead: VecDeque<Ahead>,
    pub script: Script,
}

impl Dial for MemoryDial {
    type L = MemoryLink;

    ghost rule = { λ d sent received. Unit {0} };

    ghost dialect = { new_dialect };

    ghost faults = { λ d. d.script.faults };

    fn dial(&mut self) -> Result<MemoryLink, Failed> {
        self.script.call()?;
        match self.ahead.pop_front() {
            Some(ahead) => Ok(MemoryLink::new(self.alloc, ahead)),
            None => Err(self.script.fault()),
        }
    }
}
