//! Inputs of desks: bytes in memory whose reads may wait.

ghost use Rattle.std.specs.Prelude.{None};

use crate::seats::{Hands, Seat};
use rx_fakes::MemorySource;
use rx_world::{Failed, Source};

/// Bytes in memory that come in, until nobody waits for the client any more. It doesn't tell what is left.
#[derive(Drop)]
pub(crate) struct MeetingInput<H> {
    pub source: MemorySource,
    pub seat: Seat<H>,
}

impl<H: Hands> Source for MeetingInput<H> {
    ghost left = { λ s. None };

    ghost faults = { λ s. s.seat.faults };

    fn read(&mut self, into: &mut [u8]) -> Result<usize, Failed> {
        if !self.seat.enter_input()? {
            return Ok(0);
        }
        match self.source.read(into) {
            Ok(count) => Ok(count),
            Err(_) => Err(self.seat.fault()),
        }
    }
}
