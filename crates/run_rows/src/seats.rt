//! The seat of a part in the meeting of its desk: it counts the part's calls and faults.

ghost use Rattle.std.specs.Prelude.{◌≡◌, ◌≤◌, IfOk};
ghost use Rattle.rx_world.specs.declared.failures.Refused.TheVariants.{Failed as failed};
ghost use Rattle.rx_world.specs.Causes.{HasCause, HasCauseOf, Rose};

use crate::meetings::{Entry, Meeting};
use crate::plans::Part;
use rx_base::{NoMemory, RelPath};
use rx_world::{Attempt, Failed, Refused};
use std::alloc::Global;
use std::sync::{Arc, Wait};
use std::time::Clock;

/// A handle of waits that end at a time.
pub(crate) trait Hands: Wait + Clock + Copy + Drop {}

impl<H: Wait + Clock + Copy + Drop> Hands for H {}

/// A part's seat. Its count of faults stops at the end of 64 bits.
#[derive(Drop)]
pub(crate) struct Seat<H> {
    hands: H,
    meeting: Arc<Meeting, Global>,
    part: Part,
    calls: u64,
    pub faults: u64,
}

impl<H: Hands> Seat<H> {
    /// A seat of a part that made no call.
    pub(crate) fn new(
        hands: H,
        meeting: &Arc<Meeting, Global>,
        part: Part,
    ) -> Result<Seat<H>, NoMemory>
        ensures { IfOk result (λ seat. seat.faults ≡ 0) }
    {
        Ok(Seat {
            hands,
            meeting: Arc::try_clone(meeting)?,
            part,
            calls: 0,
            faults: 0,
        })
    }

    /// A seat of another part in the same meeting.
    pub(crate) fn beside(&self, part: Part) -> Result<Seat<H>, NoMemory>
        ensures { IfOk result (λ seat. seat.faults ≡ 0) }
    {
        Seat::new(self.hands, &self.meeting, part)
    }

    /// Counts a fault.
    pub(crate) fn fault(&mut self) -> Failed
        ensures later { self.old.faults ≤ self.new.faults }
        ensures rose { Rose self.old.faults self.new.faults }
    {
        self.faults = self.faults.saturating_add(1);
        Failed
    }

    /// Counts a call, and waits for what it is to wait for.
    fn wait_in_turn(&mut self) -> Entry
        ensures { self.new.faults ≡ self.old.faults }
    {
        self.calls = self.calls.saturating_add(1);
        self.meeting.enter(&self.hands, self.part, self.calls)
    }

    /// Begins a call: it waits for what it is to wait for, which fails where that doesn't come. Memory is
    /// wanting where a row says so.
    pub(crate) fn enter(&mut self) -> Result<(), Refused>
        ensures cause { HasCauseOf failed self.old.faults self.new.faults result }
    {
        if self.wait_in_turn() == Entry::Failed {
            return Err(Refused::from(self.fault()));
        }
        if self.meeting.starves(self.part, self.calls) {
            return Err(Refused::NoMemory);
        }
        Ok(())
    }

    /// Begins a call whose want of memory is a fault.
    pub(crate) fn enter_or_fail(&mut self) -> Result<(), Failed>
        ensures cause { HasCause self.old.faults self.new.faults result }
    {
        match self.enter() {
            Ok(()) => Ok(()),
            Err(_) => Err(self.fault()),
        }
    }

    /// Begins a read of the input. False where that is at its end, since it was halted.
    pub(crate) fn enter_input(&mut self) -> Result<bool, Failed>
        ensures cause { HasCause self.old.faults self.new.faults result }
    {
        match self.wait_in_turn() {
            Entry::Open => Ok(true),
            Entry::Ended => Ok(false),
            Entry::Failed => Err(self.fault()),
        }
    }

    /// Whether the desk's benches don't give this output.
    pub(crate) fn withholds(&self, path: &RelPath) -> bool {
        self.meeting.withholds(path)
    }

    /// An attempt is told to end.
    pub(crate) fn halt(&self, attempt: Attempt) {
        self.meeting.halt(&self.hands, attempt);
    }

    /// The client is waited for no longer.
    pub(crate) fn halt_input(&self) {
        self.meeting.halt_input(&self.hands);
    }

    /// The desk's session has ended.
    pub(crate) fn leave(&self) {
        self.meeting.end(&self.hands);
    }
}
