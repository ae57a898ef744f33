//! The passes of a shared race, and what became of each.

use crate::Verdict;
use rx_world::{Attempt, Decision};

/// Whose a pass is.
#[derive(Clone, Copy, Debug, PartialEq, Eq)]
pub enum Seat {
    /// That of an attempt, which starts once and offers once.
    Of(Attempt),
    /// That of whoever may cancel, once.
    Canceller,
}

/// What became of a pass.
#[derive(Clone, Copy, Debug, PartialEq, Eq)]
pub enum Slip {
    /// It wasn't used.
    Unused,
    /// Its attempt wasn't started: the race was seen decided for an attempt, or cancelled.
    Refused,
    /// Its attempt runs.
    Live,
    /// Its attempt runs, and has seen this decision: for an attempt, or a cancel.
    Stopped(Decision),
    /// Its attempt had seen this decision, and its offer came late.
    Yielded(Decision),
    /// It was used up without a decision seen, and this was told.
    Told(Verdict),
}
