//! A note: one step of a session.

use rx_world::Attempt;

/// What a session did.
#[derive(Clone, Copy, Debug, PartialEq, Eq)]
pub enum What {
    /// It read a request.
    Admitted,
    /// What its command runs on is known: so many files.
    Gathered { files: u64 },
    /// An attempt was started.
    Started { attempt: Attempt },
    /// An attempt ended: with an outcome where the cause is 0, and else by the cause of that number, as a reply
    /// tells it.
    Ended { attempt: Attempt, cause: u8 },
    /// The outcome was published as this entry of the journal, and so many of its files were placed.
    Published { entry: u64, placed: u64 },
    /// The reply of this number was written whole.
    Replied { reply: u8 },
}

/// What a session of this number did as its step of this number. Both count from 1.
#[derive(Clone, Copy, Debug, PartialEq, Eq)]
pub struct Note {
    pub session: u32,
    pub step: u32,
    pub what: What,
}
