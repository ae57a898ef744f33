//! The execution that a client began or waits for.

use rx_base::{Digest, Text};

/// What was begun last.
#[derive(Debug, Drop)]
pub enum Begun {
    /// An execution of this action.
    Executed(Digest),
    /// A wait for the execution of this name.
    Waited(Text),
}

/// An execution whose end wasn't told yet.
#[derive(Clone, Copy, Debug)]
pub(crate) struct Execution {
    pub(crate) action: Digest,
    /// Whether its result was kept from another one.
    pub(crate) is_cached: bool,
    /// Whether the end is told next. Before that comes one state that isn't done.
    pub(crate) is_ending: bool,
    /// The status with which it is over, where the action isn't run.
    pub(crate) failed: Option<u32>,
}

/// What befalls the next execution: its action isn't run.
#[derive(Clone, Copy, Debug)]
pub(crate) struct Mishap {
    /// The status with which it is over.
    pub(crate) code: u32,
    /// Whether the farm has lost each of its blobs by then.
    pub(crate) loses_blobs: bool,
}
