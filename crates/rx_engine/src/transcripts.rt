//! What is kept of a session.

ghost use Rattle.std.specs.Prelude.{◌≡◌};
ghost use Rattle.rx_engine.specs.Attempts.{no_tally};
ghost use Rattle.rx_engine.specs.Racing.{unused_passes};

use rx_base::{Bytes, Items};
use rx_board::Receipt;
use rx_race::Slip;
use rx_session::{Reply, Request};
use rx_world::Ended;
use std::alloc::Global;

/// How a session ended.
#[derive(Clone, Copy, Debug, PartialEq, Eq)]
pub enum Ending {
    /// The reply was written whole.
    Replied,
    /// The input failed before the request and its end were read. Nothing was written.
    SourceLost,
    /// The client asked for the end of the run, and was told that it comes. Nothing else was done.
    ShutDown,
    /// The output failed. A front of what was to be written was: of the reply, or of the answer to a
    /// Shutdown.
    SinkLost,
    /// Memory ran out even for the reply that says so, or for the answer to a Shutdown. Nothing was
    /// written.
    NoMemory,
}

/// What a session read, did and wrote.
#[derive(Debug, Drop)]
pub struct Transcript {
    /// The session's number, from 1 on: in the order in which desks leave the front or, in threads, in
    /// the order in which sessions publish.
    pub number: u32,
    pub ending: Ending,
    /// The bytes that were read from the input.
    pub read: Bytes,
    /// The bytes that were written to the output.
    pub written: Bytes,
    /// The request, where the bytes are one.
    pub request: Option<Request>,
    /// The reply, also where its frame was cut off.
    pub reply: Option<Reply>,
    /// Where the session published.
    pub receipt: Option<Receipt>,
    /// How each attempt that was started ended: local before remote, but an end that won a race first.
    pub ends: Items<Ended>,
    /// What became of the passes of the attempts' race.
    pub passes: Passes,
}

/// What became of the passes of a session's race. A session that makes no attempt has no race, and uses
/// none of them.
#[derive(Clone, Copy, Debug, PartialEq, Eq)]
pub struct Passes {
    /// That of the local attempt.
    pub local: Slip,
    /// That of the remote attempt.
    pub remote: Slip,
    /// The right to cancel.
    pub cancel: Slip,
}

impl Passes {
    /// Those of a race that was never begun.
    pub(crate) fn unused() -> Passes
        ensures { result ≡ unused_passes }
    {
        Passes {
            local: Slip::Unused,
            remote: Slip::Unused,
            cancel: Slip::Unused,
        }
    }
}

/// How the attempts of a session ended, as its transcript keeps it.
#[derive(Debug, Drop)]
pub struct Tally {
    /// The end of each attempt that was started: local before remote, but an end that won a race first.
    pub ends: Items<Ended>,
    /// What became of the passes of their race.
    pub passes: Passes,
}

impl Tally {
    /// That of a session which made no attempt.
    pub(crate) fn none(alloc: Global) -> Tally
        ensures { result ≡ no_tally }
    {
        Tally {
            ends: Items::new(alloc),
            passes: Passes::unused(),
        }
    }
}
