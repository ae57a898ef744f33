//! Desks in memory, and a front that gives them.

ghost use Rattle.std.specs.Prelude.{◌≡◌, ◌≤◌, ◌-◌, ◌==◌, Some, length, vec_len};

use crate::benches::MeetingBenches;
use crate::clients::MeetingClient;
use crate::inputs::MeetingInput;
use crate::plans::Part;
use crate::seats::{Hands, Seat};
use crate::sources::MeetingSources;
use crate::worlds::RowWorld;
use rx_daemon::{Front, Log};
use rx_engine::{Desk, Halt, Parts, Transcript};
use rx_exec_messages::{Caller, Script as FarmScript};
use rx_fakes::{MemorySink, MemorySource, MemorySources, Script, ToyBenches};
use rx_world::{Attempt, Failed};
use std::marker::Brand;

/// The parts of a desk in memory, after a run.
pub(crate) type MemoryDesk = Parts<
    MemorySource,
    MemorySink,
    MemorySources<Brand>,
    MemorySources<Brand>,
    ToyBenches,
    MemorySources<Brand>,
    FarmScript,
>;

/// Such parts with any client of a farm, each with its seat in the meeting of the desk.
pub(crate) type MeetingParts<C, H> = Parts<
    MeetingInput<H>,
    MemorySink,
    MeetingSources<H>,
    MeetingSources<H>,
    MeetingBenches<H>,
    MeetingSources<H>,
    MeetingClient<C, H>,
>;

/// A desk in memory whose parts may wait for each other.
#[derive(Drop)]
pub(crate) struct MeetingDesk<C, H> {
    pub parts: MeetingParts<C, H>,
}

/// Such a desk whose farm's client is a script.
pub(crate) type ScriptedDesk<H> = MeetingDesk<FarmScript, H>;

impl<H: Hands> MeetingDesk<FarmScript, H> {
    /// The parts without their meeting.
    pub(crate) fn apart(self) -> MemoryDesk {
        let Parts {
            input,
            output,
            tree,
            tree_local,
            benches,
            tree_remote,
            farm,
        } = self.parts;
        Parts {
            input: input.source,
            output,
            tree: tree.tree,
            tree_local: tree_local.tree,
            benches: benches.benches,
            tree_remote: tree_remote.tree,
            farm: farm.client,
        }
    }
}

impl<C: Caller<RowWorld> + Send + Drop, H: Hands + Send + Sync> Desk<RowWorld>
    for MeetingDesk<C, H> {
    type I = MeetingInput<H>;

    type O = MemorySink;

    type T = MeetingSources<H>;

    type L = MeetingSources<H>;

    type B = MeetingBenches<H>;

    type R = MeetingSources<H>;

    type C = MeetingClient<C, H>;

    type H = MeetingHalt<H>;

    ghost parts = { λ desk. desk.parts };

    fn halter(&self) -> MeetingHalt<H> {
        MeetingHalt {
            seat: self.parts.benches.seat.beside(Part::Benches).ok(),
        }
    }

    fn split(self) -> MeetingParts<C, H> {
        self.parts
    }

    // (this comes as the session has ended, when its reply is written)
    fn unite(of: MeetingParts<C, H>) -> MeetingDesk<C, H>
        ensures { result.parts ≡ of }
    {
        of.input.seat.leave();
        MeetingDesk { parts: of }
    }
}

/// Lets a meeting know which attempt is to end, and that the client is waited for no longer. Without a seat, for want of
/// memory, it does nothing.
#[derive(Drop)]
pub(crate) struct MeetingHalt<H> {
    seat: Option<Seat<H>>,
}

impl<H: Hands> Halt for MeetingHalt<H> {
    fn halt(&self, attempt: Attempt) {
        if let Some(seat) = &self.seat {
            seat.halt(attempt);
        }
    }

    // (each wait of a meeting has an end of its own)
    fn allow_silence(&self) {}

    fn halt_input(&self) {
        if let Some(seat) = &self.seat {
            seat.halt_input();
        }
    }
}

/// Gives desks, the first of them first, of as many as it had.
#[derive(Drop)]
pub(crate) struct ListFront<D> {
    pub desks: Vec<D>,
    pub all: usize,
    pub script: Script,
    ghost within: { vec_len desks ≤ all },
}

impl<D: Desk<RowWorld> + Send + Drop> Front<RowWorld> for ListFront<D> {
    type D = D;

    ghost coming = { λ f. Some f.desks.items };

    ghost given = { λ f. f.all - length f.desks.items };

    ghost gives = { λ n desk. Unit {0} };

    ghost over = { λ f. length f.desks.items == 0 };

    ghost faults = { λ f. f.script.faults };

    fn next(&mut self) -> Result<Option<D>, Failed> {
        self.script.call()?;
        if self.desks.is_empty() {
            return Ok(None);
        }
        Ok(Some(self.desks.remove(0)))
    }
}

/// Hears of sessions, and does nothing.
pub(crate) struct Unheard;

impl Log for Unheard {
    fn hear(&self, _transcript: &Transcript) {}
}
