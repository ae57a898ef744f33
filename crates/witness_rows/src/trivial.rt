//! The session of a tool without inputs and outputs: its premises are met, so it is done.

ghost use Rattle.std.specs.Prelude.{◌≡◌, [], IfOk};
ghost use Rattle.rx_engine.specs.Answers.{asked_of};
ghost use Rattle.rx_engine.specs.Honest.{IsCleanIfDone};
ghost use Rattle.rx_engine.specs.Quiet.{IsDoneOr};
ghost use Rattle.rx_world.specs.Toy.{toy_tool};
ghost use Rattle.witness_rows.specs.Outcomes.{IsOutcomeIfDone};
ghost use Rattle.witness_rows.specs.Trivial.{trivial_frame, trivial_outcome, trivial_request};

use crate::desk::{QuietDesk, desk_of, no_sources, shared_alone};
use crate::place::QuietPlace;
use crate::witness::Witness;
use rx_base::NoMemory;
use rx_engine::serve_session;
use rx_world::{Contents, Toy};
use std::alloc::Global;
use std::marker::Brand;
use std::sync::Wait;
use std::thread::Threads;

/// The frame of the request.
fn trivial_frame(alloc: Global) -> Result<Vec<u8>, NoMemory>
    ensures { IfOk result (λ frame. frame.items ≡ trivial_frame) }
{
    Vec::from_slice(
        alloc,
        &[
            1, 0, 0, 0, 13, 8, 1, 18, 2, 47, 114, 26, 1, 116, 48, 1, 56, 1,
        ],
    )
}

/// Serves the request at a world.
fn trivial_at<K: Contents + Send, R: Threads + Wait + Sync>(
    rt: &R,
    alloc: Global,
) -> Result<Witness, NoMemory>
    ensures done { K.honest → IfOk result (λ witness.
        IsDoneOr trivial_request witness.transcript.ending witness.transcript.reply) }
    ensures clean { K.honest → IfOk result (λ witness. IsCleanIfDone toy_tool []
        (asked_of trivial_request) [] witness.journal.items witness.transcript) }
    ensures tells { K.honest → IfOk result (λ witness. IsOutcomeIfDone trivial_outcome
        witness.journal.items witness.transcript.reply) }
{
    let mut shared = shared_alone::<K>(alloc)?;
    let frame = trivial_frame(alloc)?;
    let desk = desk_of::<K>(alloc, frame, no_sources(alloc), no_sources(alloc));
    let (transcript, _) = serve_session::<Toy<K>, QuietDesk<K>, QuietPlace, R>(
        rt,
        alloc,
        1,
        desk,
        &mut shared,
    );
    let (_, journal) = shared.board.into_parts();
    Ok(Witness {
        transcript,
        journal,
    })
}

/// Serves the request at a Toy world whose stamps are honest, with parts of which none fails but
/// for want of memory.
pub fn serve_trivial<R: Threads + Wait + Sync>(rt: &R, alloc: Global) -> Result<Witness, NoMemory>
    // It is done, unless memory runs out.
    ensures done { IfOk result (λ witness.
        IsDoneOr trivial_request witness.transcript.ending witness.transcript.reply) }
    // Where it is done, that is the clean run of the request on the empty source tree.
    ensures clean { IfOk result (λ witness. IsCleanIfDone toy_tool []
        (asked_of trivial_request) [] witness.journal.items witness.transcript) }
    // And that is this outcome, which the journal has as its one entry.
    ensures tells { IfOk result (λ witness. IsOutcomeIfDone trivial_outcome
        witness.journal.items witness.transcript.reply) }
{
    trivial_at::<Brand, R>(rt, alloc)
}
