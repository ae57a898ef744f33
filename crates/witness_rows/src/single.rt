//! The session of a tool with one input and one output: its premises are met, so it is done.

ghost use Rattle.std.specs.Prelude.{◌≡◌, [], IfOk, codes};
ghost use Rattle.rx_engine.specs.Answers.{asked_of};
ghost use Rattle.rx_engine.specs.Honest.{IsCleanIfDone};
ghost use Rattle.rx_engine.specs.Quiet.{IsDoneOr};
ghost use Rattle.rx_fakes.specs.Entries.{stamp_of};
ghost use Rattle.rx_world.specs.Toy.{toy_tool};
ghost use Rattle.witness_rows.specs.Outcomes.{IsOutcomeIfDone};
ghost use Rattle.witness_rows.specs.Single.{single_frame, single_outcome, single_request, single_text, single_tree};

use crate::desk::{QuietDesk, desk_of, shared_alone};
use crate::place::QuietPlace;
use crate::witness::Witness;
use rx_base::{Bytes, NoMemory, RelPath};
use rx_engine::serve_session;
use rx_fakes::{QuietSources, SourceEntries};
use rx_world::{Contents, Toy};
use std::alloc::{AllocError, Global};
use std::marker::Brand;
use std::sync::Wait;
use std::thread::Threads;

/// The frame of the request.
fn single_frame(alloc: Global) -> Result<Vec<u8>, NoMemory>
    ensures { IfOk result (λ frame. frame.items ≡ single_frame) }
{
    Vec::from_slice(
        alloc,
        &[
            1, 0, 0, 0, 19, 8, 1, 18, 2, 47, 114, 26, 1, 116, 48, 1, 56, 1, 66, 1, 97, 82, 1, 98,
        ],
    )
}

/// The path of the input.
#[tactic(auto, using(crate::proofs::Decoded::input_read))]
fn input_path(alloc: Global) -> Result<RelPath, NoMemory>
    ensures { IfOk result (λ path. path ≡ codes "a") }
{
    match RelPath::read(alloc, "a") {
        Ok(path) => Ok(path),
        Err(_) => Err(AllocError),
    }
}

/// A source tree that has the input alone.
fn single_sources<K: Contents>(alloc: Global) -> Result<QuietSources<K>, NoMemory>
    requires { K.honest → single_text ≡ K.holds (codes "a") (stamp_of single_text 0) }
    ensures { IfOk result (λ sources. sources.entries ≡ single_tree) }
{
    let path = input_path(alloc)?;
    let bytes = Bytes::copy_of(alloc, b"abc")?;
    let mut entries: SourceEntries<K> = SourceEntries::new(alloc);
    entries.add_file(path, 0, false, bytes)?;
    Ok(QuietSources { alloc, entries })
}

/// Serves the request at a world that has the input.
fn single_at<K: Contents + Send, R: Threads + Wait + Sync>(
    rt: &R,
    alloc: Global,
) -> Result<Witness, NoMemory>
    requires { K.honest → single_text ≡ K.holds (codes "a") (stamp_of single_text 0) }
    ensures done { K.honest → IfOk result (λ witness.
        IsDoneOr single_request witness.transcript.ending witness.transcript.reply) }
    ensures clean { K.honest → IfOk result (λ witness. IsCleanIfDone toy_tool single_tree
        (asked_of single_request) [] witness.journal.items witness.transcript) }
    ensures tells { K.honest → IfOk result (λ witness. IsOutcomeIfDone single_outcome
        witness.journal.items witness.transcript.reply) }
{
    let mut shared = shared_alone::<K>(alloc)?;
    let frame = single_frame(alloc)?;
    let tree = single_sources(alloc)?;
    let tree_local = single_sources(alloc)?;
    let desk = desk_of::<K>(alloc, frame, tree, tree_local);
    let (transcript, _) = serve_session::<Toy<K>, QuietDesk<K>, QuietPlace, R>(
        rt,
        alloc,
        1,
        desk,
        &mut shared,
    );
    let (_, journal) = shared.board.into_parts();
    Ok(Witness {
        transcript,
        journal,
    })
}

/// Serves the request at a Toy world whose stamps are honest, with parts of which none fails but
/// for want of memory.
pub fn serve_single<R: Threads + Wait + Sync>(rt: &R, alloc: Global) -> Result<Witness, NoMemory>
    // It is done, unless memory runs out.
    ensures done { IfOk result (λ witness.
        IsDoneOr single_request witness.transcript.ending witness.transcript.reply) }
    // Where it is done, that is the clean run of the request on the source tree with the input.
    ensures clean { IfOk result (λ witness. IsCleanIfDone toy_tool single_tree
        (asked_of single_request) [] witness.journal.items witness.transcript) }
    // And that is this outcome, which the journal has as its one entry.
    ensures tells { IfOk result (λ witness. IsOutcomeIfDone single_outcome
        witness.journal.items witness.transcript.reply) }
{
    single_at::<Brand, R>(rt, alloc)
}
