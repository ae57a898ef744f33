//! `run TEXT`, `refusing TEXT`: a whole remote attempt on the farm.

ghost use Rattle.std.specs.Prelude.{IfOk};
ghost use Rattle.rx_remote.specs.Actions.{AreNamed};

use crate::commands::command;
use rx_base::{Bytes, Items, digest_of};
use rx_blobs::Presence;
use rx_fakes::{QuietSources, SourceEntries};
use rx_farm_values::write_remote_cause;
use rx_remote::{RemoteJob, run_remote};
use rx_row_values::path_of;
use rx_rows::{Answer, Row, RowFault};
use rx_toyfarm::ToyFarm;
use rx_tree::{Built, TreeFault, build};
use rx_world::{Attempt, End, InputFile, Origin, Outcome, RemoteCause, Stamp, Toy, Unstopped};
use std::alloc::Global;
use std::marker::Brand;
use std::sync::Wait;

/// The most blobs that are remembered as present.
const PRESENT: usize = 1000;

/// Answers the end of an attempt whose one input `a` has this text.
pub(crate) fn call(
    rt: &impl Wait,
    alloc: Global,
    farm: &mut ToyFarm,
    row: &mut Row<'_>,
    accept_cached: bool,
    answer: &mut Answer,
) -> Result<(), RowFault> {
    let text = row.text(alloc)?;
    let mut files = Items::new(alloc);
    files.push(input(alloc, &text)?)?;
    let mut sources = sources(alloc, &text)?;
    let end = attempt(
        rt,
        alloc,
        farm,
        &mut sources,
        files.as_slice(),
        accept_cached,
    )?;
    write_end(alloc, &end, answer)
}

/// How an attempt on these files ends.
fn attempt(
    rt: &impl Wait,
    alloc: Global,
    farm: &mut ToyFarm,
    sources: &mut QuietSources<Brand>,
    files: &[InputFile],
    accept_cached: bool,
) -> Result<End<Outcome, RemoteCause>, RowFault> {
    let tree = tree_of(alloc, files)?;
    let job = RemoteJob {
        command: &command(alloc)?,
        accept_cached,
        tree: &tree,
        files,
        presence: &Presence::new(alloc, PRESENT),
    };
    let mut stop = Unstopped {
        attempt: Attempt::Remote,
    };
    Ok(run_remote::<Toy<Brand>, ToyFarm, QuietSources<Brand>, Unstopped, _>(
        rt, alloc, &job, farm, sources, &mut stop,
    ))
}

/// Writes an end: `Done` with the outcome, or `Failed` with the cause.
fn write_end(
    alloc: Global,
    end: &End<Outcome, RemoteCause>,
    answer: &mut Answer,
) -> Result<(), RowFault> {
    match end {
        End::Done { outcome, origin } => write_done(outcome, *origin, answer),
        End::Failed { cause } => {
            answer.word("Failed")?;
            write_remote_cause(alloc, cause, answer)?;
            Ok(())
        }
    }
}

/// The stamp of the input.
fn stamp_of(text: &[u8]) -> Stamp {
    Stamp {
        size: text.len() as u64,
        mark: 1,
    }
}

/// The file `a` with this text, as it was gathered.
fn input(alloc: Global, text: &[u8]) -> Result<InputFile, RowFault> {
    Ok(InputFile {
        path: path_of(alloc, "a")?,
        digest: digest_of(text),
        stamp: stamp_of(text),
        executable: false,
    })
}

/// The source tree with the file `a`.
fn sources(alloc: Global, text: &[u8]) -> Result<QuietSources<Brand>, RowFault> {
    let mut entries = SourceEntries::new(alloc);
    let bytes = Bytes::copy_of(alloc, text)?;
    entries.add_stamped(path_of(alloc, "a")?, stamp_of(text), false, bytes)?;
    Ok(QuietSources { alloc, entries })
}

/// The tree of these files.
fn tree_of(alloc: Global, files: &[InputFile]) -> Result<Built, RowFault>
    ensures { IfOk result (λ tree. AreNamed tree.blobs) }
{
    match build(alloc, files, &[]) {
        Ok(tree) => Ok(tree),
        Err(TreeFault::NoMemory) => Err(RowFault::NoMemory),
        Err(_) => Err(RowFault::BadCall),
    }
}

/// Writes where an outcome comes from, its code and texts, and each file.
fn write_done(outcome: &Outcome, origin: Origin, answer: &mut Answer) -> Result<(), RowFault> {
    answer.word("Done")?;
    answer.value(&origin)?;
    answer.value(&outcome.exit.code)?;
    answer.text(outcome.exit.stdout.as_slice())?;
    answer.text(outcome.exit.stderr.as_slice())?;
    for file in outcome.files.as_slice() {
        answer.text(file.path.as_str().as_bytes())?;
        answer.text(file.bytes.as_slice())?;
    }
    Ok(())
}
