//! `run LINE ..`, `refusing LINE ..`, `until COUNT LINE ..` and `with FIRST THEN LINE ..`: a whole
//! attempt, over a client in memory that answers these lines.

ghost use Rattle.std.specs.Prelude.{IfOk};
ghost use Rattle.rx_remote.specs.Actions.{AreNamed};

use crate::answers::write_end;
use crate::commands::placed_command;
use crate::lines::read_lines;
use crate::races::Race;
use rx_base::{Bytes, Items, digest_of};
use rx_blobs::Presence;
use rx_exec_messages::Script;
use rx_fakes::{QuietSources, SourceEntries};
use rx_farm_values::write_asks;
use rx_remote::{RemoteJob, run_remote};
use rx_row_values::path_of;
use rx_rows::{Answer, Row, RowFault};
use rx_tree::{Built, TreeFault, build};
use rx_world::{Dialect, InputFile, Stamp, Toy};
use std::alloc::Global;
use std::marker::Brand;
use std::sync::Wait;

/// What a row says of an attempt beside the lines.
#[derive(Drop)]
pub(crate) struct Attempt {
    /// Whether a result of the farm's action cache is taken.
    pub(crate) accept_cached: bool,
    /// After how many asks its race is decided.
    pub(crate) race: Race,
    /// The file `a` of the inputs: its text as it was gathered, and as it is read.
    pub(crate) input: Option<Input>,
}

impl Attempt {
    /// An attempt on an empty tree that isn't stopped.
    pub(crate) fn new(accept_cached: bool) -> Attempt {
        Attempt {
            accept_cached,
            race: Race::new(u64::MAX),
            input: None,
        }
    }

    /// An attempt whose race is decided after so many asks.
    pub(crate) fn until(asks: u64) -> Attempt {
        Attempt {
            accept_cached: true,
            race: Race::new(asks),
            input: None,
        }
    }

    /// An attempt with the one file `a`.
    pub(crate) fn with(gathered: Vec<u8>, read: Vec<u8>) -> Attempt {
        Attempt {
            accept_cached: true,
            race: Race::new(u64::MAX),
            input: Some(Input { gathered, read }),
        }
    }
}

/// The texts of an input.
#[derive(Drop)]
pub(crate) struct Input {
    pub(crate) gathered: Vec<u8>,
    pub(crate) read: Vec<u8>,
}

/// Answers the calls of the attempt, how many of them failed, and the end.
pub(crate) fn call(
    rt: &impl Wait,
    alloc: Global,
    row: &mut Row<'_>,
    attempt: Attempt,
    answer: &mut Answer,
) -> Result<(), RowFault> {
    let mut race = attempt.race;
    let files = files_of(alloc, &attempt.input)?;
    let mut sources = sources_of(alloc, &attempt.input)?;
    let tree = tree_of(alloc, files.as_slice())?;
    let command = placed_command(alloc)?;
    let presence = Presence::new(alloc, 1000);
    let lines = read_lines(alloc, row)?;
    let mut farm = Script::new(alloc, lines, Dialect::New);
    let job = RemoteJob {
        command: &command,
        accept_cached: attempt.accept_cached,
        tree: &tree,
        files: files.as_slice(),
        presence: &presence,
    };
    let end = run_remote::<Toy<Brand>, Script, QuietSources<Brand>, Race, _>(
        rt,
        alloc,
        &job,
        &mut farm,
        &mut sources,
        &mut race,
    );
    write_asks(alloc, farm.asks(), answer)?;
    answer.word("faults")?;
    answer.number(farm.faults())?;
    write_end(alloc, &end, answer)?;
    Ok(())
}

/// The file `a` of the inputs, as it was gathered, or no file.
fn files_of(alloc: Global, input: &Option<Input>) -> Result<Items<InputFile>, RowFault> {
    let mut files = Items::new(alloc);
    if let Some(input) = input {
        files.push(InputFile {
            path: path_of(alloc, "a")?,
            digest: digest_of(&input.gathered),
            stamp: Stamp { size: 3, mark: 0 },
            executable: false,
        })?;
    }
    Ok(files)
}

/// The tree of these files.
fn tree_of(alloc: Global, files: &[InputFile]) -> Result<Built, RowFault>
    ensures { IfOk result (λ tree. AreNamed tree.blobs) }
{
    match build(alloc, files, &[]) {
        Ok(tree) => Ok(tree),
        Err(TreeFault::NoMemory) => Err(RowFault::NoMemory),
        Err(_) => Err(RowFault::BadCall),
    }
}

/// The source tree, with the file as it is read.
fn sources_of(alloc: Global, input: &Option<Input>) -> Result<QuietSources<Brand>, RowFault> {
    let mut entries = SourceEntries::new(alloc);
    if let Some(input) = input {
        let stamp = Stamp { size: 3, mark: 0 };
        let bytes = Bytes::copy_of(alloc, &input.read)?;
        entries.add_stamped(path_of(alloc, "a")?, stamp, false, bytes)?;
    }
    Ok(QuietSources { alloc, entries })
}
