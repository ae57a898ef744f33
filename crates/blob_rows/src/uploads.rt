//! `upload LIMIT MOST TIMES BLOBS TREE LINE ..`: uploads of blobs over one set of at most LIMIT digests, with
//! this limit of a batch, to a farm that answers these lines. The blobs stand in one pair of quotes with a
//! space between each two; `@TEXT` is the file at the path TEXT, which was gathered with that text and the
//! mark 0, and any other is its own text. TIMES is `once`, `twice`, or `fresh`: once, and once more fresh.

ghost use Rattle.std.specs.Prelude.{IfOk};
ghost use Rattle.rx_blobs.specs.Uploads.{AreMade, IsMade};

use crate::answers::{write_asks, write_digests, write_why};
use crate::lines::read_lines;
use crate::names::Names;
use rx_base::{Bytes, Items, RelPath, digest_of};
use rx_blobs::{Blob, Presence, ToUpload, upload};
use rx_exec_messages::{NamedBlob, Script, ScriptLine};
use rx_fakes::{MemorySources, TreeFault, read_tree};
use rx_row_values::path_of;
use rx_rows::{RowFault, Turn};
use rx_world::{Dialect, InputFile, Stamp, Toy};
use std::alloc::Global;
use std::marker::Brand;
use std::sync::Wait;

/// Writes what each upload answered, the calls that were made, how many of them failed, and how many files
/// were read.
pub(crate) fn answer_upload<R: Wait>(rt: &R, turn: &mut Turn<'_, '_>) {
    let limit = turn.read_number() as usize;
    let most = turn.read_number();
    let times = read_times(turn);
    let done = upload_blobs(rt, limit, most, times, turn);
    turn.keep(done);
}

fn upload_blobs<R: Wait>(
    rt: &R,
    limit: usize,
    most: u64,
    times: (u64, bool),
    turn: &mut Turn<'_, '_>,
) -> Result<(), RowFault> {
    let alloc = turn.alloc();
    let mut names = Names::new(alloc);
    let blobs = read_blobs(alloc, &turn.read_text(), &mut names)?;
    let mut uploads = read_uploads(alloc, names, limit, turn)?;
    for round in 0..times.0 {
        let what = ToUpload {
            blobs: blobs.as_slice(),
            most,
            fresh: times.1 && round > 0,
        };
        uploads.answer_one(rt, &what, turn);
    }
    uploads.write_end(turn);
    Ok(())
}

/// The source tree of the next word, and a farm that answers the lines of the words behind it.
fn read_uploads(
    alloc: Global,
    names: Names,
    limit: usize,
    turn: &mut Turn<'_, '_>,
) -> Result<Uploads, RowFault> {
    let sources = tree_of(alloc, turn.read_string().as_str())?;
    let mut names = names;
    let lines = read_lines(turn, &mut names);
    Ok(Uploads::new(alloc, names, sources, lines, limit))
}

/// What the uploads of a row go over, one after the other.
#[derive(Drop)]
pub(crate) struct Uploads {
    pub(crate) farm: Script,
    sources: MemorySources<Brand>,
    presence: Presence,
    names: Names,
}

impl Uploads {
    /// A farm that answers these lines, a source tree, and a set of at most so many digests.
    pub(crate) fn new(
        alloc: Global,
        names: Names,
        sources: MemorySources<Brand>,
        lines: Vec<ScriptLine>,
        limit: usize,
    ) -> Uploads {
        Uploads {
            farm: Script::new(alloc, lines, Dialect::New),
            sources,
            presence: Presence::new(alloc, limit),
            names,
        }
    }

    /// Uploads once, and writes the answer.
    pub(crate) fn answer_one<R: Wait>(
        &mut self,
        rt: &R,
        what: &ToUpload<'_>,
        turn: &mut Turn<'_, '_>,
    )
        requires { AreMade what.now.blobs.now }
    {
        let result = upload::<Toy<Brand>, Script, MemorySources<Brand>, R>(
            rt,
            turn.alloc(),
            &mut self.farm,
            &mut self.sources,
            &self.presence,
            what,
        );
        name_reads(&self.sources, &mut self.names, turn);
        match &result {
            Ok(left_out) => write_digests(left_out.as_slice(), &self.names, turn),
            Err(fault) => write_why(fault, &self.names, turn),
        }
    }

    /// Writes the calls that were made, how many of them failed, and how many files were read.
    fn write_end(&self, turn: &mut Turn<'_, '_>) {
        write_asks(self.farm.asks(), &self.names, turn);
        turn.write_named("faults", self.farm.faults());
        turn.write_named("reads", self.sources.reads() as u64);
    }
}

/// How many uploads there are, and whether those behind the first are fresh.
fn read_times(turn: &mut Turn<'_, '_>) -> (u64, bool) {
    match turn.read_word() {
        "once" => (1, false),
        "twice" => (2, false),
        "fresh" => (2, true),
        _ => {
            turn.refuse(RowFault::BadCall);
            (0, false)
        }
    }
}

/// The source tree that a text tells, whose files have the mark 0.
pub(crate) fn tree_of(alloc: Global, text: &str) -> Result<MemorySources<Brand>, RowFault> {
    match read_tree(alloc, text, 0) {
        Ok(tree) => Ok(tree),
        Err(TreeFault::NoMemory) => Err(RowFault::NoMemory),
        Err(_) => Err(RowFault::BadCall),
    }
}

/// The blobs of these texts, with a space between each two.
fn read_blobs(alloc: Global, texts: &[u8], names: &mut Names) -> Result<Items<Blob>, RowFault>
    ensures { IfOk result AreMade }
{
    let mut blobs = Items::new(alloc);
    for text in texts.split(|byte| *byte == b' ') {
        let blob = read_blob(alloc, text, names)?;
        let Ok(()) = blobs.push(blob) else {
            return Err(RowFault::NoMemory);
        };
    }
    Ok(blobs)
}

/// A blob of a text: a file where it begins with `@`.
fn read_blob(alloc: Global, text: &[u8], names: &mut Names) -> Result<Blob, RowFault>
    ensures { IfOk result IsMade }
{
    match text.split_first() {
        Some((b'@', content)) => {
            names.digest(content)?;
            Ok(Blob::File(input_file(alloc, content)?))
        }
        _ => {
            names.digest(text)?;
            Ok(Blob::Made(NamedBlob {
                digest: digest_of(text),
                bytes: Bytes::copy_of(alloc, text)?,
            }))
        }
    }
}

/// The file at the path of a text, as it is gathered where it has just this text.
pub(crate) fn input_file(alloc: Global, content: &[u8]) -> Result<InputFile, RowFault> {
    let name = std::str::from_utf8(content).map_err(|_| RowFault::BadText)?;
    Ok(InputFile {
        path: path_of(alloc, name)?,
        digest: digest_of(content),
        stamp: Stamp {
            size: content.len() as u64,
            mark: 0,
        },
        executable: false,
    })
}

/// Gives a name to each text that was read.
fn name_reads(sources: &MemorySources<Brand>, names: &mut Names, turn: &mut Turn<'_, '_>) {
    for given in sources.given.as_slice() {
        if let Some(bytes) = &given.bytes {
            names.digest_in(bytes.as_slice(), turn);
        }
    }
}
