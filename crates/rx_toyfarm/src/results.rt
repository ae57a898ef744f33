//! The results of actions: how one is made of an outcome, and how the farm keeps it.

use crate::store::Store;
use rx_base::{Bytes, Digest, Items, NoMemory, Text};
use rx_messages::{ActionResult, Message, MessageFault, OutputFile};
use rx_world::{CallFault, Exit, FileOut, Outcome};
use std::alloc::Global;

/// INTERNAL (`google/rpc/code.proto`): what was kept isn't what it was.
const BROKEN: u32 = 13;

/// The result of an action that was run, by its bytes.
#[derive(Drop)]
pub(crate) struct Kept {
    pub(crate) bytes: Bytes,
    /// Whether the action cache answers it.
    pub(crate) is_cached: bool,
}

impl Kept {
    /// The result.
    pub(crate) fn read(&self, alloc: Global) -> Result<ActionResult, CallFault> {
        match ActionResult::decode(alloc, self.bytes.as_slice()) {
            Ok(result) => Ok(result),
            Err(MessageFault::NoMemory) => Err(CallFault::NoMemory),
            Err(_) => Err(CallFault::Status(BROKEN)),
        }
    }
}

/// The result of an outcome whose outputs go by these paths. Its texts and files are put into the store; an empty text
/// has no digest.
pub(crate) fn result_of(
    alloc: Global,
    store: &mut Store,
    paths: Items<Text>,
    outcome: Outcome,
) -> Result<ActionResult, NoMemory> {
    let Outcome { exit, files } = outcome;
    let Exit {
        code,
        stdout,
        stderr,
    } = exit;
    Ok(ActionResult {
        output_files: put_files(alloc, store, paths, files)?,
        output_directories: Items::new(alloc),
        exit_code: code,
        stdout_raw: Bytes::new(alloc),
        stdout_digest: put_text(store, stdout)?,
        stderr_raw: Bytes::new(alloc),
        stderr_digest: put_text(store, stderr)?,
        execution_metadata: Bytes::new(alloc),
        output_symlinks: Items::new(alloc),
    })
}

/// Puts a text into the store, unless it is empty.
fn put_text(store: &mut Store, text: Bytes) -> Result<Option<Digest>, NoMemory> {
    if text.is_empty() {
        return Ok(None);
    }
    Ok(Some(store.put(text.into_vec())?))
}

/// Puts the files into the store. Each goes by the path at its place.
fn put_files(
    alloc: Global,
    store: &mut Store,
    paths: Items<Text>,
    files: Items<FileOut>,
) -> Result<Items<OutputFile>, NoMemory> {
    let mut outputs = Items::new(alloc);
    for (path, file) in paths.into_vec().into_iter().zip(files.into_vec()) {
        outputs.push(OutputFile {
            path,
            digest: Some(store.put(file.bytes.into_vec())?),
            is_executable: file.executable,
            contents: Bytes::new(alloc),
        })?;
    }
    Ok(outputs)
}
