//! What an action asks for, read from the blobs that it names (`remote_execution.proto`, Action, Command, Directory).

use crate::store::Store;
use rx_base::{Bytes, Digest, Items, NoMemory, PathFault, RelPath, Text, TryClone, sort_paths};
use rx_messages::{Action, Message, MessageFault};
use rx_tree::{Listed, TreeFault, TreeFile, list_of};
use rx_world::{CallFault, Command, Dialect, FileOut, Tree};
use std::alloc::Global;

/// INVALID_ARGUMENT (`google/rpc/code.proto`): a message is missing in another, or is none.
const INVALID: u32 = 3;

/// FAILED_PRECONDITION (`google/rpc/code.proto`): a blob of the action isn't in the store.
const LACKING: u32 = 9;

/// A command with its input tree.
#[derive(Drop)]
pub(crate) struct Job {
    pub(crate) command: Command,
    pub(crate) tree: Tree,
    /// The paths of the outputs as the action has them, in their order.
    pub(crate) paths: Items<Text>,
    /// Whether the result may be answered from the action cache.
    pub(crate) may_keep: bool,
}

/// What the action of this digest asks for, on a farm of this dialect. `Status` 9 where a blob isn't in the store, 3
/// where one isn't what it has to be.
pub(crate) fn job_of(
    alloc: Global,
    store: &Store,
    digest: Digest,
    dialect: Dialect,
) -> Result<Job, CallFault> {
    let action: Action = message_at(alloc, store, Some(digest))?;
    let message: rx_messages::Command = message_at(alloc, store, action.command_digest)?;
    let tree = tree_at(alloc, store, action.input_root_digest)?;
    let directory = directory_of(alloc, message.working_directory.as_str())?;
    let paths = outputs_of(message.output_files, message.output_paths, dialect);
    let outputs = paths_below(alloc, &directory, paths.as_slice())?;
    Ok(Job {
        command: command_of(alloc, message.arguments, directory, outputs),
        tree,
        paths,
        may_keep: !action.do_not_cache,
    })
}

/// The message in the blob of a digest.
fn message_at<M: Message>(
    alloc: Global,
    store: &Store,
    digest: Option<Digest>,
) -> Result<M, CallFault> {
    let Some(digest) = digest else {
        return Err(CallFault::Status(INVALID));
    };
    let Some(bytes) = store.get(&digest) else {
        return Err(CallFault::Status(LACKING));
    };
    match M::decode(alloc, bytes) {
        Ok(message) => Ok(message),
        Err(MessageFault::NoMemory) => Err(CallFault::NoMemory),
        Err(_) => Err(CallFault::Status(INVALID)),
    }
}

/// The field in which the outputs stand (`remote_execution.proto`, Command.output_paths): a farm of version 2.0 knows
/// `output_files` alone, and a later one reads them where there are no `output_paths`.
fn outputs_of(files: Items<Text>, paths: Items<Text>, dialect: Dialect) -> Items<Text> {
    if dialect == Dialect::Old || paths.is_empty() {
        files
    } else {
        paths
    }
}

/// The command. Its environment and platform are left out, since the Toy world's tool reads neither.
fn command_of(
    alloc: Global,
    words: Items<Text>,
    working_directory: RelPath,
    outputs: Items<RelPath>,
) -> Command {
    Command {
        words,
        environment: Items::new(alloc),
        working_directory,
        outputs,
        platform: Items::new(alloc),
        timeout_seconds: 0,
    }
}

/// What a path's refusal is to whoever sent the path.
fn fault_of(fault: PathFault) -> CallFault {
    match fault {
        PathFault::NoMemory => CallFault::NoMemory,
        _ => CallFault::Status(INVALID),
    }
}

/// The working directory; an empty text is the root.
fn directory_of(alloc: Global, text: &str) -> Result<RelPath, CallFault> {
    if text.is_empty() {
        return Ok(RelPath::root(alloc));
    }
    RelPath::read(alloc, text).map_err(fault_of)
}

/// The paths of the outputs from the root on.
fn paths_below(
    alloc: Global,
    directory: &RelPath,
    texts: &[Text],
) -> Result<Items<RelPath>, CallFault> {
    let mut paths = Items::new(alloc);
    for text in texts {
        let path = directory.join(alloc, text.as_str()).map_err(fault_of)?;
        if paths.push(path).is_err() {
            return Err(CallFault::NoMemory);
        }
    }
    Ok(paths)
}

/// The tree of this root, with its files' bytes.
fn tree_at(alloc: Global, store: &Store, root: Option<Digest>) -> Result<Tree, CallFault> {
    let Some(root) = root else {
        return Err(CallFault::Status(INVALID));
    };
    let Listed { files, dirs } = match list_of(alloc, &root, store.blobs()) {
        Ok(listed) => listed,
        Err(TreeFault::NoMemory) => return Err(CallFault::NoMemory),
        Err(TreeFault::MissingBlob(_)) => return Err(CallFault::Status(LACKING)),
        Err(_) => return Err(CallFault::Status(INVALID)),
    };
    let Ok(directories) = directories_of(alloc, files.as_slice(), dirs) else {
        return Err(CallFault::NoMemory);
    };
    Ok(Tree {
        files: files_with_bytes(alloc, store, files)?,
        directories,
    })
}

/// These files with their bytes.
fn files_with_bytes(
    alloc: Global,
    store: &Store,
    listed: Items<TreeFile>,
) -> Result<Items<FileOut>, CallFault> {
    let mut files = Items::new(alloc);
    for file in listed.into_vec() {
        let Some(bytes) = store.get(&file.digest) else {
            return Err(CallFault::Status(LACKING));
        };
        let Ok(bytes) = Bytes::copy_of(alloc, bytes) else {
            return Err(CallFault::NoMemory);
        };
        let file = FileOut {
            path: file.path,
            bytes,
            executable: file.executable,
        };
        if files.push(file).is_err() {
            return Err(CallFault::NoMemory);
        }
    }
    Ok(files)
}

/// The directories without any entry and those above them and above the files, in order.
fn directories_of(
    alloc: Global,
    files: &[TreeFile],
    empty: Items<RelPath>,
) -> Result<Items<RelPath>, NoMemory> {
    let mut directories = Items::new(alloc);
    for file in files {
        add_all(file.path.prefixes(alloc)?, &mut directories)?;
    }
    for directory in empty.as_slice() {
        add_all(directory.prefixes(alloc)?, &mut directories)?;
        directories.push(directory.try_clone(alloc)?)?;
    }
    sort_paths(directories)
}

/// Adds these paths.
fn add_all(paths: Items<RelPath>, to: &mut Items<RelPath>) -> Result<(), NoMemory> {
    for path in paths.into_vec() {
        to.push(path)?;
    }
    Ok(())
}
