//! `message KIND TEXT`: a message that is read from a text's bytes and written again: `same` where that
//! gives the same bytes, else what it gives.

use crate::exec_messages;
use rx_base::Digest;
use rx_messages::{
    Action, ActionResult, Any, BatchReadBlobsRequest, BatchReadBlobsResponse,
    BatchUpdateBlobsRequest, BatchUpdateBlobsResponse, BlobRead, BlobUpdate, BlobUpdated, Command,
    Directory, DirectoryNode, Duration, EnvironmentVariable, FileNode, FindMissingBlobsRequest,
    FindMissingBlobsResponse, Message, MessageFault, OutputDirectory, OutputFile, OutputSymlink,
    Platform, Property, Status, SymlinkNode, Tree,
};
use rx_rows::{RowFault, Turn};

/// Reads and writes a message of the kind that the next word names.
pub(crate) fn call(turn: &mut Turn<'_, '_>) {
    let kind = turn.read_word();
    let bytes = turn.read_text();
    call_kind(kind, &bytes, turn);
}

/// Reads and writes one message of this kind.
fn call_kind(kind: &str, bytes: &[u8], turn: &mut Turn<'_, '_>) {
    match kind {
        "Digest" => again::<Digest>(bytes, turn),
        "FileNode" => again::<FileNode>(bytes, turn),
        "DirectoryNode" => again::<DirectoryNode>(bytes, turn),
        "SymlinkNode" => again::<SymlinkNode>(bytes, turn),
        "Directory" => again::<Directory>(bytes, turn),
        "Tree" => again::<Tree>(bytes, turn),
        "EnvironmentVariable" => again::<EnvironmentVariable>(bytes, turn),
        "Property" => again::<Property>(bytes, turn),
        "Platform" => again::<Platform>(bytes, turn),
        "Command" => again::<Command>(bytes, turn),
        "Duration" => again::<Duration>(bytes, turn),
        "Action" => again::<Action>(bytes, turn),
        "OutputFile" => again::<OutputFile>(bytes, turn),
        "OutputDirectory" => again::<OutputDirectory>(bytes, turn),
        "OutputSymlink" => again::<OutputSymlink>(bytes, turn),
        "ActionResult" => again::<ActionResult>(bytes, turn),
        "Any" => again::<Any>(bytes, turn),
        "Status" => again::<Status>(bytes, turn),
        _ => call_storage(kind, bytes, turn),
    }
}

/// The same, of the messages of the ContentAddressableStorage service, and then of other calls.
fn call_storage(kind: &str, bytes: &[u8], turn: &mut Turn<'_, '_>) {
    match kind {
        "FindMissingBlobsRequest" => again::<FindMissingBlobsRequest>(bytes, turn),
        "FindMissingBlobsResponse" => again::<FindMissingBlobsResponse>(bytes, turn),
        "BlobUpdate" => again::<BlobUpdate>(bytes, turn),
        "BatchUpdateBlobsRequest" => again::<BatchUpdateBlobsRequest>(bytes, turn),
        "BlobUpdated" => again::<BlobUpdated>(bytes, turn),
        "BatchUpdateBlobsResponse" => again::<BatchUpdateBlobsResponse>(bytes, turn),
        "BatchReadBlobsRequest" => again::<BatchReadBlobsRequest>(bytes, turn),
        "BlobRead" => again::<BlobRead>(bytes, turn),
        "BatchReadBlobsResponse" => again::<BatchReadBlobsResponse>(bytes, turn),
        _ => exec_messages::call(kind, bytes, turn),
    }
}

/// Reads and writes one message.
pub(crate) fn again<M: Message>(bytes: &[u8], turn: &mut Turn<'_, '_>) {
    let alloc = turn.alloc();
    match M::decode(alloc, bytes) {
        Ok(message) => {
            let written = turn.made(message.encode(alloc), Vec::new(alloc));
            write_same(&written, bytes, turn);
        }
        Err(MessageFault::NoMemory) => turn.refuse(RowFault::NoMemory),
        Err(fault) => turn.write_value(&fault),
    }
}

/// Writes what was written, or `same`.
fn write_same(written: &[u8], read: &[u8], turn: &mut Turn<'_, '_>) {
    if written == read {
        turn.write_word("same");
    } else {
        turn.write_text(written);
    }
}
