//! Blobs as streams of bytes (`google/bytestream/bytestream.proto`, Read and Write). A blob is read and written whole.

use crate::farm::ToyFarm;
use crate::farm_fault::Broken;
use crate::framing::messages_of;
use crate::names::read_resource;
use crate::replies::{Reply, code_of};
use rx_base::Bytes;
use rx_exec_messages::{ReadRequest, ReadResponse, WriteRequest, WriteResponse};
use rx_messages::Message;
use std::alloc::Global;

/// INVALID_ARGUMENT (`google/rpc/code.proto`): a name without a digest, or pieces that aren't one blob's.
const INVALID: u32 = 3;

/// UNIMPLEMENTED (`google/rpc/code.proto`): a part of a blob is asked for.
const UNIMPLEMENTED: u32 = 12;

/// The most bytes of a piece that is sent.
const PIECE: usize = 65_536;

/// Read.
pub(crate) fn read(alloc: Global, farm: &ToyFarm, message: &[u8]) -> Result<Reply, Broken> {
    let asked = ReadRequest::decode(alloc, message)?;
    let Some(digest) = read_resource(asked.resource_name.as_str()) else {
        return Ok(Reply::failed(alloc, INVALID));
    };
    if asked.read_offset != 0 || asked.read_limit != 0 {
        return Ok(Reply::failed(alloc, UNIMPLEMENTED));
    }
    match farm.give(&digest) {
        Ok(bytes) => pieces_of(alloc, bytes.as_slice()),
        Err(fault) => Ok(Reply::failed(alloc, code_of(fault)?)),
    }
}

/// Bytes in pieces; without bytes there is one.
fn pieces_of(alloc: Global, bytes: &[u8]) -> Result<Reply, Broken> {
    let mut reply = Reply::failed(alloc, 0);
    let mut left = bytes;
    while PIECE < left.len() {
        let (piece, behind) = left.split_at(PIECE);
        add_piece(alloc, &mut reply, piece)?;
        left = behind;
    }
    add_piece(alloc, &mut reply, left)?;
    Ok(reply)
}

/// Adds a piece.
fn add_piece(alloc: Global, reply: &mut Reply, piece: &[u8]) -> Result<(), Broken> {
    let body = Bytes::copy_of(alloc, piece)?;
    reply.add(alloc, &ReadResponse { body })
}

/// The pieces of an upload as far as they were read.
#[derive(Drop)]
struct Upload {
    bytes: Vec<u8>,
    /// Whether each piece began where the one before ended, and the last of them said so.
    is_whole: bool,
    is_finished: bool,
}

/// Write.
pub(crate) fn write(alloc: Global, farm: &mut ToyFarm, body: &[u8]) -> Result<Reply, Broken> {
    let messages = messages_of(alloc, body)?;
    let Some(first) = messages.first() else {
        return Err(Broken::BadCall);
    };
    let named = WriteRequest::decode(alloc, first)?;
    let upload = upload_of(alloc, &messages)?;
    let Some(digest) = read_resource(named.resource_name.as_str()) else {
        return Ok(Reply::failed(alloc, INVALID));
    };
    if !upload.is_whole || !upload.is_finished {
        return Ok(Reply::failed(alloc, INVALID));
    }
    match farm.take(&digest, &upload.bytes) {
        Ok(()) => {
            let committed_size = upload.bytes.len() as i64;
            Reply::message(alloc, &WriteResponse { committed_size })
        }
        Err(fault) => Ok(Reply::failed(alloc, code_of(fault)?)),
    }
}

/// What the pieces of an upload are together.
fn upload_of(alloc: Global, messages: &[&[u8]]) -> Result<Upload, Broken> {
    let mut upload = Upload {
        bytes: Vec::new(alloc),
        is_whole: true,
        is_finished: false,
    };
    for message in messages {
        let piece = WriteRequest::decode(alloc, message)?;
        let begins = upload.bytes.len() as i64;
        upload.is_whole = upload.is_whole && !upload.is_finished && piece.write_offset == begins;
        upload.is_finished = piece.finish_write;
        upload.bytes.extend_from_slice(piece.body.as_slice())?;
    }
    Ok(upload)
}
