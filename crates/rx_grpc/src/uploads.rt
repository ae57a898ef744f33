//! Blobs that are written as streams (`google/bytestream/bytestream.proto`, Write). Their bytes are borrowed, and framed piece by
//! piece.

ghost use Rattle.std.specs.Prelude.{◌≡◌, ◌≤◌, map, length, nat_lt, take, IfOk};
ghost use Rattle.rx_base.specs.Results.{Gives};
ghost use Rattle.rx_exec_messages.specs.Dialects.{is_number};
ghost use Rattle.rx_world.specs.declared.call_faults.CallFault.TheVariants.{NoMemory as starved};
ghost use Rattle.rx_grpc.specs.Caller.{Hears};
ghost use Rattle.rx_grpc.specs.Questions.{asks_write};
ghost use Rattle.rx_grpc.specs.Writes.{offsets_of, piece_message, write_of, written_by};

use crate::body::Body;
use crate::channel::Channel;
use crate::method::Method;
use crate::replies::reply;
use rx_base::{Bytes, NoMemory, Text, TryClone};
use rx_codec::Message;
use rx_exec_messages::{WriteRequest, WriteResponse};
use rx_world::{CallFault, Dial};
use std::alloc::{AllocError, Global};
use std::collections::VecDeque;

/// The most bytes of a piece.
const PIECE: usize = 65_536;

/// The pieces of a blob that are left to send.
#[derive(Drop)]
struct Upload<'a> {
    alloc: Global,
    name: Text,
    bytes: &'a [u8],
    /// Where they begin.
    offsets: VecDeque<usize>,
}

/// Where the pieces of so many bytes begin; without bytes there is one.
fn offsets_of(alloc: Global, size: usize) -> Result<VecDeque<usize>, NoMemory>
    ensures { IfOk result (λ offsets. offsets.items ≡ offsets_of size) }
{
    let mut offsets = VecDeque::new(alloc);
    let count = size.saturating_sub(1) / PIECE + 1;
    for piece in 0..count {
        offsets.push_back(piece * PIECE)?;
    }
    Ok(offsets)
}

/// Whether these are more bytes than a piece may have.
fn is_long(bytes: &[u8]) -> bool
    ensures { result ≡ nat_lt 65536 (length bytes.now) }
{
    PIECE < bytes.len()
}

/// The piece at the front of these bytes.
fn front_of(bytes: &[u8]) -> &[u8]
    ensures { result.now ≡ take 65536 bytes.now }
{
    if bytes.len() <= PIECE {
        return bytes;
    }
    let (piece, _after) = bytes.split_at(PIECE);
    piece
}

/// The message of the piece that begins here.
fn write_of(alloc: Global, name: &Text, bytes: &[u8], at: usize) -> Result<WriteRequest, NoMemory>
    requires { at ≤ length bytes.now }
    ensures { IfOk result (λ message. message ≡ write_of name.now bytes.now at) }
{
    let Ok(write_offset) = i64::try_from(at) else {
        return Err(AllocError);
    };
    let (_before, rest) = bytes.split_at(at);
    let piece = front_of(rest);
    Ok(WriteRequest {
        resource_name: name.try_clone(alloc)?,
        write_offset,
        finish_write: !is_long(rest),
        body: Bytes::copy_of(alloc, piece)?,
    })
}

impl<'a> Body for Upload<'a> {
    ghost messages = { λ u. map (piece_message u.name u.bytes.now) u.offsets.items };

    fn is_done(&self) -> bool {
        self.offsets.is_empty()
    }

    fn next_message(&mut self) -> Result<Option<Bytes>, NoMemory> {
        let Some(at) = self.offsets.pop_front() else {
            return Ok(None);
        };
        if at > self.bytes.len() {
            return Err(AllocError);
        }
        let message = write_of(self.alloc, &self.name, self.bytes, at)?.encode(self.alloc)?;
        if message.len() > u32::MAX as usize {
            return Err(AllocError);
        }
        Ok(Some(Bytes::from_vec(message)))
    }
}

/// Whether the farm has so many bytes.
fn is_size(committed: i64, size: usize) -> bool
    ensures { result ≡ is_number size committed }
{
    if committed < 0 {
        return false;
    }
    committed as u64 == size as u64
}

/// Writes a blob under a name.
pub fn write_blob<D: Dial + Drop>(
    alloc: Global,
    channel: &mut Channel<D>,
    name: Text,
    bytes: &[u8],
) -> Result<(), CallFault>
    ensures { Hears D.faults D.rule D.L.Link (asks_write name bytes.now) channel.old channel.new
        (λ heard. Gives starved (λ x. x) result (written_by (length bytes.now) heard)) }
{
    let Ok(offsets) = offsets_of(alloc, bytes.len()) else {
        return Err(CallFault::NoMemory);
    };
    let mut upload = Upload {
        alloc,
        name,
        bytes,
        offsets,
    };
    let heard = channel.upload(Method::WriteStream.path(), &mut upload);
    let response: WriteResponse = reply(alloc, heard)?;
    if !is_size(response.committed_size, bytes.len()) {
        return Err(CallFault::BadMessage(0));
    }
    Ok(())
}
