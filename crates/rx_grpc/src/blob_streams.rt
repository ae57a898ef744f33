//! Blobs that are read as streams (`google/bytestream/bytestream.proto`, Read).

ghost use Rattle.std.specs.Prelude.{◌≡◌, Bool, true, false, [], None, Some, if◌then◌else◌, IfOk};
ghost use Rattle.rx_base.specs.Results.{Gives};
ghost use Rattle.rx_world.specs.declared.call_faults.CallFault.TheVariants.{NoMemory as starved};
ghost use Rattle.rx_grpc.specs.Questions.{asks_blob, blob_question};
ghost use Rattle.rx_grpc.specs.Streamed.{is_answering};
ghost use Rattle.rx_grpc.specs.StreamedCalls.{HearsAll, HearsItems, joined, joined_of, taken};

use crate::channel::Channel;
use crate::method::Method;
use crate::replies::{failed, read};
use crate::resources::read_name;
use crate::stream_item::StreamItem;
use crate::streamed_calls::{begin, next};
use crate::transfer_fault::TransferFault;
use rx_base::{Bytes, Digest, NoMemory, Text};
use rx_exec_messages::{ReadRequest, ReadResponse};
use rx_world::{CallFault, Dial};
use std::alloc::Global;

/// More items than an answer has: it takes at most 268,435,456 bytes, and each message has five at least.
const MOST_ITEMS: u32 = 53_687_093;

/// The most bytes for which room is made before they come.
const MOST_ROOM: u64 = 268_435_456;

/// Takes an item: adds the bytes of a message, behind which more follows, or tells that the blob is whole.
fn take_item(
    alloc: Global,
    text: &mut Vec<u8>,
    came: Result<StreamItem, TransferFault>,
) -> Result<bool, CallFault>
    ensures taken { Gives starved (λ (more : Bool). if more then Some text.new.items else None)
        result (taken text.old.items came) }
    ensures whole { IfOk result (λ more. more ≡ false → text.new ≡ text.old) }
{
    match came {
        Ok(StreamItem::Message(message)) => {
            let response: ReadResponse = read(alloc, message.as_slice())?;
            let Ok(()) = text.extend_from_slice(response.body.as_slice()) else {
                return Err(CallFault::NoMemory);
            };
            Ok(true)
        }
        Ok(StreamItem::Success { cut: false }) => Ok(false),
        Ok(StreamItem::Success { cut: true }) => Err(CallFault::BadMessage(0)),
        Ok(StreamItem::Status(code)) => Err(CallFault::Status(code as u32)),
        Ok(StreamItem::Compressed) => Err(CallFault::Compressed),
        Ok(StreamItem::TooLarge) => Err(CallFault::TooLarge),
        Ok(StreamItem::NoStatus) => Err(CallFault::NoStatus),
        Ok(StreamItem::LinkEnd) => Err(CallFault::NoStatus),
        Err(fault) => Err(failed(fault)),
    }
}

/// Joins the bytes of all messages of the answer that is open. Room is made for `size` bytes.
fn join<D: Dial + Drop>(
    alloc: Global,
    channel: &mut Channel<D>,
    size: usize,
) -> Result<Bytes, CallFault>
    requires { is_answering channel.old.transport ≡ true }
    ensures { HearsAll D.rule D.L.Link channel.old channel.new (λ items.
        Gives starved (λ x. x) result (joined [] items)) }
{
    let Ok(mut text) = Vec::with_capacity(alloc, size) else {
        return Err(CallFault::NoMemory);
    };
    for _ in 0..MOST_ITEMS {
        let came = next(channel);
        match take_item(alloc, &mut text, came) {
            Ok(more) => {
                if !more {
                    return Ok(Bytes::from_vec(text));
                }
            }
            Err(fault) => return Err(fault),
        }
    }
    Err(CallFault::NoMemory)
}

/// The question for the bytes of a blob, from the first to the last.
fn read_question(alloc: Global, instance: &Text, digest: &Digest) -> Result<ReadRequest, NoMemory>
    ensures { IfOk result (λ question. question ≡ blob_question instance.now digest.now) }
{
    Ok(ReadRequest {
        resource_name: read_name(alloc, instance, digest)?,
        read_offset: 0,
        read_limit: 0,
    })
}

/// Reads the bytes of a blob.
pub fn read_blob<D: Dial + Drop>(
    alloc: Global,
    channel: &mut Channel<D>,
    instance: &Text,
    digest: &Digest,
) -> Result<Bytes, CallFault>
    ensures { HearsItems D.faults D.rule D.L.Link (asks_blob instance.now digest.now) channel.old
        channel.new (λ begun items.
        Gives starved (λ x. x) result (joined_of begun items)) }
{
    let Ok(question) = read_question(alloc, instance, digest) else {
        return Err(CallFault::NoMemory);
    };
    match begin(alloc, channel, Method::ReadStream, &question) {
        Ok(()) => join(alloc, channel, digest.size.min(MOST_ROOM) as usize),
        Err(fault) => Err(failed(fault)),
    }
}
