//! Calls of one message on a farm, each with its question and its answer.

ghost use Rattle.std.specs.Prelude.{◌≡◌, IfErr, IfOk, length, map};
ghost use Rattle.std.specs.Option.{option_map};
ghost use Rattle.rx_base.specs.Results.{Gives};
ghost use Rattle.rx_codec.specs.Decoding.{decoded};
ghost use Rattle.rx_codec.specs.FieldBytes.{fields_bytes};
ghost use Rattle.rx_world.specs.declared.call_faults.CallFault.TheVariants.{NoMemory as starved};
ghost use Rattle.rx_exec_messages.specs.Calls.{digests_of};
ghost use Rattle.rx_exec_messages.specs.Versions.{sem_ver_of};
ghost use Rattle.rx_grpc.specs.Caller.{Hears};
ghost use Rattle.rx_grpc.specs.Questions.{asks_capabilities, asks_missing, asks_read, asks_result, asks_update, missing_question, one, read_question, update_of, update_question};
ghost use Rattle.rx_grpc.specs.Replies.{reply};
ghost use Rattle.rx_grpc.specs.Results.{capabilities_by, capabilities_of, found_by, found_of, limit_by, limit_of, missing_by, read_by, updated_by};

use crate::batches::{missing_of, texts_of};
use crate::blob_items::items_of;
use crate::channel::Channel;
use crate::method::Method;
use crate::replies::reply;
use rx_base::{Bytes, Digest, Items, NoMemory, Text, TryClone};
use rx_codec::Message;
use rx_exec_messages::{
    CacheCapabilities, Capabilities, GetActionResultRequest, GetCapabilitiesRequest, NamedBlob,
    ServerCapabilities, Version,
};
use rx_messages::{
    ActionResult, BatchReadBlobsRequest, BatchReadBlobsResponse, BatchUpdateBlobsRequest,
    BatchUpdateBlobsResponse, BlobUpdate, FindMissingBlobsRequest, FindMissingBlobsResponse,
};
use rx_world::{CallFault, Dial, SemVer};
use std::alloc::Global;

/// The status NOT_FOUND (`google/rpc/code.proto`).
const NOT_FOUND: u32 = 5;

/// Makes a call of one message. A question of more than 4,294,967,295 bytes isn't sent, and is want of memory.
fn ask<D: Dial + Drop, Q: Message, A: Message>(
    alloc: Global,
    channel: &mut Channel<D>,
    method: Method,
    question: &Q,
) -> Result<A, CallFault>
    ensures { Hears D.faults D.rule D.L.Link (one method (fields_bytes (Q.fields question.now)))
        channel.old channel.new (λ heard.
        Gives starved (λ x. x) result (reply (decoded A.parts A.from A.is_canonical) heard)) }
{
    let Ok(message) = question.encode(alloc) else {
        return Err(CallFault::NoMemory);
    };
    if message.len() > u32::MAX as usize {
        return Err(CallFault::NoMemory);
    }
    reply(alloc, channel.unary(method.path(), &message))
}

/// The limit of a batch, and 0 where the farm tells none.
fn limit_of(cache: &Option<CacheCapabilities>) -> u64
    ensures { result ≡ limit_of cache.now }
{
    match cache {
        None => 0,
        Some(cache) => limit_by(cache.max_batch_total_size_bytes),
    }
}

/// A limit that may be negative.
fn limit_by(limit: i64) -> u64
    ensures { result ≡ limit_by limit }
{
    if limit < 0 {
        return 0;
    }
    limit as u64
}

/// A version that may not be told.
fn version_of(version: &Option<Version>) -> Option<SemVer>
    ensures { result ≡ option_map sem_ver_of version.now }
{
    match version {
        None => None,
        Some(version) => Some(SemVer {
            major: version.major,
            minor: version.minor,
            patch: version.patch,
        }),
    }
}

/// What a farm says of itself.
fn capabilities_of(told: &ServerCapabilities) -> Capabilities
    ensures { result ≡ capabilities_of told.now }
{
    Capabilities {
        most: limit_of(&told.cache_capabilities),
        low: version_of(&told.low_api_version),
        high: version_of(&told.high_api_version),
    }
}

/// Asks what the farm can do.
pub fn ask_capabilities<D: Dial + Drop>(
    alloc: Global,
    channel: &mut Channel<D>,
    instance: &Text,
) -> Result<Capabilities, CallFault>
    ensures { Hears D.faults D.rule D.L.Link (asks_capabilities instance.now)
        channel.old channel.new (λ heard.
        Gives starved (λ x. x) result (capabilities_by heard)) }
{
    let Ok(instance_name) = instance.try_clone(alloc) else {
        return Err(CallFault::NoMemory);
    };
    let question = GetCapabilitiesRequest { instance_name };
    let told: ServerCapabilities = ask(alloc, channel, Method::GetCapabilities, &question)?;
    Ok(capabilities_of(&told))
}

/// A result that may be absent, which is no fault.
fn found_of(answer: Result<ActionResult, CallFault>) -> Result<Option<ActionResult>, CallFault>
    ensures { result ≡ found_of answer }
{
    match answer {
        Ok(found) => Ok(Some(found)),
        Err(CallFault::Status(code)) => {
            if code == NOT_FOUND {
                return Ok(None);
            }
            Err(CallFault::Status(code))
        }
        Err(fault) => Err(fault),
    }
}

/// Asks for the kept result of an action.
pub fn ask_result<D: Dial + Drop>(
    alloc: Global,
    channel: &mut Channel<D>,
    instance: &Text,
    action: &Digest,
) -> Result<Option<ActionResult>, CallFault>
    ensures { Hears D.faults D.rule D.L.Link (asks_result instance.now action.now)
        channel.old channel.new (λ heard.
        Gives starved (λ x. x) result (found_by heard)) }
{
    let Ok(instance_name) = instance.try_clone(alloc) else {
        return Err(CallFault::NoMemory);
    };
    let question = GetActionResultRequest {
        instance_name,
        action_digest: Some(*action),
        inline_stdout: true,
        inline_stderr: true,
        inline_output_files: Items::new(alloc),
    };
    found_of(ask(alloc, channel, Method::GetActionResult, &question))
}

/// The question which of these the farm lacks.
fn missing_question(
    alloc: Global,
    instance: &Text,
    digests: &[Digest],
) -> Result<FindMissingBlobsRequest, NoMemory>
    ensures { IfOk result (λ question. question ≡ missing_question instance.now digests.now) }
{
    Ok(FindMissingBlobsRequest {
        instance_name: instance.try_clone(alloc)?,
        blob_digests: Items::copy_of(alloc, digests)?,
    })
}

/// Asks which of these blobs the farm lacks.
pub fn ask_missing<D: Dial + Drop>(
    alloc: Global,
    channel: &mut Channel<D>,
    instance: &Text,
    digests: &[Digest],
) -> Result<Items<Digest>, CallFault>
    ensures { Hears D.faults D.rule D.L.Link (asks_missing instance.now digests.now)
        channel.old channel.new (λ heard.
        Gives starved (λ x. x) result (missing_by digests.now heard)) }
{
    let Ok(question) = missing_question(alloc, instance, digests) else {
        return Err(CallFault::NoMemory);
    };
    let told: FindMissingBlobsResponse = ask(alloc, channel, Method::FindMissingBlobs, &question)?;
    missing_of(alloc, digests, told.missing_blob_digests.as_slice())
}

/// The digests of these blobs.
fn digests_of(alloc: Global, blobs: &[NamedBlob]) -> Result<Vec<Digest>, NoMemory>
    ensures { IfOk result (λ digests. digests.items ≡ digests_of blobs.now) }
{
    let mut digests = Vec::with_capacity(alloc, blobs.len())?;
    for blob in blobs {
        digests.push(blob.digest)?;
    }
    Ok(digests)
}

/// The blobs of a batch, as they are sent.
fn updates_of(alloc: Global, blobs: &[NamedBlob]) -> Result<Items<BlobUpdate>, NoMemory>
    ensures { IfOk result (λ updates. updates ≡ map update_of blobs.now) }
{
    let mut updates = Vec::with_capacity(alloc, blobs.len())?;
    for blob in blobs {
        let body = blob.bytes.try_clone(alloc)?;
        updates.push(BlobUpdate {
            digest: Some(blob.digest),
            body,
        })?;
    }
    Ok(Items::from_vec(updates))
}

/// The question to store these blobs.
fn update_question(
    alloc: Global,
    instance: &Text,
    blobs: &[NamedBlob],
) -> Result<BatchUpdateBlobsRequest, NoMemory>
    ensures { IfOk result (λ question. question ≡ update_question instance.now blobs.now) }
{
    Ok(BatchUpdateBlobsRequest {
        instance_name: instance.try_clone(alloc)?,
        requests: updates_of(alloc, blobs)?,
    })
}

/// Asks to store these blobs.
pub fn ask_update<D: Dial + Drop>(
    alloc: Global,
    channel: &mut Channel<D>,
    instance: &Text,
    blobs: &[NamedBlob],
) -> Result<(), CallFault>
    ensures { Hears D.faults D.rule D.L.Link (asks_update instance.now blobs.now)
        channel.old channel.new (λ heard.
        Gives starved (λ x. x) result (updated_by (digests_of blobs.now) heard)) }
{
    let Ok(digests) = digests_of(alloc, blobs) else {
        return Err(CallFault::NoMemory);
    };
    let Ok(question) = update_question(alloc, instance, blobs) else {
        return Err(CallFault::NoMemory);
    };
    let told: BatchUpdateBlobsResponse = ask(alloc, channel, Method::BatchUpdateBlobs, &question)?;
    let items = items_of(alloc, told.responses)?;
    texts_of(alloc, &digests, items)?;
    Ok(())
}

/// The question for these blobs.
fn read_question(
    alloc: Global,
    instance: &Text,
    digests: &[Digest],
) -> Result<BatchReadBlobsRequest, NoMemory>
    ensures { IfOk result (λ question. question ≡ read_question instance.now digests.now) }
{
    Ok(BatchReadBlobsRequest {
        instance_name: instance.try_clone(alloc)?,
        digests: Items::copy_of(alloc, digests)?,
    })
}

/// Asks for the bytes of these blobs.
pub fn ask_read<D: Dial + Drop>(
    alloc: Global,
    channel: &mut Channel<D>,
    instance: &Text,
    digests: &[Digest],
) -> Result<Items<Bytes>, CallFault>
    ensures { Hears D.faults D.rule D.L.Link (asks_read instance.now digests.now)
        channel.old channel.new (λ heard.
        Gives starved (λ x. x) result (read_by digests.now heard)) }
{
    let Ok(question) = read_question(alloc, instance, digests) else {
        return Err(CallFault::NoMemory);
    };
    let told: BatchReadBlobsResponse = ask(alloc, channel, Method::BatchReadBlobs, &question)?;
    let items = items_of(alloc, told.responses)?;
    texts_of(alloc, digests, items)
}
