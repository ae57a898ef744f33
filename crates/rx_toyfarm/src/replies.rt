//! What the farm answers to the bytes of a call (`remote_execution.proto`, the services; `bytestream.proto`).

use crate::farm::ToyFarm;
use crate::farm_fault::Broken;
use crate::framing::{only_message, put_message};
use crate::methods::Method;
use crate::{batches, blob_streams, operations};
use rx_base::{Bytes, Digest};
use rx_exec_messages::{
    CacheCapabilities, GetActionResultRequest, GetCapabilitiesRequest, ServerCapabilities, Version,
};
use rx_messages::Message;
use rx_world::{CallFault, SemVer};
use std::alloc::Global;

/// NOT_FOUND (`google/rpc/code.proto`): the action cache has no result.
const NOT_FOUND: u32 = 5;

/// INTERNAL (`google/rpc/code.proto`): a fault that isn't of the call.
const INTERNAL: u32 = 13;

/// The answer to a call: its messages as they are sent, and its status.
#[derive(Drop)]
pub(crate) struct Reply {
    pub(crate) bytes: Vec<u8>,
    pub(crate) code: u32,
}

impl Reply {
    /// A status alone.
    pub(crate) fn failed(alloc: Global, code: u32) -> Reply {
        Reply {
            bytes: Vec::new(alloc),
            code,
        }
    }

    /// One message with the status 0.
    pub(crate) fn message<M: Message>(alloc: Global, message: &M) -> Result<Reply, Broken> {
        let mut reply = Reply::failed(alloc, 0);
        reply.add(alloc, message)?;
        Ok(reply)
    }

    /// One message more.
    pub(crate) fn add<M: Message>(&mut self, alloc: Global, message: &M) -> Result<(), Broken> {
        let bytes = message.encode(alloc)?;
        put_message(&bytes, &mut self.bytes)?;
        Ok(())
    }
}

/// The status of a fault.
pub(crate) fn code_of(fault: CallFault) -> Result<u32, Broken> {
    match fault {
        CallFault::NoMemory => Err(Broken::NoMemory),
        CallFault::Status(code) | CallFault::BlobRefused(_, code) => Ok(code),
        _ => Ok(INTERNAL),
    }
}

/// The digest that a call has to name.
pub(crate) fn named(digest: Option<Digest>) -> Result<Digest, Broken> {
    match digest {
        Some(digest) => Ok(digest),
        None => Err(Broken::BadCall),
    }
}

/// The answer to a call of this method, whose messages stand in the body.
pub(crate) fn reply_to(
    alloc: Global,
    farm: &mut ToyFarm,
    method: Method,
    body: &[u8],
) -> Result<Reply, Broken> {
    match method {
        Method::WriteStream => blob_streams::write(alloc, farm, body),
        _ => reply_to_one(alloc, farm, method, only_message(alloc, body)?),
    }
}

/// The answer to a call of one message.
fn reply_to_one(
    alloc: Global,
    farm: &mut ToyFarm,
    method: Method,
    message: &[u8],
) -> Result<Reply, Broken> {
    match method {
        Method::GetCapabilities => capabilities(alloc, farm, message),
        Method::GetActionResult => result_of(alloc, farm, message),
        Method::FindMissingBlobs => batches::find_missing(alloc, farm, message),
        Method::BatchUpdateBlobs => batches::update(alloc, farm, message),
        Method::BatchReadBlobs => batches::read(alloc, farm, message),
        Method::Execute => operations::execute(alloc, farm, message),
        Method::WaitExecution => operations::wait(alloc, farm, message),
        Method::ReadStream => blob_streams::read(alloc, farm, message),
        Method::WriteStream => Err(Broken::BadCall),
    }
}

/// Capabilities/GetCapabilities.
fn capabilities(alloc: Global, farm: &ToyFarm, message: &[u8]) -> Result<Reply, Broken> {
    let _asked = GetCapabilitiesRequest::decode(alloc, message)?;
    let most = i64::try_from(farm.says.most).unwrap_or(i64::MAX);
    let told = ServerCapabilities {
        cache_capabilities: Some(CacheCapabilities {
            max_batch_total_size_bytes: most,
        }),
        execution_capabilities: Bytes::new(alloc),
        low_api_version: version_of(farm.says.low),
        high_api_version: version_of(farm.says.high),
    };
    Reply::message(alloc, &told)
}

/// The message of a version.
fn version_of(version: Option<SemVer>) -> Option<Version> {
    match version {
        Some(version) => Some(Version::of(version)),
        None => None,
    }
}

/// ActionCache/GetActionResult.
fn result_of(alloc: Global, farm: &ToyFarm, message: &[u8]) -> Result<Reply, Broken> {
    let asked = GetActionResultRequest::decode(alloc, message)?;
    let action = named(asked.action_digest)?;
    match farm.cached_result(&action) {
        Ok(Some(found)) => Reply::message(alloc, &found),
        Ok(None) => Ok(Reply::failed(alloc, NOT_FOUND)),
        Err(fault) => Ok(Reply::failed(alloc, code_of(fault)?)),
    }
}
