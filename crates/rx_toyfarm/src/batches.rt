//! Batches of blobs (`remote_execution.proto`, service ContentAddressableStorage). Each blob has a status of its own.

use crate::farm::ToyFarm;
use crate::farm_fault::Broken;
use crate::replies::{Reply, code_of, named};
use rx_base::{Bytes, Digest, Items, Text};
use rx_messages::{
    BatchReadBlobsRequest, BatchReadBlobsResponse, BatchUpdateBlobsRequest,
    BatchUpdateBlobsResponse, BlobRead, BlobUpdated, FindMissingBlobsRequest,
    FindMissingBlobsResponse, Message, Status,
};
use rx_world::CallFault;
use std::alloc::Global;

/// FindMissingBlobs.
pub(crate) fn find_missing(alloc: Global, farm: &ToyFarm, message: &[u8]) -> Result<Reply, Broken> {
    let asked = FindMissingBlobsRequest::decode(alloc, message)?;
    let missing_blob_digests = farm.missing_of(asked.blob_digests.as_slice())?;
    Reply::message(
        alloc,
        &FindMissingBlobsResponse {
            missing_blob_digests,
        },
    )
}

/// BatchUpdateBlobs.
pub(crate) fn update(alloc: Global, farm: &mut ToyFarm, message: &[u8]) -> Result<Reply, Broken> {
    let asked = BatchUpdateBlobsRequest::decode(alloc, message)?;
    let mut responses = Items::new(alloc);
    for blob in asked.requests.as_slice() {
        let digest = named(blob.digest)?;
        let code = code_after(farm.take(&digest, blob.body.as_slice()))?;
        responses.push(BlobUpdated {
            digest: Some(digest),
            status: Some(status(alloc, code)),
        })?;
    }
    Reply::message(alloc, &BatchUpdateBlobsResponse { responses })
}

/// BatchReadBlobs.
pub(crate) fn read(alloc: Global, farm: &ToyFarm, message: &[u8]) -> Result<Reply, Broken> {
    let asked = BatchReadBlobsRequest::decode(alloc, message)?;
    let mut responses = Items::new(alloc);
    for digest in asked.digests.as_slice() {
        responses.push(read_one(alloc, farm, *digest)?)?;
    }
    Reply::message(alloc, &BatchReadBlobsResponse { responses })
}

/// The bytes of one blob, or why it isn't given.
fn read_one(alloc: Global, farm: &ToyFarm, digest: Digest) -> Result<BlobRead, Broken> {
    let (body, code) = match farm.give(&digest) {
        Ok(body) => (body, 0),
        Err(fault) => (Bytes::new(alloc), code_of(fault)?),
    };
    Ok(BlobRead {
        digest: Some(digest),
        body,
        status: Some(status(alloc, code)),
    })
}

/// The code of an answer without a value.
fn code_after(done: Result<(), CallFault>) -> Result<u32, Broken> {
    match done {
        Ok(()) => Ok(0),
        Err(fault) => code_of(fault),
    }
}

/// The message of a status.
fn status(alloc: Global, code: u32) -> Status {
    Status {
        code: i32::try_from(code).unwrap_or(i32::MAX),
        message: Text::new(alloc),
        details: Items::new(alloc),
    }
}
