//! The items of an answer on a batch of blobs: of each its digest, its status and the bytes that it has.

ghost use Rattle.std.specs.Prelude.{◌≡◌, Result};
ghost use Rattle.rx_base.specs.Results.{Gives};
ghost use Rattle.rx_base.specs.declared.digests.Digest.{Digest};
ghost use Rattle.rx_world.specs.declared.call_faults.CallFault.{CallFault};
ghost use Rattle.rx_world.specs.declared.call_faults.CallFault.TheVariants.{NoMemory as starved};
ghost use Rattle.rx_grpc.specs.declared.blob_items.Given.{Given};
ghost use Rattle.rx_grpc.specs.Batches.{code_by, code_of, item_for, item_read, item_updated};
ghost use Rattle.rx_grpc.specs.Each.{each};

use rx_base::{Bytes, Digest, Items};
use rx_messages::{BlobRead, BlobUpdated, Status};
use rx_world::CallFault;
use std::alloc::Global;
use std::collections::VecDeque;

/// The status UNKNOWN (`google/rpc/code.proto`).
const UNKNOWN: u32 = 2;

/// What an item tells of its blob.
#[derive(Debug, Drop)]
pub struct Given {
    /// The status (`google.rpc.Code`), and 0 where it isn't told.
    pub code: u32,
    /// The blob, where it was to be read.
    pub body: Bytes,
}

/// An item of an answer on a batch of blobs.
pub trait BlobItem: Drop {
    /// What it tells, and of which blob.
    ghost item: { Self → Result (Digest × Given) CallFault };

    /// What it tells, and of which blob. One without a digest is BadMessage(0).
    fn into_item(self, alloc: Global) -> Result<(Digest, Given), CallFault>
        ensures { result ≡ item self };
}

/// A code that may be negative.
fn code_by(code: i32) -> u32
    ensures { result ≡ code_by code }
{
    if code < 0 {
        return UNKNOWN;
    }
    code as u32
}

/// The code of a status that may be left out.
pub fn code_of(status: &Option<Status>) -> u32
    ensures { result ≡ code_of status.now }
{
    match status {
        None => 0,
        Some(status) => code_by(status.code),
    }
}

/// An item that may lack its digest.
fn item_for(digest: Option<Digest>, given: Given) -> Result<(Digest, Given), CallFault>
    ensures { result ≡ item_for digest given }
{
    match digest {
        None => Err(CallFault::BadMessage(0)),
        Some(digest) => Ok((digest, given)),
    }
}

impl BlobItem for BlobUpdated {
    ghost item = { item_updated };

    fn into_item(self, alloc: Global) -> Result<(Digest, Given), CallFault> {
        let code = code_of(&self.status);
        item_for(
            self.digest,
            Given {
                code,
                body: Bytes::new(alloc),
            },
        )
    }
}

impl BlobItem for BlobRead {
    ghost item = { item_read };

    fn into_item(self, alloc: Global) -> Result<(Digest, Given), CallFault> {
        let code = code_of(&self.status);
        item_for(
            self.digest,
            Given {
                code,
                body: self.body,
            },
        )
    }
}

/// What all items tell.
pub fn items_of<T: BlobItem>(
    alloc: Global,
    answers: Items<T>,
) -> Result<Vec<(Digest, Given)>, CallFault>
    ensures { Gives starved (λ all. all.items) result (each T.item answers) }
{
    let mut all = Vec::new(alloc);
    let mut rest = VecDeque::from_vec(answers.into_vec());
    while let Some(answer) = rest.pop_front() {
        let item = answer.into_item(alloc)?;
        let Ok(()) = all.push(item) else {
            return Err(CallFault::NoMemory);
        };
    }
    Ok(all)
}
