//! Blobs that a farm lacks are sent to it: batch by batch, or blob by blob where the farm knows no
//! batches and where one is larger than a batch.

ghost use Rattle.std.specs.Prelude.{◌≡◌, [], ◌∷◌, IfErr, IfOk, OnOk};
ghost use Rattle.std.specs.List.{AllByRecursion};
ghost use Rattle.rx_base.specs.Digests.{digest_of};
ghost use Rattle.rx_exec_messages.specs.Calls.{digests_of};
ghost use Rattle.rx_exec_messages.specs.Exchanged.{HasExchanged};
ghost use Rattle.rx_blobs.specs.Uploads.{AreMade, HasRead, IsOwn, IsReadEnd, IsCallFault, IsSending, IsUploadCause, digests_of_blobs};

use crate::BlobFault;
use crate::batches::batch_len;
use crate::blob_fault::{is_without_updates, of_update, of_write};
use crate::blobs::{Blob, collect};
use crate::presence::Presence;
use rx_base::Digest;
use rx_exec_messages::{Caller, NamedBlob};
use rx_world::{Sources, World};
use std::alloc::Global;
use std::sync::Wait;

/// How the blobs of an upload go to the farm, which one batch may change for those that follow.
#[derive(Clone, Copy, Debug, PartialEq, Eq)]
pub(crate) struct Way {
    /// The most bytes of a batch; a larger blob goes as a stream.
    pub(crate) most: u64,
    /// Each blob goes as a stream.
    pub(crate) by_stream: bool,
}

/// Where it is kept what a farm has, and what is needed for that.
#[derive(Drop)]
pub(crate) struct Keeper<'a, R: Wait> {
    pub(crate) rt: &'a R,
    pub(crate) alloc: Global,
    pub(crate) presence: &'a Presence,
}

/// Sends those of the blobs that are missing, which stand among them in this order.
pub(crate) fn send_missing<W: World, C: Caller<W>, S: Sources<W>, R: Wait>(
    keeper: &Keeper<'_, R>,
    caller: &mut C,
    sources: &mut S,
    blobs: &[Blob],
    missing: &[Digest],
    way: &mut Way,
) -> Result<(), BlobFault>
    requires { AreMade blobs.now }
    ensures exchanged { HasExchanged C.Caller caller.old caller.new
        (IsSending missing.now missing.now result) }
    ensures cause { IfErr result (IsUploadCause (C.faults caller.old) (C.faults caller.new)
        (digests_of_blobs blobs.now)) }
    ensures read { HasRead W.World S.Sources sources.old sources.new blobs.now
        (IsReadEnd blobs.now (S.faults sources.old) (S.faults sources.new) result) }
{
    let mut left = blobs;
    let mut rest = missing;
    while let Some((first, _)) = rest.split_first() {
        let streams = way.by_stream || first.size > way.most;
        let count = if streams {
            1
        } else {
            batch_len(rest, way.most)
        };
        let (part, later) = rest.split_at(count);
        match collect::<W, S>(keeper.alloc, sources, left, part) {
            Ok(some) => {
                if let Err(fault) = send::<W, C>(caller, some.named.as_slice(), streams, way) {
                    return Err(fault);
                }
                left = some.others;
            }
            Err(fault) => return Err(fault),
        }
        keeper.presence.keep(keeper.rt, keeper.alloc, part, &[]);
        rest = later;
    }
    Ok(())
}

/// Sends blobs as streams or in one batch. Where the farm knows no batches, or leaves the digests out
/// of its answer, they and all later ones go as streams.
fn send<W: World, C: Caller<W>>(
    caller: &mut C,
    blobs: &[NamedBlob],
    streams: bool,
    way: &mut Way,
) -> Result<(), BlobFault>
    requires { AllByRecursion IsOwn blobs.now }
    ensures exchanged { HasExchanged C.Caller caller.old caller.new
        (IsSending (digests_of blobs.now) (digests_of blobs.now) result) }
    ensures cause { IfErr result (IsUploadCause (C.faults caller.old) (C.faults caller.new)
        (digests_of blobs.now)) }
    ensures call { IfErr result IsCallFault }
{
    if streams {
        return send_each::<W, C>(caller, blobs);
    }
    send_batch::<W, C>(caller, blobs, way)
}

/// Sends blobs in one batch, or as streams where the farm takes no batches.
fn send_batch<W: World, C: Caller<W>>(
    caller: &mut C,
    blobs: &[NamedBlob],
    way: &mut Way,
) -> Result<(), BlobFault>
    requires { AllByRecursion IsOwn blobs.now }
    ensures exchanged { HasExchanged C.Caller caller.old caller.new
        (IsSending (digests_of blobs.now) (digests_of blobs.now) result) }
    ensures cause { IfErr result (IsUploadCause (C.faults caller.old) (C.faults caller.new)
        (digests_of blobs.now)) }
    ensures call { IfErr result IsCallFault }
{
    match caller.update(blobs) {
        Ok(()) => Ok(()),
        Err(fault) => {
            if is_without_updates(fault) {
                way.by_stream = true;
                return send_each::<W, C>(caller, blobs);
            }
            Err(of_update(fault))
        }
    }
}

/// Sends each of the blobs as a stream.
fn send_each<W: World, C: Caller<W>>(caller: &mut C, blobs: &[NamedBlob]) -> Result<(), BlobFault>
    requires { AllByRecursion IsOwn blobs.now }
    ensures exchanged { HasExchanged C.Caller caller.old caller.new
        (IsSending (digests_of blobs.now) (digests_of blobs.now) result) }
    ensures cause { IfErr result (IsUploadCause (C.faults caller.old) (C.faults caller.new)
        (digests_of blobs.now)) }
    ensures call { IfErr result IsCallFault }
{
    let mut left = blobs;
    while let Some((blob, others)) = left.split_first() {
        if let Err(fault) = caller.write_stream(&blob.digest, blob.bytes.as_slice()) {
            return Err(of_write(blob.digest, fault));
        }
        left = others;
    }
    Ok(())
}
