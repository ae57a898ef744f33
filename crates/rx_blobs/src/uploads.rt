//! Uploads: the farm is asked which blobs it lacks, and these are sent to it.

ghost use Rattle.std.specs.Prelude.{◌≡◌, ◌≤◌, [], IfErr, IfOk, length, true};
ghost use Rattle.rx_exec_messages.specs.Exchanged.{HasExchanged};
ghost use Rattle.rx_exec_messages.specs.Calls.{IsPartOf};
ghost use Rattle.rx_blobs.specs.Uploads.{AreMade, HasRead, IsReadEnd, IsSplit, IsUpload, IsUploadCause, digests_of_blobs};

use crate::BlobFault;
use crate::blob_fault::of_ask;
use crate::blobs::Blob;
use crate::presence::{Presence, Split};
use crate::sending::{Keeper, Way, send_missing};
use rx_base::{Digest, Items};
use rx_exec_messages::Caller;
use rx_world::{Sources, World};
use std::alloc::{AllocError, Global};
use std::sync::Wait;

/// The most digests that a farm is asked for in one call.
pub const MOST_ASKED: usize = 20_000;

/// What an upload sends, and how.
#[derive(Debug, Drop)]
pub struct ToUpload<'a> {
    /// The blobs. A batch, or one streamed blob, is the most that is in memory of the files.
    pub blobs: &'a [Blob],
    /// The limit of a batch, as for [`crate::fetch`].
    pub most: u64,
    /// Each blob is asked for, also one that the farm is known to have.
    pub fresh: bool,
}

/// Asks which of the blobs the farm lacks and sends these, in their order. It answers the digests that
/// it left out, since the farm is known to have them. A blob larger than a batch goes as a stream. A
/// farm that answers UNIMPLEMENTED to a batch, or leaves out the digests in its answer, is sent streams
/// from then on. What the farm is found to have, or takes, is kept in `presence`.
pub fn upload<W: World, C: Caller<W>, S: Sources<W>, R: Wait>(
    rt: &R,
    alloc: Global,
    caller: &mut C,
    sources: &mut S,
    presence: &Presence,
    what: &ToUpload<'_>,
) -> Result<Items<Digest>, BlobFault>
    requires named { AreMade what.now.blobs.now }
    ensures part { IfOk result (λ left. IsPartOf left (digests_of_blobs what.now.blobs.now)) }
    ensures fresh { IfOk result (λ left. what.now.fresh ≡ true → left ≡ []) }
    ensures exchanged { HasExchanged C.Caller caller.old caller.new
        (IsUpload (digests_of_blobs what.now.blobs.now) result) }
    ensures cause { IfErr result (IsUploadCause (C.faults caller.old) (C.faults caller.new)
        (digests_of_blobs what.now.blobs.now)) }
    ensures read { HasRead W.World S.Sources sources.old sources.new what.now.blobs.now
        (IsReadEnd what.now.blobs.now (S.faults sources.old) (S.faults sources.new) result) }
{
    let keeper = Keeper {
        rt,
        alloc,
        presence,
    };
    let mut way = Way {
        most: what.most,
        by_stream: false,
    };
    let mut left_out = Vec::new(alloc);
    let mut rest = what.blobs;
    while !rest.is_empty() {
        let (group, others) = rest.split_at(rest.len().min(MOST_ASKED));
        match upload_group::<W, C, S, R>(&keeper, caller, sources, group, what.fresh, &mut way) {
            Ok(known) => {
                let mut known = known.into_vec();
                let Ok(()) = left_out.append(&mut known) else {
                    return Err(BlobFault::NoMemory);
                };
            }
            Err(fault) => return Err(fault),
        }
        rest = others;
    }
    Ok(Items::from_vec(left_out))
}

/// The upload of at most as many blobs as are asked for in one call.
fn upload_group<W: World, C: Caller<W>, S: Sources<W>, R: Wait>(
    keeper: &Keeper<'_, R>,
    caller: &mut C,
    sources: &mut S,
    blobs: &[Blob],
    fresh: bool,
    way: &mut Way,
) -> Result<Items<Digest>, BlobFault>
    requires made { AreMade blobs.now }
    requires few { length blobs.now ≤ 20000 }
    ensures part { IfOk result (λ left. IsPartOf left (digests_of_blobs blobs.now)) }
    ensures fresh { IfOk result (λ left. fresh ≡ true → left ≡ []) }
    ensures exchanged { HasExchanged C.Caller caller.old caller.new
        (IsUpload (digests_of_blobs blobs.now) result) }
    ensures cause { IfErr result (IsUploadCause (C.faults caller.old) (C.faults caller.new)
        (digests_of_blobs blobs.now)) }
    ensures read { HasRead W.World S.Sources sources.old sources.new blobs.now
        (IsReadEnd blobs.now (S.faults sources.old) (S.faults sources.new) result) }
{
    let Ok(parts) = split::<R>(keeper, blobs, fresh) else {
        return Err(BlobFault::NoMemory);
    };
    let asked = parts.asked.as_slice();
    if asked.is_empty() {
        return Ok(parts.known);
    }
    match caller.find_missing(asked) {
        Ok(missing) => {
            let lacks = missing.as_slice();
            keeper.presence.keep(keeper.rt, keeper.alloc, asked, lacks);
            match send_missing::<W, C, S, R>(keeper, caller, sources, blobs, lacks, way) {
                Ok(()) => Ok(parts.known),
                Err(fault) => Err(fault),
            }
        }
        Err(fault) => Err(of_ask(fault)),
    }
}

/// Which of these blobs the farm is known to have: of fresh ones none.
fn split<R: Wait>(keeper: &Keeper<'_, R>, blobs: &[Blob], fresh: bool) -> Result<Split, AllocError>
    ensures split { IfOk result (λ split.
        IsSplit (digests_of_blobs blobs.now) split.known split.asked) }
    ensures fresh { IfOk result (λ split. fresh ≡ true → split.known ≡ []) }
{
    if fresh {
        let asked = digests_in(keeper.alloc, blobs)?;
        return Ok(Split {
            known: Items::new(keeper.alloc),
            asked,
        });
    }
    keeper.presence.split(keeper.rt, keeper.alloc, blobs)
}

/// The digests of these blobs.
fn digests_in(alloc: Global, blobs: &[Blob]) -> Result<Items<Digest>, AllocError>
    ensures { IfOk result (λ digests. digests ≡ digests_of_blobs blobs.now) }
{
    let mut digests = Items::new(alloc);
    for blob in blobs {
        let Ok(()) = digests.push(blob.digest()) else {
            return Err(AllocError);
        };
    }
    Ok(digests)
}
