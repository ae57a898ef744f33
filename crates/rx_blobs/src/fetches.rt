//! Blobs that are fetched from a farm: batch by batch, or blob by blob where the farm knows no batches
//! and where one is larger than a batch. Each text is hashed.

ghost use Rattle.std.specs.Prelude.{◌≡◌, ◌≢◌, ◌∷◌, [], IfErr, IfNone, IfOk, IfSome, false, length, map, true};
ghost use Rattle.rx_base.specs.Digests.{digest_of};
ghost use Rattle.rx_exec_messages.specs.Calls.{AreBlobs};
ghost use Rattle.rx_exec_messages.specs.Exchanged.{HasExchanged};
ghost use Rattle.rx_blobs.specs.Faults.{IsBadBlob, IsFetchCause};
ghost use Rattle.rx_blobs.specs.Fetches.{IsFetch, IsPart};

use crate::BlobFault;
use crate::batches::batch_len;
use crate::blob_fault::{is_without_batches, of_batch, of_stream};
use crate::hashing::{Mismatch, first_mismatch};
use rx_base::{Bytes, Digest, Items};
use rx_exec_messages::Caller;
use rx_world::World;
use std::alloc::Global;

/// The bytes of these blobs, a text for each in their order. A blob that stands there twice is asked
/// for twice. `most` is the limit of a batch; a larger blob goes as a stream. A farm that answers
/// UNIMPLEMENTED to a batch is asked for streams from then on.
pub fn fetch<W: World, C: Caller<W>>(
    alloc: Global,
    caller: &mut C,
    digests: &[Digest],
    most: u64,
) -> Result<Items<Bytes>, BlobFault>
    ensures texts { IfOk result (λ texts. map digest_of texts ≡ digests.now) }
    ensures honest { IfOk result (λ texts. C.genuine caller.old → texts ≡ map W.blob digests.now) }
    ensures good { IfErr result (λ fault. C.genuine caller.old → IsBadBlob fault → ⊥) }
    ensures cause { IfErr result (IsFetchCause (C.faults caller.old) (C.faults caller.new)
        digests.now) }
    ensures exchanged { HasExchanged C.Caller caller.old caller.new (IsFetch digests.now result) }
{
    let mut all = Vec::new(alloc);
    let mut rest = digests;
    let mut by_stream = false;
    while let Some((first, _)) = rest.split_first() {
        let streams = by_stream || first.size > most;
        let count = if streams { 1 } else { batch_len(rest, most) };
        let (part, others) = rest.split_at(count);
        match fetch_part::<W, C>(alloc, caller, part, streams) {
            Ok(Some(texts)) => {
                let mut texts = texts.into_vec();
                let Ok(()) = all.append(&mut texts) else {
                    return Err(BlobFault::NoMemory);
                };
                rest = others;
            }
            Ok(None) => by_stream = true,
            Err(fault) => return Err(fault),
        }
    }
    Ok(Items::from_vec(all))
}

/// The texts of a part of a fetch, each hashed, or none where the farm knows no batches.
fn fetch_part<W: World, C: Caller<W>>(
    alloc: Global,
    caller: &mut C,
    digests: &[Digest],
    streams: bool,
) -> Result<Option<Items<Bytes>>, BlobFault>
    requires { streams ≡ true → length digests.now ≡ 1 }
    ensures none { IfOk result (λ texts. IfNone texts (streams ≡ false)) }
    ensures texts { IfOk result (λ texts. IfSome texts (λ all.
        map digest_of all ≡ digests.now)) }
    ensures honest { IfOk result (λ texts. IfSome texts (λ all.
        C.genuine caller.old → all ≡ map W.blob digests.now)) }
    ensures good { IfErr result (λ fault. C.genuine caller.old → IsBadBlob fault → ⊥) }
    ensures cause { IfErr result (IsFetchCause (C.faults caller.old) (C.faults caller.new)
        digests.now) }
    ensures exchanged { HasExchanged C.Caller caller.old caller.new (IsPart digests.now result) }
{
    let Some(texts) = ask_for::<W, C>(alloc, caller, digests, streams)? else {
        return Ok(None);
    };
    match first_mismatch(digests, texts.as_slice()) {
        None => Ok(Some(texts)),
        Some(Mismatch { expected, got }) => Err(BlobFault::BadBlob { expected, got }),
    }
}

/// The texts of a part of a fetch as the farm gives them, or none where it knows no batches.
fn ask_for<W: World, C: Caller<W>>(
    alloc: Global,
    caller: &mut C,
    digests: &[Digest],
    streams: bool,
) -> Result<Option<Items<Bytes>>, BlobFault>
    requires { streams ≡ true → length digests.now ≡ 1 }
    ensures none { IfOk result (λ texts. IfNone texts (streams ≡ false)) }
    ensures each { IfOk result (λ texts. IfSome texts (λ all.
        length all ≡ length digests.now)) }
    ensures honest { IfOk result (λ texts. IfSome texts (λ all.
        C.genuine caller.old → AreBlobs W.blob digests.now all)) }
    ensures good { IfErr result (λ fault. IsBadBlob fault → ⊥) }
    ensures cause { IfErr result (IsFetchCause (C.faults caller.old) (C.faults caller.new)
        digests.now) }
    ensures exchanged { HasExchanged C.Caller caller.old caller.new (IsPart digests.now result) }
{
    if streams {
        let texts = ask_for_one::<W, C>(alloc, caller, &digests[0])?;
        return Ok(Some(texts));
    }
    match caller.read(digests) {
        Ok(texts) => Ok(Some(texts)),
        Err(fault) => {
            if is_without_batches(fault) {
                return Ok(None);
            }
            Err(of_batch(fault))
        }
    }
}

/// The bytes of one blob, as a stream.
fn ask_for_one<W: World, C: Caller<W>>(
    alloc: Global,
    caller: &mut C,
    digest: &Digest,
) -> Result<Items<Bytes>, BlobFault>
    ensures each { IfOk result (λ texts. length texts ≡ 1) }
    ensures honest { IfOk result (λ texts. C.genuine caller.old →
        AreBlobs W.blob (digest.now ∷ []) texts) }
    ensures good { IfErr result (λ fault. IsBadBlob fault → ⊥) }
    ensures cause { IfErr result (IsFetchCause (C.faults caller.old) (C.faults caller.new)
        (digest.now ∷ [])) }
    ensures exchanged { HasExchanged C.Caller caller.old caller.new
        (IsFetch (digest.now ∷ []) result) }
{
    let Ok(mut texts) = Vec::with_capacity(alloc, 1) else {
        return Err(BlobFault::NoMemory);
    };
    match caller.read_stream(digest) {
        Ok(text) => {
            texts.push_reserved(text);
            Ok(Items::from_vec(texts))
        }
        Err(fault) => Err(of_stream(*digest, fault)),
    }
}
