//! The blobs that a line of a script answers.

ghost use Rattle.std.specs.Prelude.{◌≡◌, ◌≢◌, ◌∷◌, [], IfOk, false, length, true};
ghost use Rattle.rx_world.specs.declared.call_faults.CallFault.TheVariants.{NoMemory as no_memory};
ghost use Rattle.rx_exec_messages.specs.Calls.{IsPartOf, RefusesOneOf, digests_of};
ghost use Rattle.rx_exec_messages.specs.Scripts.{texts_of};

use crate::NamedBlob;
use rx_base::{Bytes, Digest, Items, NoMemory};
use rx_world::CallFault;
use std::alloc::Global;
use std::collections::BTreeSet;

/// Those of these digests that the farm lacks, in their order.
pub(crate) fn missing_of(
    alloc: Global,
    digests: &[Digest],
    lacks: &BTreeSet<Digest>,
) -> Result<Items<Digest>, NoMemory>
    ensures { IfOk result (λ missing. IsPartOf missing digests.now) }
{
    let mut missing = Items::new(alloc);
    for digest in digests {
        if lacks.contains(digest) {
            missing.push(*digest)?;
        }
    }
    Ok(missing)
}

/// Whether the blobs go by just these digests, in this order.
pub(crate) fn all_go_by(blobs: &[NamedBlob], digests: &[Digest]) -> bool
    ensures { result ≡ true → digests_of blobs.now ≡ digests.now }
{
    if blobs.len() != digests.len() {
        return false;
    }
    for at in 0..digests.len() {
        if !goes_by(&blobs[at], digests[at]) {
            return false;
        }
    }
    true
}

/// Whether the blob goes by this digest.
fn goes_by(blob: &NamedBlob, digest: Digest) -> bool
    ensures { result ≡ true → blob.now.digest ≡ digest }
{
    blob.digest == digest
}

/// The bytes of these blobs, which aren't copied.
pub(crate) fn texts_of(alloc: Global, blobs: Items<NamedBlob>) -> Result<Items<Bytes>, NoMemory>
    ensures { IfOk result (λ texts. texts ≡ texts_of blobs) }
{
    let mut texts = Items::new(alloc);
    for blob in blobs.into_vec() {
        texts.push(blob.bytes)?;
    }
    Ok(texts)
}

/// The digests of these blobs.
pub(crate) fn digests_of(alloc: Global, blobs: &[NamedBlob]) -> Result<Items<Digest>, NoMemory>
    ensures { IfOk result (λ digests. digests ≡ digests_of blobs.now) }
{
    let mut digests = Items::new(alloc);
    for blob in blobs {
        digests.push(blob.digest)?;
    }
    Ok(digests)
}

/// Whether a call on these blobs may be answered this fault: a blob that is refused is one of them.
pub(crate) fn may_answer(fault: CallFault, digests: &[Digest]) -> bool
    ensures may { result ≡ true → RefusesOneOf digests.now fault }
    ensures memory { result ≡ false → fault ≢ no_memory }
{
    match fault {
        CallFault::BlobRefused(digest, _) => digests.contains(&digest),
        CallFault::Status(_)
        | CallFault::Link
        | CallFault::Protocol(_)
        | CallFault::Compressed
        | CallFault::TooLarge
        | CallFault::NoStatus
        | CallFault::BadMessage(_)
        | CallFault::Cut
        | CallFault::NoMemory => true,
    }
}

/// The one text of a list.
pub(crate) fn only_text(texts: Items<Bytes>) -> Bytes
    requires { length texts ≡ 1 }
    ensures { texts ≡ result ∷ [] }
{
    let mut texts = texts.into_vec();
    texts.swap_remove(0)
}
