//! What the farm answers to each question, without a count of it.

ghost use Rattle.std.specs.Prelude.{◌≡◌, ◌∷◌, [], IfErr, IfOk, OnOk, length, map};
ghost use Rattle.rx_base.specs.Digests.{digest_of};
ghost use Rattle.rx_exec_messages.specs.Calls.{IsPartOf, RefusesOneOf, digests_of};

use crate::farm::ToyFarm;
use rx_base::{Bytes, Digest, Items, NoMemory, digest_of};
use rx_exec_messages::NamedBlob;
use rx_messages::ActionResult;
use rx_world::CallFault;

/// INVALID_ARGUMENT (`google/rpc/code.proto`): bytes have another digest than they go by.
const INVALID: u32 = 3;

/// NOT_FOUND (`google/rpc/code.proto`): a blob isn't there.
const NOT_FOUND: u32 = 5;

impl ToyFarm {
    /// The result that the action cache has.
    pub(crate) fn cached_result(&self, action: &Digest) -> Result<Option<ActionResult>, CallFault> {
        match self.results.get(action) {
            Some(kept) if kept.is_cached => Ok(Some(kept.read(self.alloc)?)),
            _ => Ok(None),
        }
    }

    /// Those of these digests whose blobs aren't there, in their order.
    pub(crate) fn missing_of(&self, digests: &[Digest]) -> Result<Items<Digest>, NoMemory>
        ensures { IfOk result (λ missing. IsPartOf missing digests.now) }
    {
        let mut missing = Items::new(self.alloc);
        for digest in digests {
            if !self.store.has(digest) {
                missing.push(*digest)?;
            }
        }
        Ok(missing)
    }

    /// Takes a blob, if its bytes have this digest.
    pub(crate) fn take(&mut self, digest: &Digest, bytes: &[u8]) -> Result<(), CallFault>
        ensures own { OnOk result (digest_of bytes.now ≡ digest.now) }
        ensures refused { IfErr result (RefusesOneOf (digest.now ∷ [])) }
        ensures rest { self.new ≡ record self.old { store = self.new.store } }
    {
        if digest_of(bytes) != *digest {
            return Err(CallFault::BlobRefused(*digest, INVALID));
        }
        let Ok(bytes) = Vec::from_slice(self.alloc, bytes) else {
            return Err(CallFault::NoMemory);
        };
        match self.store.put(bytes) {
            Ok(_) => Ok(()),
            Err(_) => Err(CallFault::NoMemory),
        }
    }

    /// Takes each of these blobs that it can, and answers the first refusal.
    pub(crate) fn take_all(&mut self, blobs: &[NamedBlob]) -> Result<(), CallFault>
        ensures refused { IfErr result (RefusesOneOf (digests_of blobs.now)) }
        ensures rest { self.new ≡ record self.old { store = self.new.store } }
    {
        let mut answer = Ok(());
        for blob in blobs {
            let taken = self.take(&blob.digest, blob.bytes.as_slice());
            if answer.is_ok() {
                answer = taken;
            }
        }
        answer
    }

    /// The bytes of a blob.
    pub(crate) fn give(&self, digest: &Digest) -> Result<Bytes, CallFault>
        ensures own { IfOk result (λ bytes. digest_of bytes ≡ digest.now) }
        ensures refused { IfErr result (RefusesOneOf (digest.now ∷ [])) }
    {
        let Some(bytes) = self.store.get(digest) else {
            return Err(CallFault::BlobRefused(*digest, NOT_FOUND));
        };
        match Bytes::copy_of(self.alloc, bytes) {
            Ok(copy) => Ok(copy),
            Err(_) => Err(CallFault::NoMemory),
        }
    }

    /// The bytes of these blobs, or the first refusal.
    pub(crate) fn give_all(&self, digests: &[Digest]) -> Result<Items<Bytes>, CallFault>
        ensures own { IfOk result (λ texts. map digest_of texts ≡ digests.now) }
        ensures refused { IfErr result (RefusesOneOf digests.now) }
    {
        let mut texts = Items::new(self.alloc);
        for digest in digests {
            let text = self.give(digest)?;
            if texts.push(text).is_err() {
                return Err(CallFault::NoMemory);
            }
        }
        Ok(texts)
    }
}
