//! The blobs that the farm has.

ghost use Rattle.std.specs.Prelude.{◌≡◌, IfOk, IfSome};
ghost use Rattle.rx_base.specs.Digests.{digest_of};

use rx_base::{Bytes, Digest, NoMemory, digest_of};
use rx_tree::Blob;
use std::alloc::Global;
use std::collections::BTreeMap;
use std::marker::Model;

/// Blobs in the order in which they came, each under the digest of its bytes.
#[derive(Drop)]
pub(crate) struct Store {
    blobs: Vec<Blob>,
    /// Where the blob of a digest stands.
    places: BTreeMap<Digest, usize>,
}

impl Model for Store {
    ghost use Rattle.std.specs.Prelude.{List};
    ghost use Rattle.std.specs.List.{All};
    ghost use Rattle.rx_tree.specs.declared.blobs.Blob.{Blob};
    ghost use Rattle.rx_toyfarm.specs.Stores.{IsOwn};

    ghost Value = { List Blob };

    ghost view = { λ s. s.blobs.items };

    ghost invariant = { λ s. All IsOwn s.blobs.items };
}

impl Store {
    /// No blobs.
    pub(crate) fn new(alloc: Global) -> Store {
        Store {
            blobs: Vec::new(alloc),
            places: BTreeMap::new(alloc),
        }
    }

    /// All blobs.
    pub(crate) fn blobs(&self) -> &[Blob]
        ensures { result.now ≡ self.now }
    {
        &self.blobs
    }

    /// Whether the blob of a digest is there.
    pub(crate) fn has(&self, digest: &Digest) -> bool {
        self.get(digest).is_some()
    }

    /// The blob of a digest.
    pub(crate) fn get(&self, digest: &Digest) -> Option<&[u8]>
        ensures { IfSome result (λ bytes. digest_of bytes.now ≡ digest.now) }
    {
        let at = *self.places.get(digest)?;
        if at >= self.blobs.len() {
            return None;
        }
        let blob = &self.blobs[at];
        if blob.digest == *digest {
            Some(blob.bytes.as_slice())
        } else {
            None
        }
    }

    /// Keeps bytes, and answers their digest. Nothing is kept twice.
    pub(crate) fn put(&mut self, bytes: Vec<u8>) -> Result<Digest, NoMemory>
        ensures { IfOk result (λ digest. digest ≡ digest_of bytes.items) }
    {
        let digest = digest_of(&bytes);
        if self.has(&digest) {
            return Ok(digest);
        }
        self.places.insert(digest, self.blobs.len())?;
        self.blobs.push(Blob {
            digest,
            bytes: Bytes::from_vec(bytes),
        })?;
        Ok(digest)
    }
}
