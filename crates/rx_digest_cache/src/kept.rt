//! Digests by path and stamp: a map with a limit. It takes no lock and asks nothing of a source tree.

ghost use Rattle.std.specs.Prelude.{◌≡◌, ◌↔◌, ◌≤◌, [], IfSome, IsErrOf, None, OnErr, OnOk, length};
ghost use Rattle.rx_base.specs.Digests.{digest_of};
ghost use Rattle.rx_digest_cache.specs.declared.kept.NotKept.TheVariants.{Full as full, NoMemory as no_memory};
ghost use Rattle.rx_digest_cache.specs.Kept.{IsTied, Keeps, digest_under, kept_at};

use rx_base::{Digest, RelPath, TryClone};
use rx_world::{Stamp, World};
use std::alloc::{AllocError, AllocFailed, Global};
use std::collections::BTreeMap;
use std::marker::{Model, PhantomData};
use thiserror::Error;

/// The digest of a file's bytes, and the stamp under which they were read.
#[derive(Clone, Copy, Debug, PartialEq, Eq)]
pub struct StampedDigest {
    pub stamp: Stamp,
    pub digest: Digest,
}

/// Why a digest isn't kept. All stays as it was.
#[derive(Clone, Copy, Debug, PartialEq, Eq, Error)]
pub enum NotKept {
    /// The path is new, and there are as many paths as there may be.
    #[error("as many paths as there may be")]
    Full,
    #[error("out of memory")]
    NoMemory,
}

impl From<AllocError> for NotKept {
    ghost from_gives = { λ _ e. e ≡ no_memory };

    fn from(_error: AllocError) -> NotKept {
        NotKept::NoMemory
    }
}

impl<T: Drop> From<AllocFailed<T>> for NotKept {
    ghost from_gives = { λ _ e. e ≡ no_memory };

    fn from(_error: AllocFailed<T>) -> NotKept {
        NotKept::NoMemory
    }
}

/// For each of some paths a stamp and a digest. Where the world's stamps are honest, the digest is
/// that of what the path holds under the stamp.
#[derive(Drop)]
pub struct KeptDigests<W: World> {
    entries: BTreeMap<RelPath, StampedDigest>,
    limit: usize,
    world: PhantomData<W>,
}

impl<W: World> Model for KeptDigests<W> {
    ghost use Rattle.std.specs.Prelude.{◌≤◌, length};
    ghost use Rattle.rx_digest_cache.specs.Kept.{AreTied, Held};

    ghost Value = { Held };

    ghost view = { λ k. record { entries = k.entries.entries; limit = k.limit } };

    ghost invariant = { λ k. (length k.entries.entries ≤ k.limit)
        × (W.stamps_honest → AreTied W.content k.entries.entries) };
}

impl<W: World> KeptDigests<W> {
    /// Nothing yet, and room for so many paths. It takes no memory.
    pub fn new(alloc: Global, limit: usize) -> KeptDigests<W>
        ensures { result ≡ record { entries = []; limit = limit } }
    {
        KeptDigests {
            entries: BTreeMap::new(alloc),
            limit,
            world: PhantomData,
        }
    }

    /// The digest that is kept of a path, where it was read under this stamp. It takes no memory.
    pub fn find(&self, path: &RelPath, stamp: Stamp) -> Option<Digest>
        ensures kept { result ≡ digest_under stamp (kept_at self.now.entries path.now) }
        ensures tied { IfSome result (λ digest. W.stamps_honest →
            digest ≡ digest_of (W.content path.now stamp)) }
    {
        let entry = self.entries.get(path)?;
        if entry.stamp != stamp {
            return None;
        }
        Some(entry.digest)
    }

    /// Keeps a digest of a path in place of what was kept of it.
    pub fn keep(
        &mut self,
        alloc: Global,
        path: &RelPath,
        entry: StampedDigest,
    ) -> Result<(), NotKept>
        requires { W.stamps_honest → IsTied W.content path.now entry }
        ensures kept { OnOk result (Keeps self.old.entries self.new.entries path.now entry) }
        ensures same { OnErr result
            ((self.new.entries ≡ self.old.entries) × (kept_at self.old.entries path.now ≡ None)) }
        ensures full { IsErrOf result full ↔ ((kept_at self.old.entries path.now ≡ None)
            × (length self.old.entries ≡ self.old.limit)) }
        ensures within { length self.new.entries ≤ self.new.limit }
        ensures limit { self.new.limit ≡ self.old.limit }
    {
        if let Some(kept) = self.entries.get_mut(path) {
            *kept = entry;
            return Ok(());
        }
        if self.entries.len() == self.limit {
            return Err(NotKept::Full);
        }
        let path = path.try_clone(alloc)?;
        self.entries.insert(path, entry)?;
        Ok(())
    }
}
