//! Which blobs a farm has, as far as its answers told: a set of digests behind a lock, with a limit.
//! A digest that isn't kept is asked for again, so no answer depends on what is kept.

ghost use Rattle.std.specs.Prelude.{[], ◌∷◌, ◌++◌, List, IfOk, OnOk};
ghost use Rattle.rx_base.specs.declared.digests.Digest.{Digest};
ghost use Rattle.rx_blobs.specs.Uploads.{IsSplit, digests_of_blobs};

use crate::Blob;
use rx_base::{Digest, Items};
use std::alloc::{AllocError, Global};
use std::collections::BTreeSet;
use std::sync::{Mutex, Wait};

/// The most digests that the proxy keeps of a farm's blobs.
pub const PRESENCE_LIMIT: usize = 1_000_000;

/// The digests that a farm answered as present or taken. It is shared by reference. The lock is held
/// for look-ups and for entries, and never while a farm is called or a file is read.
#[derive(Drop)]
pub struct Presence {
    kept: Mutex<KeptBlobs>,
}

#[derive(Drop)]
struct KeptBlobs {
    digests: BTreeSet<Digest>,
    limit: usize,
}

/// The digests of blobs, in their order: those that are kept, and those that have to be asked for.
#[derive(Debug, Drop)]
pub(crate) struct Split {
    pub(crate) known: Items<Digest>,
    pub(crate) asked: Items<Digest>,
}

impl Split {
    /// Adds a digest behind the known ones or behind the others.
    fn add(&mut self, digest: Digest, is_known: bool) -> Result<(), AllocError>
        ensures { OnOk result ((digests : List Digest) →
            IsSplit digests self.old.known self.old.asked →
            IsSplit (digests ++ digest ∷ []) self.new.known self.new.asked) }
    {
        if is_known {
            return match self.known.push(digest) {
                Ok(()) => Ok(()),
                Err(_) => Err(AllocError),
            };
        }
        match self.asked.push(digest) {
            Ok(()) => Ok(()),
            Err(_) => Err(AllocError),
        }
    }
}

impl Presence {
    /// An empty set, which keeps at most so many digests.
    pub fn new(alloc: Global, limit: usize) -> Presence {
        Presence {
            kept: Mutex::new(KeptBlobs {
                digests: BTreeSet::new(alloc),
                limit,
            }),
        }
    }

    /// Which of these blobs the farm is known to have.
    pub(crate) fn split(
        &self,
        rt: &impl Wait,
        alloc: Global,
        blobs: &[Blob],
    ) -> Result<Split, AllocError>
        ensures { IfOk result (λ split.
            IsSplit (digests_of_blobs blobs.now) split.known split.asked) }
    {
        split_by(alloc, &self.kept.lock(rt).digests, blobs)
    }

    /// Keeps those of the digests that the farm doesn't lack. A full set and want of memory keep nothing
    /// more.
    pub(crate) fn keep(&self, rt: &impl Wait, alloc: Global, digests: &[Digest], lacks: &[Digest]) {
        let Ok(lacks) = set_of(alloc, lacks) else {
            return;
        };
        let mut kept = self.kept.lock(rt);
        for digest in digests {
            if !lacks.contains(digest) {
                kept.keep(*digest);
            }
        }
    }
}

impl KeptBlobs {
    /// Keeps a digest, where there are fewer than the limit and there is memory.
    fn keep(&mut self, digest: Digest) {
        if self.digests.len() < self.limit {
            let _ = self.digests.insert(digest);
        }
    }
}

/// The set of these digests.
fn set_of(alloc: Global, digests: &[Digest]) -> Result<BTreeSet<Digest>, AllocError> {
    let mut set = BTreeSet::new(alloc);
    for digest in digests {
        let Ok(_) = set.insert(*digest) else {
            return Err(AllocError);
        };
    }
    Ok(set)
}

/// The digests of these blobs that are kept, and the others.
fn split_by(alloc: Global, kept: &BTreeSet<Digest>, blobs: &[Blob]) -> Result<Split, AllocError>
    ensures { IfOk result (λ split. IsSplit (digests_of_blobs blobs.now) split.known split.asked) }
{
    let mut split = Split {
        known: Items::new(alloc),
        asked: Items::new(alloc),
    };
    for blob in blobs {
        let digest = blob.digest();
        let Ok(()) = split.add(digest, kept.contains(&digest)) else {
            return Err(AllocError);
        };
    }
    Ok(split)
}
