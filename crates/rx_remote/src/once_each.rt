//! Blobs of an action, the first of each digest: equal files are asked for and sent once.

ghost use Rattle.std.specs.Prelude.{◌++◌, ◌∷◌, [], IfOk, List, OnOk};
ghost use Rattle.rx_blobs.specs.declared.blobs.Blob.{Blob};
ghost use Rattle.rx_remote.specs.Actions.{AreCollected, AreOnceEach};

use rx_base::{Digest, NoMemory};
use rx_blobs::Blob;
use std::alloc::Global;
use std::collections::BTreeSet;

/// The first blob of each digest that was seen, in their order.
#[derive(Drop)]
struct FirstBlobs {
    seen: BTreeSet<Digest>,
    blobs: Vec<Blob>,
}

impl FirstBlobs {
    /// Adds a blob, unless one of its digest is there.
    fn add(&mut self, blob: Blob) -> Result<(), NoMemory>
        ensures { OnOk result ((all : List Blob) →
            AreCollected all self.old.blobs.items self.old.seen.keys →
            AreCollected (all ++ blob ∷ []) self.new.blobs.items self.new.seen.keys) }
    {
        if self.seen.insert(blob.digest())? {
            self.blobs.push(blob)?;
        }
        Ok(())
    }
}

/// The first blob of each digest, in their order.
pub(crate) fn once_each(alloc: Global, blobs: Vec<Blob>) -> Result<Vec<Blob>, NoMemory>
    ensures { IfOk result (λ once. AreOnceEach blobs.items once.items) }
{
    let mut first = FirstBlobs {
        seen: BTreeSet::new(alloc),
        blobs: Vec::new(alloc),
    };
    for blob in blobs {
        first.add(blob)?;
    }
    Ok(first.blobs)
}
