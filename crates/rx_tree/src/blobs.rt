//! Directories as blobs, and a set of them.

ghost use Rattle.std.specs.Prelude.{◌≡◌, IfOk, Some, refl};
ghost use Rattle.std.specs.Cmp.{eq_by_cmp_equiv, partial_equiv_from_equiv, partial_order_from_total};
ghost use Rattle.std.specs.Ordering.{eq_by_cmp};
ghost use Rattle.rx_base.specs.SortedPaths.{HasSameMembers};
ghost use Rattle.rx_tree.specs.Blobs.{HasNoRepeats, blob_of, by_blob, by_blob_total};

use rx_base::{Bytes, Digest, Items, NoMemory, digest_of};
use std::cmp::Ordering;

/// A Directory's bytes with their digest. Blobs are ordered by hash, then size, then bytes.
#[derive(Debug, Drop)]
pub struct Blob {
    pub digest: Digest,
    pub bytes: Bytes,
}

impl Blob {
    /// The blob of some bytes, which aren't copied.
    pub(crate) fn of_bytes(bytes: Vec<u8>) -> Blob
        ensures { result ≡ blob_of bytes.items }
    {
        Blob {
            digest: digest_of(&bytes),
            bytes: Bytes::from_vec(bytes),
        }
    }
}

impl PartialEq for Blob {
    ghost eq = { eq_by_cmp by_blob };

    ghost laws = { partial_equiv_from_equiv (eq_by_cmp_equiv by_blob_total) };

    fn eq(&self, other: &Blob) -> bool {
        self.cmp(other).is_eq()
    }
}

impl Eq for Blob {
    ghost laws = { eq_by_cmp_equiv by_blob_total };
}

impl PartialOrd for Blob {
    ghost partial_cmp = { λ x y. Some (by_blob x y) };

    ghost laws = { partial_order_from_total by_blob_total };

    fn partial_cmp(&self, other: &Blob) -> Option<Ordering> {
        Some(self.cmp(other))
    }
}

impl Ord for Blob {
    ghost cmp = { by_blob };

    ghost total = { by_blob_total };

    ghost matches_partial_cmp = { λ x y. refl };

    ghost matches_eq = { λ x y. refl };

    fn cmp(&self, other: &Blob) -> Ordering {
        let bytes = self.bytes.as_slice().cmp(other.bytes.as_slice());
        self.digest.cmp(&other.digest).then(bytes)
    }
}

/// These blobs in their order, each once.
pub(crate) fn once_each(mut blobs: Vec<Blob>) -> Result<Items<Blob>, NoMemory>
    ensures members { IfOk result (λ once. HasSameMembers blobs.items once) }
    ensures once { IfOk result (λ once. HasNoRepeats once) }
{
    blobs.sort()?;
    blobs.dedup();
    Ok(Items::from_vec(blobs))
}
