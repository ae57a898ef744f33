//! Blobs that are looked up by their digests.

ghost use Rattle.std.specs.Prelude.{◌≡◌, IfOk};
ghost use Rattle.rx_tree.specs.Blobs.{blob_at};
ghost use Rattle.rx_tree.specs.Shelves.{IsFirstOf, IsOrdered, IsShelf, blobs_of};
ghost use Rattle.rx_tree.specs.Search.{place};

use crate::blobs::Blob;
use rx_base::{Digest, NoMemory};
use std::alloc::Global;
use std::marker::Model;

/// Some blobs in order. It is seen as the blobs as they were given.
#[derive(Drop)]
pub(crate) struct Shelf<'a> {
    blobs: &'a [Blob],
    sorted: Vec<&'a Blob>,
}

impl<'a> Model for Shelf<'a> {
    ghost use Rattle.std.specs.Prelude.{List};
    ghost use Rattle.rx_tree.specs.declared.blobs.Blob.{Blob};
    ghost use Rattle.rx_tree.specs.Shelves.{IsShelf};

    ghost Value = { List Blob };

    ghost view = { λ s. s.blobs.now };

    ghost invariant = { λ s. IsShelf s.blobs.now s.sorted.items };
}

impl<'a> Shelf<'a> {
    /// These blobs, which aren't copied.
    pub(crate) fn new(alloc: Global, blobs: &'a [Blob]) -> Result<Shelf<'a>, NoMemory>
        ensures { IfOk result (λ shelf. shelf ≡ blobs.now) }
    {
        let sorted = sort_blobs(alloc, blobs)?;
        Ok(Shelf { blobs, sorted })
    }

    /// The bytes of the blob with a digest; the least, where several have it.
    pub(crate) fn get(&self, digest: &Digest) -> Option<&'a [u8]>
        ensures { place result ≡ blob_at digest.now self.now }
    {
        let at = first_at(&self.sorted, digest);
        if at >= self.sorted.len() {
            return None;
        }
        let blob = self.sorted[at];
        if blob.digest.cmp(digest).is_eq() {
            Some(blob.bytes.as_slice())
        } else {
            None
        }
    }
}

/// References to the blobs, in order.
fn sort_blobs(alloc: Global, blobs: &[Blob]) -> Result<Vec<&Blob>, NoMemory>
    ensures { IfOk result (λ sorted. IsShelf blobs.now sorted.items) }
{
    let mut sorted = refer_to(alloc, blobs)?;
    sorted.sort()?;
    Ok(sorted)
}

/// References to the blobs.
fn refer_to(alloc: Global, blobs: &[Blob]) -> Result<Vec<&Blob>, NoMemory>
    ensures { IfOk result (λ refs. blobs_of refs.items ≡ blobs.now) }
{
    let mut refs = Vec::with_capacity(alloc, blobs.len())?;
    for blob in blobs {
        refs.push(blob)?;
    }
    Ok(refs)
}

/// How many blobs in front have lesser digests.
fn first_at(sorted: &[&Blob], digest: &Digest) -> usize
    requires { IsOrdered sorted.now }
    ensures { IsFirstOf digest.now sorted.now result }
{
    sorted.partition_point(|blob| blob.digest.cmp(digest).is_lt())
}
