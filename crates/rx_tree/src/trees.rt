//! From a list of paths to the digest of its tree's root and to all its Directories.

ghost use Rattle.std.specs.Prelude.{◌≡◌, IfErr, IfOk, map};
ghost use Rattle.rx_base.specs.Digests.{digest_of};
ghost use Rattle.rx_base.specs.SortedPaths.{HasSameMembers};
ghost use Rattle.rx_tree.specs.Blobs.{HasNoRepeats, blob_of};
ghost use Rattle.rx_tree.specs.Entries.{entries_of};
ghost use Rattle.rx_tree.specs.Listings.{IsGivenBack, IsToldByBytes};
ghost use Rattle.rx_tree.specs.Refusals.{CanBeBuilt, Judges};
ghost use Rattle.rx_tree.specs.Trees.{all_bytes, tree, tree_bytes};
ghost use Rattle.rx_tree.specs.WorldTrees.{IsRootOfCopies};
ghost use Rattle.rx_tree.specs.declared.tree_fault.TreeFault.TheVariants as fault;

use crate::blobs::{Blob, once_each};
use crate::directories::add_directories;
use crate::refusals::take_entries;
use crate::tree_fault::TreeFault;
use rx_base::{Digest, Items, RelPath};
use rx_world::InputFile;
use std::alloc::Global;

/// A tree: the digest of its root's Directory, and each distinct Directory once, in no stated order.
#[derive(Debug, Drop)]
pub struct Built {
    pub root: Digest,
    pub blobs: Items<Blob>,
}

/// The tree of these files and directories, with every directory above one of them. An entry of
/// `dirs` may stand there twice; the root there adds nothing. A file whose path is the root is in no
/// Directory. A tree of the world with these files and directories has the same root, whatever
/// bytes of these digests its files have.
pub fn build(alloc: Global, files: &[InputFile], dirs: &[RelPath]) -> Result<Built, TreeFault>
    ensures judged { Judges files.now dirs.now result }
    ensures fit { CanBeBuilt files.now dirs.now → IfErr result (λ error. error ≡ fault.NoMemory) }
    ensures root { IfOk result (λ built.
        built.root ≡ digest_of (tree_bytes (tree (entries_of files.now dirs.now)))) }
    ensures world { IfOk result (λ built. IsRootOfCopies files.now dirs.now built.root) }
    ensures blobs { IfOk result (λ built. HasSameMembers
        (map blob_of (all_bytes (tree (entries_of files.now dirs.now)))) built.blobs) }
    ensures once { IfOk result (λ built. HasNoRepeats built.blobs) }
    ensures told { IfOk result (λ _. IsToldByBytes (entries_of files.now dirs.now)) }
    ensures back { IfOk result (λ built.
        IsGivenBack (entries_of files.now dirs.now) built.root built.blobs) }
{
    let entries = take_entries(alloc, files, dirs)?;
    let mut blobs = Vec::new(alloc);
    let root = add_directories(alloc, &entries, 0, &mut blobs)?;
    let blobs = once_each(blobs)?;
    Ok(Built { root, blobs })
}
