//! From the Directories of a tree back to a list of paths.

ghost use Rattle.std.specs.Prelude.{IfOk};
ghost use Rattle.std.specs.List.Sorted.{IsPermutation, IsSorted};
ghost use Rattle.rx_tree.specs.Lists.{ListsTree, by_path};

use crate::blobs::Blob;
use crate::shelves::Shelf;
use crate::tree_fault::TreeFault;
use crate::walks::{Seen, walk};
use rx_base::{Digest, Items, NoMemory, RelPath};
use std::alloc::Global;

/// A file of a tree: its path, the digest of its bytes, and whether its owner may execute it.
#[derive(Debug, Drop)]
pub struct TreeFile {
    pub path: RelPath,
    pub digest: Digest,
    pub executable: bool,
}

/// What a tree lists: its files, and its directories without any entry, the root excepted, each
/// list in the order of the paths' bytes.
#[derive(Debug, Drop)]
pub struct Listed {
    pub files: Items<TreeFile>,
    pub dirs: Items<RelPath>,
}

/// The list of paths whose tree has this root. Of the blobs those count that a walk from the root
/// meets. Symbolic links are passed over; a directory that has one isn't without any entry.
pub fn list_of(alloc: Global, root: &Digest, blobs: &[Blob]) -> Result<Listed, TreeFault>
    ensures { ListsTree root.now blobs.now result }
{
    let shelf = Shelf::new(alloc, blobs)?;
    let mut seen = Seen {
        entered: 0,
        files: Items::new(alloc),
        dirs: Items::new(alloc),
    };
    walk(alloc, &shelf, root, &RelPath::root(alloc), &mut seen)?;
    let Seen { files, dirs, .. } = seen;
    let mut dirs = dirs.into_vec();
    dirs.sort()?;
    Ok(Listed {
        files: sort_files(files)?,
        dirs: Items::from_vec(dirs),
    })
}

/// These files in the order of their paths' bytes.
fn sort_files(files: Items<TreeFile>) -> Result<Items<TreeFile>, NoMemory>
    ensures all { IfOk result (λ sorted. IsPermutation files sorted) }
    ensures sorted { IfOk result (λ sorted. IsSorted by_path sorted) }
{
    let mut files = files.into_vec();
    files.sort_by(|file, other| file.path.cmp(&other.path))?;
    Ok(Items::from_vec(files))
}
