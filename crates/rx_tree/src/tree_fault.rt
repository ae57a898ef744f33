//! Why a list of paths has no tree, and why blobs are none.

ghost use Rattle.std.specs.Prelude.{◌≡◌};

use rx_base::{Digest, RelPath};
use std::alloc::{AllocError, AllocFailed};
use thiserror::Error;

/// Why a list of paths has no tree, or why blobs don't give one.
#[derive(Debug, Drop, PartialEq, Eq, Error)]
pub enum TreeFault {
    /// There are more than 50,000 files, or directories where blobs are read.
    #[error("the tree has more than 50000 files or directories")]
    TooManyFiles,
    /// Two files have this path; it is the least such path by its bytes.
    #[error("two files have one path")]
    DuplicatePath(RelPath),
    /// The second path, of a file or a directory, lies below the first one, of a file, or is a
    /// directory's and the same. It is the least such pair: the file's path counts first.
    #[error("a path lies below a file")]
    FileUnderFile(RelPath, RelPath),
    /// A Directory with this digest is none of the blobs.
    #[error("a directory's blob is missing")]
    MissingBlob(Digest),
    /// The blob with this digest isn't the canonical form of a Directory, or a path in it would be
    /// longer than 4,096 bytes.
    #[error("a directory's blob is not canonical")]
    NotCanonical(Digest),
    /// Memory ran out.
    #[error("out of memory")]
    NoMemory,
}

impl From<AllocError> for TreeFault {
    ghost use Rattle.rx_tree.specs.declared.tree_fault.TreeFault.TheVariants.{NoMemory};

    ghost from_gives = { λ _ fault. fault ≡ NoMemory };

    fn from(_error: AllocError) -> TreeFault {
        TreeFault::NoMemory
    }
}

impl<T: Drop> From<AllocFailed<T>> for TreeFault {
    ghost use Rattle.rx_tree.specs.declared.tree_fault.TreeFault.TheVariants.{NoMemory};

    ghost from_gives = { λ _ fault. fault ≡ NoMemory };

    fn from(_error: AllocFailed<T>) -> TreeFault {
        TreeFault::NoMemory
    }
}
