//! What a source tree tells of a path.

ghost use Rattle.std.specs.Prelude.{◌≡◌, IfOk, None};

use rx_base::{Digest, NoMemory, RelPath, TryClone};
use std::alloc::Global;

/// What tells one state of a file from another: its size in bytes and a mark of 128 bits. The mark
/// may be a time, a number of the file system or a hash; the proxy only compares it.
#[derive(Clone, Copy, Debug, PartialEq, Eq)]
pub struct Stamp {
    pub size: u64,
    pub mark: u128,
}

/// What stands at a path.
#[derive(Clone, Copy, Debug, PartialEq, Eq)]
pub enum Look {
    /// Nothing.
    Absent,
    /// A regular file, and whether its owner may execute it.
    File { stamp: Stamp, executable: bool },
    /// A directory.
    Dir,
    /// Anything else: a link, a device, a socket.
    Other,
}

/// What was seen at a path: a look and, where two equal looks gave different contents, the digest
/// of the content.
#[derive(Clone, Copy, Debug, PartialEq, Eq)]
pub struct Seen {
    pub look: Look,
    pub digest: Option<Digest>,
}

/// A look alone, without a digest.
impl From<Look> for Seen {
    ghost from_gives = { λ look seen. seen ≡ record { look = look; digest = None } };

    fn from(look: Look) -> Seen {
        Seen { look, digest: None }
    }
}

/// An input of which two different values were seen, the first one first.
#[derive(Debug, Drop)]
pub struct ChangedInput {
    pub path: RelPath,
    pub first: Seen,
    pub second: Seen,
}

impl TryClone for ChangedInput {
    fn try_clone(&self, alloc: Global) -> Result<ChangedInput, NoMemory> {
        Ok(ChangedInput {
            path: self.path.try_clone(alloc)?,
            first: self.first,
            second: self.second,
        })
    }
}
