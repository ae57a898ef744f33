//! The files of an input tree, as they were found.

use crate::Stamp;
use rx_base::{Digest, RelPath};

/// A file of an input tree: its path, the digest of its bytes, its stamp when it was read, and
/// whether its owner may execute it. A tree doesn't hold the stamp.
#[derive(Debug, Drop)]
pub struct InputFile {
    pub path: RelPath,
    pub digest: Digest,
    pub stamp: Stamp,
    pub executable: bool,
}
