//! A tree of files, as a command sees it.

use crate::FileOut;
use rx_base::{Items, RelPath};

/// Files and directories by their paths, each list in the order of the paths' bytes and each path
/// once. The directories have every proper prefix, by parts, of each path but the root.
#[derive(Debug, Drop)]
pub struct Tree {
    pub files: Items<FileOut>,
    pub directories: Items<RelPath>,
}
