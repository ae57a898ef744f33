//! Trees of files as Directory messages named by their digests: from a list of paths to the root's
//! digest with all the messages, and back. Nothing here reads a file.
#![tactic(auto)]

mod blobs;
mod directories;
mod entries;
mod listings;
mod refusals;
mod shelves;
mod tree_fault;
mod trees;
mod walks;

pub use blobs::Blob;
pub use listings::{Listed, TreeFile, list_of};
pub use refusals::MAX_FILES;
pub use tree_fault::TreeFault;
pub use trees::{Built, build};
