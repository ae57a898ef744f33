//! The words that every crate of the proxy shares: paths, digests, lists that a definition can
//! compute with, copies of these, the one error of memory, and work in threads. Nothing of the outside
//! lives here.
#![tactic(auto)]

mod begun;
mod byte_list;
mod digests;
mod item_list;
mod memory;
mod path_fault;
mod path_questions;
mod path_text;
mod paths;
mod sorted_paths;
mod text_list;

pub use begun::Begun;
pub use byte_list::Bytes;
pub use digests::{BadHash, Digest, digest_of, read_hash};
pub use item_list::Items;
pub use memory::{NoMemory, TryClone};
pub use path_fault::PathFault;
pub use path_questions::{is_above_any, is_among, is_at_or_below_any, is_below_any};
pub use paths::{MAX_PATH_LEN, RelPath};
pub use sorted_paths::{first_above, first_at_or_above, first_below, sort_paths};
pub use text_list::Text;
