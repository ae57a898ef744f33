//! What was seen of a source tree, and the files that the includes of a compile command can reach in
//! it, in whichever branches they stand. Nothing here decides what a command runs on, or where.
#![tactic(auto)]

mod candidates;
mod faults;
mod file_tables;
mod path_sets;
mod progress;
mod reach;
mod searches;
mod seeks;
mod sights;
mod tries;
mod visits;

pub use faults::SightFault;
pub use reach::{Reached, reach_files};
pub use searches::Search;
pub use sights::Sights;
pub use visits::{MAX_FILE_BYTES, read_file};
