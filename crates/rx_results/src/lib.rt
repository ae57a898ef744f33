//! What a farm's result says of the command that it is for: what is wrong with it, which blobs it
//! needs, and the outcome that comes of it. Nothing here asks a farm.
#![tactic(auto)]

mod farm_results;
mod limits;
mod matching;
mod output_lists;
mod readings;
mod result_outputs;
mod slots;

pub use farm_results::FarmResult;
pub use limits::{MAX_FILE_BYTES, MAX_FILES_BYTES, MAX_TEXT_BYTES};
pub use slots::DigestMismatch;
