//! Values that rows of several programs have: paths and texts as arguments; digests, looks and inputs
//! that changed in answers. Which calls there are is each program's concern.
//!
//! A digest is written as `HASH/SIZE`. A look is `absent`, `dir`, `other`, or `file:SIZE:MARK` with
//! `executable` behind it where that is so.
#![tactic(auto)]

mod arguments;
mod looks;

pub use arguments::{path_of, read_path, read_string};
pub use looks::{write_changed, write_digest, write_look};
