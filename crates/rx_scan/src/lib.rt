//! The files on which a command may run: its declared inputs and, for a compile command, each file
//! that an include can reach in any branch. Nothing here runs a command or talks to a farm.
#![tactic(auto)]

mod digests;
mod gather_fault;
mod gathering;
mod input_trees;
mod inputs;
mod limits;
mod lists;
mod path_lists;
mod plans;
mod scanned;
mod seen_dirs;
mod seen_files;
mod ways;
mod whole;
mod words;

pub use gather_fault::GatherFault;
pub use gathering::{Gathered, gather};
pub use plans::Choice;
