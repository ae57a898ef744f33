//! What the words of a compile command name: its source, the directories that includes are sought
//! in, forced files and outputs. Only words are read here: no file is looked at.
#![tactic(auto)]

mod endings;
mod features;
mod found;
mod local_outputs;
mod made;
mod meanings;
mod outside;
mod pieces;
mod places;
mod readings;
mod rows;
mod searches;
mod values;
mod variables;

pub use readings::{Reading, read_command};
