//! The key of an action: what a command and its input tree are called on a farm, as the messages
//! Command and Action with their digests, and which blobs a farm needs of it. Nothing here asks a
//! farm or reads a file.
#![tactic(auto)]

mod action_blobs;
mod action_fault;
mod action_keys;
mod commands;
mod output_paths;
mod pairs;

pub use action_blobs::digests_of_action;
pub use action_fault::ActionFault;
pub use action_keys::{ActionKey, action_of};
