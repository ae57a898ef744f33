//! Values that are kept for whoever wants them again, within a limit of bytes. What a value says is known by its type
//! alone: a contract of it has to be a fact that its type keeps.
#![tactic(auto)]

mod memo;

pub use memo::Memo;
