//! The local attempt: one run of a command on a fresh bench of this machine, over files that are read
//! again. What a bench and a source tree are stands in `rx_world`; nothing here opens a file or starts
//! a program.
#![tactic(auto)]

mod limits;
mod local;
mod slots;
mod stage;
mod take;

pub use local::{LocalJob, run_local};
pub use slots::{Places, SlotPass, Slots, blank_for};
