//! The core: actions that race, a journal and a place, and every list of steps that changes them.
//! It is definitions and two laws on them, and no code runs.
#![tactic(auto)]

mod farm_history;
mod laws;
mod remote_history;

pub use farm_history::FarmHistory;
pub use laws::{every_run, every_step};
pub use remote_history::RemoteHistory;
