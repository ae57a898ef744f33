//! The remote attempt: from what was asked of a farm and heard so far to the one ask that comes next, or
//! to the end, as a machine without a farm; and the attempt that asks a farm's client by it, with the
//! stop of its race and the files of its inputs. Nothing here opens a connection.
#![tactic(auto)]

mod after_faults;
mod after_results;
mod asks;
mod begins;
mod calls;
mod jobs;
mod marks;
mod once_each;
mod phases;
mod retries;
mod runs;
mod states;
mod tasks;
mod turns;

pub use asks::{Ask, Heard};
pub use jobs::RemoteJob;
pub use marks::{Found, Marks};
pub use phases::Phase;
pub use retries::{MAX_FAULTS, MAX_WAITS};
pub use runs::run_remote;
pub use states::{RemoteState, step};
pub use tasks::Task;
