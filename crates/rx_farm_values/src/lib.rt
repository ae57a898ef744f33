//! Values of a farm's client that rows of several programs have: what a farm tells of itself and the
//! faults of calls as arguments; calls and the causes of failed attempts in answers. Which calls there
//! are is each program's concern.
#![tactic(auto)]

mod asks;
mod call_faults;
mod capabilities;
mod remote_causes;

pub use asks::write_asks;
pub use call_faults::{read_code, read_fault};
pub use capabilities::read_capabilities;
pub use remote_causes::write_remote_cause;
