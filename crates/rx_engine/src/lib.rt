//! Serves a session: a request in, the attempts of its plan, the files of one placed once and whole, a
//! reply out. A session is made of two halves, until its attempts have ended (`undertake`) and from there
//! (`conclude`), so that a run may have the first halves of several beside each other. What runs sessions,
//! and what a whole run of them is, stands in the crate above, `rx_daemon`.
#![tactic(auto)]

mod answered;
mod answers;
mod attempts;
mod choices;
mod concluding;
mod desk;
mod ends;
mod entrants;
mod finishers;
mod halts;
mod held;
mod here;
mod pending;
mod plans;
mod publishing;
mod racing;
mod sessions;
mod there;
mod transcripts;
mod watchers;
mod winners;

pub use attempts::{Means, Won};
pub use concluding::conclude;
pub use desk::{Desk, Parts};
pub use halts::{Halt, NoHalt};
pub use pending::{Pending, undertake};
pub use sessions::{Shared, serve_session};
pub use transcripts::{Ending, Passes, Tally, Transcript};
