//! Runs of sessions: the desks of a front are served one after the other, or in threads, and what they
//! left is handed back with the journal. Here are the words of the command line too. What one session does
//! stands in the crate below, `rx_engine`: nothing here reads a request, runs a command or publishes.
#![tactic(auto)]

mod accounts;
mod addresses;
mod admissions;
mod agreeing;
mod asked;
mod closing;
mod fronts;
mod gate;
mod kept;
mod numbers;
mod proxy;
mod rights;
mod runs;
mod served;
mod serving;
mod settling;
mod threads;
mod words;

pub use closing::RanInThreads;
pub use fronts::{Front, Log};
pub use proxy::{Ran, run_proxy};
pub use served::ServedDesk;
pub use threads::run_in_threads;
pub use words::{Options, options_in};
