//! The outside of the proxy: what its parts are called, what they mean, and how often they failed.
//! A part is a trait here; nothing in this crate opens a file, a socket or a program.
#![tactic(auto)]

mod attempts;
mod benches;
mod call_faults;
mod commands;
mod decisions;
mod failures;
mod input_files;
mod links;
mod looks;
mod outcomes;
mod places;
mod refusals;
mod remote_causes;
mod sources;
mod streams;
mod toy;
mod trees;
mod versions;
mod world;

pub use attempts::{Attempt, BenchStep, Cause, End, Ended, Failure, Origin, Plan};
pub use benches::{Bench, BenchMaker, BenchRun};
pub use call_faults::CallFault;
pub use commands::{Command, Kind, Pair, Strategy};
pub use decisions::{Decision, Stop, Unstopped};
pub use failures::{Failed, Refused};
pub use input_files::InputFile;
pub use links::{Dial, Link};
pub use looks::{ChangedInput, Look, Seen, Stamp};
pub use outcomes::{Exit, FileOut, KeptOutcome, Listed, Outcome, keep_outcome, list_files};
pub use places::Place;
pub use refusals::{Limit, LocalCause, OutputLimit};
pub use remote_causes::{RemoteCause, ResultFault};
pub use sources::{Found, Given, SourceEntry, Sources};
pub use streams::{Sink, Source};
pub use toy::{Contents, Toy, toy_run};
pub use trees::Tree;
pub use versions::{Dialect, SemVer};
pub use world::World;
