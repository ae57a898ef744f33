//! The outside in memory, for rows and tests: each object does what its trait says, and its calls
//! fail where its script says so. The quiet forms never fail. Nothing here opens a file, a socket
//! or a program.
#![tactic(auto)]

mod bench;
mod benches;
mod entries;
mod files;
mod found;
mod honest;
mod link;
mod place;
mod placing;
mod quiet_sources;
mod script;
mod sink;
mod source;
mod sources;
mod told;
mod tree_texts;

pub use bench::ToyBench;
pub use benches::ToyBenches;
pub use entries::SourceEntries;
pub use honest::honest_read;
pub use link::{Ahead, MemoryDial, MemoryLink};
pub use place::MemoryPlace;
pub use quiet_sources::QuietSources;
pub use script::Script;
pub use sink::{MemorySink, QuietSink};
pub use source::{MemorySource, QuietSource};
pub use sources::{Change, MemorySources, When};
pub use tree_texts::{TreeFault, read_tree};
