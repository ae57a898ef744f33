//! The board: a place for files and the journal of all that was published there. It knows nothing
//! of sessions but their numbers, and takes no lock.
#![tactic(auto)]

mod board;
mod journal;
mod placing;
mod publish_fault;

pub use board::Board;
pub use journal::{Entry, JOURNAL_LIMIT, Receipt};
pub use publish_fault::PublishFault;
