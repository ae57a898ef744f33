//! What a journal keeps of each publication.

use rx_base::Items;
use rx_world::Listed;

/// The most publications that the proxy's journal takes.
pub const JOURNAL_LIMIT: usize = 262_144;

/// One publication.
#[derive(Debug, Drop)]
pub struct Entry {
    /// Its place in the journal, from 1 on.
    pub number: u64,
    /// The session that published.
    pub session: u32,
    /// All the files that were to be placed, in the order in which they were.
    pub files: Items<Listed>,
    /// How many of them were placed: all, or fewer where the place failed.
    pub placed: u64,
}

/// What shows that something was published: the number of its entry.
#[derive(Clone, Copy, Debug, PartialEq, Eq)]
pub struct Receipt {
    pub number: u64,
}
