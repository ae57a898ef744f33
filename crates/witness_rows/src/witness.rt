//! What is left behind a session.

use rx_board::Entry;
use rx_engine::Transcript;

/// The session's transcript and the journal, which was empty before.
#[derive(Drop)]
pub struct Witness {
    pub transcript: Transcript,
    pub journal: Vec<Entry>,
}
