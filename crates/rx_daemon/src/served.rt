//! What a run in threads keeps of a session, and hands back.

ghost use Rattle.std.specs.Prelude.{◌≡◌};

use rx_engine::Transcript;
use std::sync::ledger::Blank;

/// A desk that was served: the transcript of its session, and the desk as that handed it back.
#[derive(Drop)]
pub struct ServedDesk<D> {
    pub transcript: Transcript,
    pub desk: D,
    /// How many sessions of the run had published before it.
    pub before: usize,
    pub(crate) right: Blank,
}

impl<D: Drop> ServedDesk<D> {
    /// The right to the session's number.
    pub(crate) fn into_right(self) -> Blank
        ensures { result ≡ self.right }
    {
        let ServedDesk {
            transcript: _,
            desk: _,
            before: _,
            right,
        } = self;
        right
    }
}
