//! How an attempt that lost its race is ended early, and the wait for a client that may cancel. Nothing
//! here knows what either waits for.

use rx_world::Attempt;

/// Ends what one session waits for. Nothing is promised of it: what goes on is waited for.
pub trait Halt {
    /// Has this attempt end soon, where it can. What it ends with then isn't published.
    fn halt(&self, attempt: Attempt);

    /// Lets the client say nothing for as long as the attempts take.
    fn allow_silence(&self);

    /// Ends the wait for what the client says behind its request. Its input says no more.
    fn halt_input(&self);
}

/// Ends nothing early.
#[derive(Clone, Copy, Debug, Drop)]
pub struct NoHalt;

impl Halt for NoHalt {
    fn halt(&self, _attempt: Attempt) {}

    fn allow_silence(&self) {}

    fn halt_input(&self) {}
}
