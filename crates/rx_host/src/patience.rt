//! For how long a silent connection is waited at.

use std::time::Duration;

/// After so many milliseconds of silence it is asked whether to wait on.
const TICK_MILLIS: u64 = 500;

/// How long one read or write waits before it is asked again whether to wait on.
pub(crate) fn tick() -> Duration {
    Duration::from_millis(TICK_MILLIS)
}

/// Decides how long a silence is borne.
pub(crate) trait Patience {
    /// Nothing came or went for so long. The silence that counts from now on, or nothing where it is borne no longer.
    fn bear(&self, silence: Duration) -> Option<Duration>;
}
