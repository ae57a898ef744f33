//! How long calls on a farm may take, and how long it may be silent.

use std::time::Duration;

/// How long a call may take for each 100,000 bytes that it moves, beside its own time: a second.
const BYTES_A_SECOND: u64 = 100_000;

/// How long an attempt waits for its farm, in seconds.
#[derive(Clone, Copy, Debug, Drop)]
pub struct FarmLimits {
    /// How long a call may take in which no command runs. A stream of bytes has a second more for each 100,000 of them.
    pub call: u16,
    /// How long the farm may be silent while a command runs. Then it is asked whether it still answers.
    pub silence: u16,
}

impl FarmLimits {
    /// A minute for both.
    pub fn usual() -> FarmLimits {
        FarmLimits {
            call: 60,
            silence: 60,
        }
    }

    /// How long a call may take that moves so many bytes.
    pub(crate) fn call_of(&self, bytes: u64) -> Duration {
        let seconds = u64::from(self.call).saturating_add(bytes / BYTES_A_SECOND);
        Duration::from_secs(seconds)
    }

    /// How long one read or write of a call may take in which no command runs.
    pub(crate) fn call(&self) -> Duration {
        Duration::from_secs(u64::from(self.call))
    }

    /// How long the farm may be silent while a command runs.
    pub(crate) fn silence(&self) -> Duration {
        Duration::from_secs(u64::from(self.silence))
    }
}
