//! Until when the call on a farm that goes on is to be over.

use std::sync::atomic::{AtomicU64, Ordering};
use std::time::{Clock, Duration, Instant};

/// No time is set.
const NEVER: u64 = u64::MAX;

/// The end of a call in milliseconds from when its session began. Where the clock can't be read, calls have none.
#[derive(Drop)]
pub(crate) struct CallTime {
    begun: Option<Instant>,
    until: AtomicU64,
}

impl CallTime {
    /// The session begins. No call goes on.
    pub(crate) fn new(clock: &impl Clock) -> CallTime {
        CallTime {
            begun: Instant::now(clock).ok(),
            until: AtomicU64::new(NEVER),
        }
    }

    /// How long the session goes on, in milliseconds.
    fn now(&self, clock: &impl Clock) -> Option<u64> {
        let session = self.begun?.elapsed(clock).ok()?;
        u64::try_from(session.as_millis()).ok()
    }

    /// A call begins, which is to be over after this time, or may take as long as it takes.
    pub(crate) fn begin(&self, clock: &impl Clock, limit: Option<Duration>) {
        let until = match (limit, self.now(clock)) {
            (Some(limit), Some(now)) => {
                let millis = u64::try_from(limit.as_millis()).unwrap_or(NEVER);
                now.saturating_add(millis)
            }
            _ => NEVER,
        };
        self.until.store(until, Ordering::SeqCst);
    }

    /// How much of the call's time is left, where it has one.
    pub(crate) fn left(&self, clock: &impl Clock) -> Option<Duration> {
        let until = self.until.load(Ordering::SeqCst);
        if until == NEVER {
            return None;
        }
        let now = self.now(clock)?;
        Some(Duration::from_millis(until.saturating_sub(now)))
    }
}
