//! What the sessions of a run know together of a farm that is away. Once nobody answered a connection, a call waited in vain
//! to its limit, or an attempt had its last fault before a byte came, no session dials for 10 seconds; then one does, and the
//! others for another 10 seconds don't, until the farm says something. A farm that restarts within the pauses of an attempt
//! isn't taken for away, whatever the strategy, which nothing here knows.

use std::alloc::{AllocError, Global};
use std::sync::Arc;
use std::sync::atomic::{AtomicU64, Ordering};
use std::time::{Clock, Instant};

/// For how long no session dials, and for how long no other session tells why it couldn't, in milliseconds.
const AWAY_MILLIS: u64 = 10_000;

/// Times in milliseconds from when the run began.
#[derive(Drop)]
struct Times {
    /// When the run began.
    begun: Option<Instant>,
    /// Until when the farm is taken for away; 0 where it isn't.
    away: AtomicU64,
    /// Until when no other session tells why it has no connection.
    told: AtomicU64,
}

/// What the sessions of one run know of whether its farm is away.
#[derive(Drop)]
pub(crate) struct Outage {
    times: Arc<Times, Global>,
}

impl Outage {
    /// Nothing is known yet, as a run begins.
    pub(crate) fn new(rt: &impl Clock, alloc: Global) -> Result<Outage, AllocError> {
        let times = Times {
            begun: Instant::now(rt).ok(),
            away: AtomicU64::new(0),
            told: AtomicU64::new(0),
        };
        Ok(Outage {
            times: Arc::new(alloc, times)?,
        })
    }

    /// Another handle of the same.
    pub(crate) fn share(&self) -> Result<Outage, AllocError> {
        Ok(Outage {
            times: Arc::try_clone(&self.times)?,
        })
    }

    /// How long the run goes on; nothing, where the clock can't be read.
    fn now(&self, rt: &impl Clock) -> Option<u64> {
        let run = self.times.begun?.elapsed(rt).ok()?;
        u64::try_from(run.as_millis()).ok()
    }

    /// The farm is away.
    pub(crate) fn begin(&self, rt: &impl Clock) {
        if let Some(now) = self.now(rt) {
            let until = now.saturating_add(AWAY_MILLIS);
            self.times.away.store(until, Ordering::SeqCst);
        }
    }

    /// The farm said something.
    pub(crate) fn end(&self) {
        if self.times.away.load(Ordering::SeqCst) > 0 {
            self.times.away.store(0, Ordering::SeqCst);
        }
    }

    /// Whether a connection is to be tried. Where the farm was away for long enough, that is so for the first who asks.
    pub(crate) fn is_dial_due(&self, rt: &impl Clock) -> bool {
        let away = self.times.away.load(Ordering::SeqCst);
        match self.now(rt) {
            Some(now) if away > 0 => takes_turn(&self.times.away, away, now),
            _ => true,
        }
    }

    /// Whether a session that has no connection is to tell why: one is within 10 seconds.
    pub(crate) fn is_telling_due(&self, rt: &impl Clock) -> bool {
        let told = self.times.told.load(Ordering::SeqCst);
        match self.now(rt) {
            Some(now) => takes_turn(&self.times.told, told, now),
            None => true,
        }
    }
}

/// Whether a time is over, and nobody else saw that: then the next one begins.
fn takes_turn(time: &AtomicU64, seen: u64, now: u64) -> bool {
    let until = now.saturating_add(AWAY_MILLIS);
    seen <= now
        && time
            .compare_exchange(seen, until, Ordering::SeqCst, Ordering::SeqCst)
            .is_ok()
}
