//! Whether a run is to end: then a farm that says nothing isn't waited for any longer.

use crate::patience::Patience;
use std::alloc::{AllocError, Global};
use std::sync::Arc;
use std::sync::atomic::{AtomicBool, Ordering};
use std::time::Duration;

/// How long a farm may say nothing once the run is to end.
const MOST_SECONDS: u64 = 1;

/// What the sessions of a run know of its end.
#[derive(Drop)]
pub(crate) struct Closing {
    is_begun: Arc<AtomicBool, Global>,
}

impl Closing {
    /// The run goes on.
    pub(crate) fn new(alloc: Global) -> Result<Closing, AllocError> {
        Ok(Closing {
            is_begun: Arc::new(alloc, AtomicBool::new(false))?,
        })
    }

    /// Another handle of the same.
    pub(crate) fn share(&self) -> Result<Closing, AllocError> {
        Ok(Closing {
            is_begun: Arc::try_clone(&self.is_begun)?,
        })
    }

    /// The run is to end.
    pub(crate) fn begin(&self) {
        self.is_begun.store(true, Ordering::SeqCst);
    }

    /// Whether the run is to end.
    pub(crate) fn is_begun(&self) -> bool {
        self.is_begun.load(Ordering::SeqCst)
    }

    /// How long a farm that says nothing may take once the run is to end.
    pub(crate) fn limit() -> Duration {
        Duration::from_secs(MOST_SECONDS)
    }
}

impl Patience for Closing {
    fn bear(&self, silence: Duration) -> Option<Duration> {
        if self.is_begun() && silence >= Closing::limit() {
            return None;
        }
        Some(silence)
    }
}
