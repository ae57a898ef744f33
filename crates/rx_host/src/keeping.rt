//! Connections to one farm that no session uses, each with what the farm said of itself on it.

use crate::link::HostLink;
use rx_exec_messages::Capabilities;
use rx_grpc::Resting;
use std::alloc::{AllocError, Global};
use std::sync::{Arc, Mutex, Wait};
use std::time::{Clock, Instant};

/// How long a connection is kept, in seconds. Farms, and what stands before them, close or forget what is idle for longer.
const MOST_SECONDS: u64 = 60;

/// A connection between two sessions.
#[derive(Drop)]
pub(crate) struct Kept {
    pub(crate) resting: Resting<HostLink>,
    /// What the farm said of itself on it, where it was asked there.
    pub(crate) told: Option<Capabilities>,
    /// Since when no session uses it.
    since: Instant,
}

/// The connections that the sessions of one run, whose farm is one, hand on to one another: the one that was used last comes first. They
/// are as many as sessions ran at once.
#[derive(Drop)]
pub(crate) struct Keeping {
    kept: Arc<Mutex<Vec<Kept>>, Global>,
}

impl Keeping {
    /// None is kept yet, as a run begins.
    pub(crate) fn new(alloc: Global) -> Result<Keeping, AllocError> {
        Ok(Keeping {
            kept: Arc::new(alloc, Mutex::new(Vec::new(alloc)))?,
        })
    }

    /// Another handle of the same.
    pub(crate) fn share(&self) -> Result<Keeping, AllocError> {
        Ok(Keeping {
            kept: Arc::try_clone(&self.kept)?,
        })
    }

    /// Keeps a connection. Where the clock can't be read, or there is no memory for it, it is closed.
    pub(crate) fn put<H: Wait + Clock>(
        &self,
        hands: &H,
        resting: Resting<HostLink>,
        told: Option<Capabilities>,
    ) {
        if let Ok(since) = Instant::now(hands) {
            let kept = Kept {
                resting,
                told,
                since,
            };
            let _ = self.kept.lock(hands).push(kept);
        }
    }

    /// The connection that was used last, unless that is too long ago: then all are closed.
    pub(crate) fn take<H: Wait + Clock>(&self, hands: &H) -> Option<Kept> {
        let mut all = self.kept.lock(hands);
        let kept = all.pop()?;
        match kept.since.elapsed(hands) {
            Ok(rest) if rest.as_secs() < MOST_SECONDS => Some(kept),
            _ => {
                all.clear();
                None
            }
        }
    }
}
