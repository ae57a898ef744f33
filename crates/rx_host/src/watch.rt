//! How long the session that uses a connection waits for its farm there.

use crate::closing::Closing;
use crate::farm_limits::FarmLimits;
use crate::link_halting::LinkHalting;
use crate::outage::Outage;
use crate::patience::Patience;
use crate::probe::Probe;
use std::time::Duration;

/// How long the first byte of a farm may take. A server of HTTP/2 sends its settings at once (RFC 9113, 3.4).
const FIRST_SECONDS: u64 = 10;

/// What a connection is watched by.
#[derive(Drop)]
pub(crate) struct Watch {
    pub(crate) halting: LinkHalting,
    pub(crate) limits: FarmLimits,
    /// What is known of a farm that is away, where sessions share that.
    pub(crate) outage: Option<Outage>,
    /// Whether the run is to end, where sessions share that.
    pub(crate) closing: Option<Closing>,
    /// Asks a farm that is silent while a command runs.
    pub(crate) probe: Option<Probe>,
}

impl Watch {
    /// Whether the run is to end.
    fn is_closing(&self) -> bool {
        match &self.closing {
            Some(closing) => closing.is_begun(),
            None => false,
        }
    }

    /// Whether a silence of the farm, from which something came before or not, is within its limits.
    fn is_within(&self, rt: &HostRuntime, is_heard: bool, silence: Duration) -> bool {
        if !is_heard && silence >= Duration::from_secs(FIRST_SECONDS) {
            return false;
        }
        if self.is_closing() && silence >= Closing::limit() {
            return false;
        }
        match self.halting.call_left(rt) {
            Some(left) => !left.is_zero(),
            None => silence < self.limits.silence(),
        }
    }

    /// Whether the farm is silent only because a command runs: then it answers when it is asked anew.
    fn is_at_work(&self, rt: &HostRuntime, is_heard: bool) -> bool {
        let is_running = self.halting.call_left(rt).is_none();
        if !is_running || !is_heard || self.halting.is_farm_halted() {
            return false;
        }
        let patience = if self.is_closing() {
            Closing::limit()
        } else {
            Duration::from_secs(FIRST_SECONDS)
        };
        match &self.probe {
            Some(probe) => probe.is_answered(patience),
            None => false,
        }
    }
}

/// The patience of a session with its farm.
#[derive(Clone, Copy)]
pub(crate) struct Watched<'a> {
    pub(crate) rt: &'a HostRuntime,
    pub(crate) watch: &'a Watch,
    /// Whether anything came from the farm.
    pub(crate) is_heard: bool,
}

impl<'a> Patience for Watched<'a> {
    fn bear(&self, silence: Duration) -> Option<Duration> {
        if self.watch.is_within(self.rt, self.is_heard, silence) {
            return Some(silence);
        }
        if self.watch.is_at_work(self.rt, self.is_heard) {
            return Some(Duration::ZERO);
        }
        None
    }
}
