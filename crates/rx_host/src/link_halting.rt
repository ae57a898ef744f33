//! The halting of the session that uses a connection, which other sessions use after it.

use crate::halting::Halting;
use std::sync::Mutex;
use std::time::Duration;

/// By what the session is halted that uses a connection. Only that session asks, and it alone passes it on to itself, so that
/// nobody ever waits for the lock. Where it is taken all the same, the session is taken for halted.
#[derive(Drop)]
pub(crate) struct LinkHalting {
    of: Mutex<Halting>,
}

impl LinkHalting {
    /// The connection is used by the session that is halted by this.
    pub(crate) fn new(halting: Halting) -> LinkHalting {
        LinkHalting {
            of: Mutex::new(halting),
        }
    }

    /// The session that is halted by this uses the connection from now on.
    pub(crate) fn pass_on(&self, halting: Halting) {
        if let Some(mut of) = self.of.try_lock() {
            *of = halting;
        }
    }

    /// Whether the farm was halted.
    pub(crate) fn is_farm_halted(&self) -> bool {
        match self.of.try_lock() {
            Some(of) => of.is_farm_halted(),
            None => true,
        }
    }

    /// How much of the call's time is left, where it has one.
    pub(crate) fn call_left(&self, rt: &HostRuntime) -> Option<Duration> {
        match self.of.try_lock() {
            Some(of) => of.call_left(rt),
            None => Some(Duration::ZERO),
        }
    }
}
