//! How the attempts of a session over the machine are halted, and the wait for its client.

use rx_engine::Halt;
use rx_host::Halting;
use rx_world::Attempt;
use std::sync::Wait;

/// Halts an attempt that lost its race, and the wait for a client with a connection; or nothing, where it has no
/// session.
#[derive(Drop)]
pub(crate) struct HostHalt<H> {
    of: Option<(H, Halting)>,
}

impl<H: Copy> HostHalt<H> {
    /// Halts what shares this.
    pub(crate) fn new(hands: H, halting: Halting) -> HostHalt<H> {
        HostHalt {
            of: Some((hands, halting)),
        }
    }

    /// Halts nothing.
    pub(crate) fn of_none() -> HostHalt<H> {
        HostHalt { of: None }
    }

    /// Halts the same.
    pub(crate) fn share(&self) -> HostHalt<H> {
        match &self.of {
            Some((hands, halting)) => match halting.share() {
                Ok(halting) => HostHalt::new(*hands, halting),
                Err(_) => HostHalt::of_none(),
            },
            None => HostHalt::of_none(),
        }
    }
}

impl<H: Wait> Halt for HostHalt<H> {
    fn halt(&self, attempt: Attempt) {
        if let Some((hands, halting)) = &self.of {
            match attempt {
                Attempt::Local => halting.halt_runs(hands),
                Attempt::Remote => halting.halt_farm(hands),
            }
        }
    }

    fn allow_silence(&self) {
        if let Some((hands, halting)) = &self.of {
            halting.allow_silence(hands);
        }
    }

    fn halt_input(&self) {
        if let Some((hands, halting)) = &self.of {
            halting.halt_input(hands);
        }
    }
}
