//! Races that are decided after some asks.

ghost use Rattle.rx_world.specs.declared.attempts.Attempt.TheVariants.{Remote as remote};

use rx_world::{Attempt, Decision, Stop};

/// A race that the local attempt wins after so many asks.
#[derive(Drop)]
pub(crate) struct Race {
    pub(crate) asks: u64,
    pub(crate) told: Option<Decision>,
}

impl Race {
    /// A race of which nothing was told.
    pub(crate) fn new(asks: u64) -> Race {
        Race { asks, told: None }
    }
}

impl Stop for Race {
    ghost told = { λ s. s.told };

    ghost attempt = { λ s. remote };

    fn seen(&mut self) -> Option<Decision> {
        if self.asks == 0 {
            let decision = Decision::By(Attempt::Local);
            self.told = Some(decision);
            return Some(decision);
        }
        self.asks -= 1;
        None
    }
}
