//! An outcome with the form of it that a transcript keeps.

ghost use Rattle.std.specs.Prelude.{◌≡◌};
ghost use Rattle.rx_world.specs.Outcomes.{kept};

use rx_world::{KeptOutcome, Outcome};

/// An outcome, and the form of it that a transcript keeps.
#[derive(Drop)]
pub(crate) struct Held {
    pub outcome: Outcome,
    pub short: KeptOutcome,
    ghost short_is: { short ≡ kept outcome },
}
