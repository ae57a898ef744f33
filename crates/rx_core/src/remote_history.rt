//! What the core asks of the remote attempt: who builds that attempt says it here, once.

ghost use Rattle.rx_core.specs.Remote.{AreLawful, Rules};

use rx_world::World;

/// The remote attempts of a world: what they may hear, and the end that this leaves.
pub trait RemoteHistory<W: World> {
    /// What one hears at once: an answer to what it asked, the loss of one, or its race's decision.
    ghost heard: { Type 0 };

    /// What may be heard, what that leaves, and what an honest farm of the world answers.
    ghost rules: { Rules heard };

    /// An outcome is proper, a stop is heard, and what an honest farm answers leads to the clean
    /// run.
    ghost lawful: { AreLawful W.tool rules };
}
