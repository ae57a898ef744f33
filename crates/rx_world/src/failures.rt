//! What a call on the outside answers where it has no value.

ghost use Rattle.std.specs.Prelude.{◌≡◌};
ghost use Rattle.rx_world.specs.declared.failures.Refused.TheVariants.{NoMemory as no_memory, Failed as failed};

use std::alloc::{AllocError, AllocFailed};
use thiserror::Error;

/// The call failed, and the count of faults of the part that was called rose.
#[derive(Clone, Copy, Debug, PartialEq, Eq, Error)]
#[error("the outside failed")]
pub struct Failed;

/// Why a call that takes memory has no value.
#[derive(Clone, Copy, Debug, PartialEq, Eq, Error)]
pub enum Refused {
    /// As [`Failed`].
    #[error("the outside failed")]
    Failed,
    /// Memory ran out. No count rises for it.
    #[error("out of memory")]
    NoMemory,
}

impl From<Failed> for Refused {
    ghost from_gives = { λ _ e. e ≡ failed };

    fn from(_error: Failed) -> Refused {
        Refused::Failed
    }
}

impl From<AllocError> for Refused {
    ghost from_gives = { λ _ e. e ≡ no_memory };

    fn from(_error: AllocError) -> Refused {
        Refused::NoMemory
    }
}

impl<T: Drop> From<AllocFailed<T>> for Refused {
    ghost from_gives = { λ _ e. e ≡ no_memory };

    fn from(_error: AllocFailed<T>) -> Refused {
        Refused::NoMemory
    }
}
