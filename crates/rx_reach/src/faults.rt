//! Why a scan ends early.

ghost use Rattle.std.specs.Prelude.{◌≡◌};
ghost use Rattle.rx_reach.specs.declared.faults.SightFault.TheVariants.{NoMemory as no_memory};

use rx_base::RelPath;
use rx_world::ChangedInput;
use std::alloc::{AllocError, AllocFailed};
use thiserror::Error;

/// Why a source tree can't be scanned on.
#[derive(Debug, Drop, Error)]
pub enum SightFault {
    /// The source tree failed at this path, and its count of faults rose.
    #[error("the source tree failed")]
    SourceFault { path: RelPath },
    /// Two looks at one path that differ.
    #[error("an input changed")]
    InputChanged(ChangedInput),
    /// Memory ran out.
    #[error("out of memory")]
    NoMemory,
}

impl From<AllocError> for SightFault {
    ghost from_gives = { λ _ e. e ≡ no_memory };

    fn from(_error: AllocError) -> SightFault {
        SightFault::NoMemory
    }
}

impl<T: Drop> From<AllocFailed<T>> for SightFault {
    ghost from_gives = { λ _ e. e ≡ no_memory };

    fn from(_error: AllocFailed<T>) -> SightFault {
        SightFault::NoMemory
    }
}
