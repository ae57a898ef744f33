//! Why a command has no action.

ghost use Rattle.std.specs.Prelude.{◌≡◌};

use std::alloc::{AllocError, AllocFailed};
use thiserror::Error;

/// Why a command has no action.
#[derive(Clone, Copy, Debug, PartialEq, Eq, Error)]
pub enum ActionFault {
    /// The output at this index is the working directory, or isn't below it. It is the first such.
    #[error("output {0} is not below the working directory")]
    BadOutputPath(usize),
    /// Memory ran out.
    #[error("out of memory")]
    NoMemory,
}

impl From<AllocError> for ActionFault {
    ghost use Rattle.rx_action.specs.declared.action_fault.ActionFault.TheVariants.{NoMemory};

    ghost from_gives = { λ _ fault. fault ≡ NoMemory };

    fn from(_error: AllocError) -> ActionFault {
        ActionFault::NoMemory
    }
}

impl<T: Drop> From<AllocFailed<T>> for ActionFault {
    ghost use Rattle.rx_action.specs.declared.action_fault.ActionFault.TheVariants.{NoMemory};

    ghost from_gives = { λ _ fault. fault ≡ NoMemory };

    fn from(_error: AllocFailed<T>) -> ActionFault {
        ActionFault::NoMemory
    }
}
