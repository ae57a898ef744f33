//! Why words, environment and configuration file can't be read.

ghost use Rattle.std.specs.Prelude.{◌≡◌};

use rx_base::Text;
use std::alloc::{AllocError, AllocFailed};
use thiserror::Error;

/// Why there are no settings.
#[derive(Debug, Drop, Error)]
pub enum UsageFault {
    /// The word of the command line or the line of the file that can't be read.
    #[error("bad flag")]
    Word(Text),
    #[error("out of memory")]
    NoMemory,
}

impl From<AllocError> for UsageFault {
    ghost use Rattle.rx_wrap.specs.declared.usage_fault.UsageFault.TheVariants.{NoMemory};

    ghost from_gives = { λ _ e. e ≡ NoMemory };

    fn from(_error: AllocError) -> UsageFault {
        UsageFault::NoMemory
    }
}

impl<T: Drop> From<AllocFailed<T>> for UsageFault {
    ghost use Rattle.rx_wrap.specs.declared.usage_fault.UsageFault.TheVariants.{NoMemory};

    ghost from_gives = { λ _ e. e ≡ NoMemory };

    fn from(_failed: AllocFailed<T>) -> UsageFault {
        UsageFault::NoMemory
    }
}
