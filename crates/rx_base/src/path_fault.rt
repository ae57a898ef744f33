//! Why a text is no path.

ghost use Rattle.std.specs.Prelude.{◌≡◌};

use std::alloc::{AllocError, AllocFailed};
use thiserror::Error;

/// Why a text is no path: the first of these that holds, in this order.
#[derive(Clone, Copy, Debug, PartialEq, Eq, Error)]
pub enum PathFault {
    /// The text has no byte.
    #[error("the path is empty")]
    Empty,
    /// The text that is read, or the path that a join gives, has more than 4,096 bytes.
    #[error("the path is longer than 4096 bytes")]
    TooLong,
    /// The text begins with a slash.
    #[error("the path is absolute")]
    Absolute,
    /// The byte at this offset of the text is zero; it is the first such byte.
    #[error("byte {0} of the path is zero")]
    BadByte(usize),
    /// A part `..` has no name before it that it could remove.
    #[error("the path leads above the root")]
    AboveRoot,
    /// Memory ran out.
    #[error("out of memory")]
    NoMemory,
}

impl From<AllocError> for PathFault {
    ghost use Rattle.rx_base.specs.declared.path_fault.PathFault.TheVariants.{NoMemory};

    ghost from_gives = { λ _ fault. fault ≡ NoMemory };

    fn from(_error: AllocError) -> PathFault {
        PathFault::NoMemory
    }
}

impl<T: Drop> From<AllocFailed<T>> for PathFault {
    ghost use Rattle.rx_base.specs.declared.path_fault.PathFault.TheVariants.{NoMemory};

    ghost from_gives = { λ _ fault. fault ≡ NoMemory };

    fn from(_error: AllocFailed<T>) -> PathFault {
        PathFault::NoMemory
    }
}
