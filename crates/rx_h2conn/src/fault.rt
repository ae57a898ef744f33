//! Why a call on a connection is refused.

use std::alloc::{AllocError, AllocFailed};
use thiserror::Error;

#[derive(Clone, Copy, Debug, PartialEq, Eq, Error)]
pub enum ConnFault {
    /// The server broke a rule; the code is that of RFC 9113 7: 1 protocol, 3 flow control, 6 frame size,
    /// 9 compression, 11 enhance your calm.
    #[error("the server broke the protocol, code {0}")]
    Protocol(u32),
    /// The server takes no stream past this one (RFC 9113 6.8).
    #[error("the server takes no stream past {0}")]
    GoneAway(u32),
    /// The stream 2^31 - 1 was used, and no number is left (RFC 9113 5.1.1).
    #[error("no stream number is left")]
    StreamsSpent,
    #[error("out of memory")]
    NoMemory,
}

impl From<AllocError> for ConnFault {
    ghost use Rattle.std.specs.Prelude.{◌≡◌};
    ghost use Rattle.rx_h2conn.specs.declared.fault.ConnFault.TheVariants.{NoMemory};

    ghost from_gives = { λ _ e. e ≡ NoMemory };

    fn from(_error: AllocError) -> ConnFault {
        ConnFault::NoMemory
    }
}

impl<T: Drop> From<AllocFailed<T>> for ConnFault {
    ghost use Rattle.std.specs.Prelude.{◌≡◌};
    ghost use Rattle.rx_h2conn.specs.declared.fault.ConnFault.TheVariants.{NoMemory};

    ghost from_gives = { λ _ e. e ≡ NoMemory };

    fn from(_error: AllocFailed<T>) -> ConnFault {
        ConnFault::NoMemory
    }
}
