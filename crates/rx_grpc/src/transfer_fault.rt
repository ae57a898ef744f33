//! Why a call has no answer.

use rx_base::NoMemory;
use rx_world::Failed;
use thiserror::Error;

/// Why a call has no answer.
#[derive(Clone, Copy, Debug, PartialEq, Eq, Error)]
pub enum TransferFault {
    /// No connection could be made, or it failed. A count of faults rose for it.
    #[error("the connection failed")]
    Link,
    /// The server broke a rule before its bytes showed an answer; the code is that of RFC 9113 7. Code 11, enhance your
    /// calm, also where as many bytes as one call may take show none.
    #[error("the server broke the protocol, code {0}")]
    Protocol(u32),
    /// Memory ran out. No count rises for it.
    #[error("out of memory")]
    NoMemory,
}

impl From<Failed> for TransferFault {
    ghost use Rattle.std.specs.Prelude.{◌≡◌};
    ghost use Rattle.rx_grpc.specs.declared.transfer_fault.TransferFault.TheVariants.{Link};

    ghost from_gives = { λ _ e. e ≡ Link };

    fn from(_error: Failed) -> TransferFault {
        TransferFault::Link
    }
}

impl From<NoMemory> for TransferFault {
    ghost use Rattle.std.specs.Prelude.{◌≡◌};
    ghost use Rattle.rx_grpc.specs.declared.transfer_fault.TransferFault.TheVariants.{NoMemory};

    ghost from_gives = { λ _ e. e ≡ NoMemory };

    fn from(_error: NoMemory) -> TransferFault {
        TransferFault::NoMemory
    }
}
