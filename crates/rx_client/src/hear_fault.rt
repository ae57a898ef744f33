//! Why no frame was heard.

ghost use Rattle.std.specs.Prelude.{◌≡◌};
ghost use Rattle.rx_client.specs.Asking.{hear_fault_of};
ghost use Rattle.rx_client.specs.declared.hear_fault.HearFault.TheVariants.{NoMemory};

use rx_world::Refused;
use std::alloc::AllocError;
use thiserror::Error;

/// Why the frame that was awaited isn't there.
#[derive(Clone, Copy, Debug, PartialEq, Eq, Error)]
pub enum HearFault {
    /// The input failed, and its count of faults rose.
    #[error("the input failed")]
    Lost,
    /// The bytes that the input gives don't begin with such a frame.
    #[error("no such frame")]
    NoFrame,
    /// Memory ran out.
    #[error("out of memory")]
    NoMemory,
}

impl From<Refused> for HearFault {
    ghost from_gives = { λ refused fault. fault ≡ hear_fault_of refused };

    fn from(refused: Refused) -> HearFault {
        match refused {
            Refused::Failed => HearFault::Lost,
            Refused::NoMemory => HearFault::NoMemory,
        }
    }
}

impl From<AllocError> for HearFault {
    ghost from_gives = { λ _ fault. fault ≡ NoMemory };

    fn from(_error: AllocError) -> HearFault {
        HearFault::NoMemory
    }
}
