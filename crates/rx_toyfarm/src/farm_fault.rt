//! Why a connection isn't served any longer.

ghost use Rattle.std.specs.Prelude.{◌≡◌, ◌≢◌};
ghost use Rattle.rx_toyfarm.specs.declared.farm_fault.FarmFault.TheVariants as fault;

use rx_codec::MessageFault;
use rx_h2frame::FrameFault;
use rx_hpack::HpackFault;
use rx_world::Failed;
use std::alloc::{AllocError, AllocFailed};
use thiserror::Error;

/// Why `answer` ended.
#[derive(Clone, Copy, Debug, PartialEq, Eq, Error)]
pub enum FarmFault {
    /// The link failed. Its count of faults rose for it.
    #[error("the link failed")]
    LinkFault,
    /// The bytes that came are no calls of the API.
    #[error("the bytes are no call")]
    BadCall,
    /// As many pieces were received as might be.
    #[error("the turns are spent")]
    TurnsSpent,
    /// Memory ran out.
    #[error("out of memory")]
    NoMemory,
}

impl From<Failed> for FarmFault {
    ghost from_gives = { λ _ e. e ≡ fault.LinkFault };

    fn from(_error: Failed) -> FarmFault {
        FarmFault::LinkFault
    }
}

impl From<Broken> for FarmFault {
    ghost from_gives = { λ _ e. e ≢ fault.LinkFault };

    fn from(broken: Broken) -> FarmFault {
        match broken {
            Broken::BadCall => FarmFault::BadCall,
            Broken::NoMemory => FarmFault::NoMemory,
        }
    }
}

/// Why the bytes that came can't be answered.
#[derive(Clone, Copy, Debug, PartialEq, Eq, Error)]
pub(crate) enum Broken {
    /// They are no call of the API.
    #[error("the bytes are no call")]
    BadCall,
    /// Memory ran out.
    #[error("out of memory")]
    NoMemory,
}

impl From<AllocError> for Broken {
    fn from(_error: AllocError) -> Broken {
        Broken::NoMemory
    }
}

impl<T: Drop> From<AllocFailed<T>> for Broken {
    fn from(_error: AllocFailed<T>) -> Broken {
        Broken::NoMemory
    }
}

impl From<FrameFault> for Broken {
    fn from(_error: FrameFault) -> Broken {
        Broken::BadCall
    }
}

impl From<HpackFault> for Broken {
    fn from(error: HpackFault) -> Broken {
        match error {
            HpackFault::NoMemory => Broken::NoMemory,
            _ => Broken::BadCall,
        }
    }
}

impl From<MessageFault> for Broken {
    fn from(error: MessageFault) -> Broken {
        match error {
            MessageFault::NoMemory => Broken::NoMemory,
            _ => Broken::BadCall,
        }
    }
}
