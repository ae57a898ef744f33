//! Why nothing is asked for.

ghost use Rattle.std.specs.Prelude.{◌≡◌};
ghost use Rattle.rx_client.specs.Asking.{config_fault_of, usage_fault_of};
ghost use Rattle.rx_client.specs.declared.ask_fault.AskFault.TheVariants.{NoMemory};

use rx_base::Text;
use rx_world::Refused;
use rx_wrap::UsageFault;
use std::alloc::AllocError;
use thiserror::Error;

/// Why a client asks for nothing.
#[derive(Debug, Drop, Error)]
pub(crate) enum AskFault {
    /// The word, name or line that can't be read.
    #[error("bad flag")]
    Usage(Text),
    /// The configuration file can't be read.
    #[error("no config")]
    Config,
    #[error("out of memory")]
    NoMemory,
}

impl From<UsageFault> for AskFault {
    ghost from_gives = { λ fault told. told ≡ usage_fault_of fault };

    fn from(fault: UsageFault) -> AskFault {
        match fault {
            UsageFault::Word(word) => AskFault::Usage(word),
            UsageFault::NoMemory => AskFault::NoMemory,
        }
    }
}

impl From<Refused> for AskFault {
    ghost from_gives = { λ refused told. told ≡ config_fault_of refused };

    fn from(refused: Refused) -> AskFault {
        match refused {
            Refused::Failed => AskFault::Config,
            Refused::NoMemory => AskFault::NoMemory,
        }
    }
}

impl From<AllocError> for AskFault {
    ghost from_gives = { λ _ told. told ≡ NoMemory };

    fn from(_error: AllocError) -> AskFault {
        AskFault::NoMemory
    }
}
