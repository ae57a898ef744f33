//! Why a path has no digest.

ghost use Rattle.std.specs.Prelude.{◌≡◌};
ghost use Rattle.rx_digest_cache.specs.declared.cache_fault.CacheFault.TheVariants.{SourceFault as source_fault};
ghost use Rattle.rx_digest_cache.specs.Cache.{fault_of};

use rx_world::{Failed, Look, Refused};
use thiserror::Error;

/// Why a path has no digest.
#[derive(Clone, Copy, Debug, PartialEq, Eq, Error)]
pub enum CacheFault {
    /// What stands at the path isn't a file.
    #[error("not a file")]
    NotFile { look: Look },
    /// The source tree failed, and its count of faults rose.
    #[error("the source tree failed")]
    SourceFault,
    /// Memory ran out for the bytes of a file. Want of memory for an entry of the cache is no fault.
    #[error("out of memory")]
    NoMemory,
}

impl From<Failed> for CacheFault {
    ghost from_gives = { λ _ e. e ≡ source_fault };

    fn from(_error: Failed) -> CacheFault {
        CacheFault::SourceFault
    }
}

impl From<Refused> for CacheFault {
    ghost from_gives = { λ refused e. e ≡ fault_of refused };

    fn from(refused: Refused) -> CacheFault {
        match refused {
            Refused::Failed => CacheFault::SourceFault,
            Refused::NoMemory => CacheFault::NoMemory,
        }
    }
}
