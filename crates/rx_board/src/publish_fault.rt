//! Why a publication isn't whole.

ghost use Rattle.std.specs.Prelude.{◌≡◌};

use crate::Receipt;
use std::alloc::AllocError;
use thiserror::Error;

/// Why a publication isn't whole. All but `PlaceFault` come before the first file is placed, and
/// leave all as it was.
#[derive(Clone, Copy, Debug, PartialEq, Eq, Error)]
pub enum PublishFault {
    /// The place failed at the file after the first `placed` ones. The publication has its entry.
    #[error("the place failed after {placed} files")]
    PlaceFault { receipt: Receipt, placed: u64 },
    /// The journal has as many entries as it may have.
    #[error("the journal has {limit} entries and takes no more")]
    JournalFull { limit: u64 },
    /// Memory ran out.
    #[error("out of memory")]
    NoMemory,
}

impl From<AllocError> for PublishFault {
    ghost use Rattle.rx_board.specs.declared.publish_fault.PublishFault.TheVariants.{NoMemory};

    ghost from_gives = { λ _ fault. fault ≡ NoMemory };

    fn from(_error: AllocError) -> PublishFault {
        PublishFault::NoMemory
    }
}
