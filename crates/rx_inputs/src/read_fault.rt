//! Why a file of the inputs can't be read as it was gathered.

use rx_base::RelPath;
use rx_world::ChangedInput;
use thiserror::Error;

/// Why a file of the inputs can't be read as it was gathered.
#[derive(Debug, Drop, Error)]
pub enum ReadFault {
    /// What was gathered of the file, and what was read of it now, differ.
    #[error("an input is no longer as it was gathered")]
    InputChanged(ChangedInput),
    /// The source tree failed at this path, and its count of faults rose.
    #[error("the source tree failed")]
    SourceFault { path: RelPath },
    /// Memory ran out.
    #[error("out of memory")]
    NoMemory,
}
