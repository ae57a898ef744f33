//! Why the files of a command can't be gathered.

ghost use Rattle.std.specs.Prelude.{◌≡◌};
ghost use Rattle.rx_scan.specs.declared.gather_fault.GatherFault.TheVariants.{NoMemory as no_memory};
ghost use Rattle.rx_scan.specs.GatherFault.{fault_of};

use rx_base::RelPath;
use rx_reach::SightFault;
use rx_world::{ChangedInput, Limit, LocalCause};
use std::alloc::{AllocError, AllocFailed};
use thiserror::Error;

/// Why the files of a command can't be gathered.
#[derive(Debug, Drop, Error)]
pub enum GatherFault {
    /// The first declared input, in the order of the paths, at which there is nothing.
    #[error("a declared input is missing")]
    InputMissing {
        path: RelPath,
    },
    /// The source tree failed at this path, and its count of faults rose.
    #[error("the source tree failed")]
    SourceFault {
        path: RelPath,
    },
    /// What the limit counts passes it. Of a number of files this is the limit and one, of bytes it
    /// is what there is. The path is that of a file that is too large, the least such.
    #[error("the files of the command pass a limit")]
    TooLarge {
        limit: Limit,
        n: u64,
        path: Option<RelPath>,
    },
    /// Two values of one path that differ: two looks, two contents, or a file with something below.
    #[error("an input changed")]
    InputChanged(ChangedInput),
    /// The command is kept here, and there is no plan for that: it is to run remotely, or its client
    /// runs it.
    #[error("the command is kept here without a plan")]
    NotRemotable {
        cause: LocalCause,
    },
    /// A file stands at or above the working directory, or above an output.
    #[error("a file stands in the way")]
    Blocked {
        path: RelPath,
    },
    #[error("out of memory")]
    NoMemory,
}

impl From<AllocError> for GatherFault {
    ghost from_gives = { λ _ e. e ≡ no_memory };

    fn from(_error: AllocError) -> GatherFault {
        GatherFault::NoMemory
    }
}

impl<T: Drop> From<AllocFailed<T>> for GatherFault {
    ghost from_gives = { λ _ e. e ≡ no_memory };

    fn from(_error: AllocFailed<T>) -> GatherFault {
        GatherFault::NoMemory
    }
}

impl From<SightFault> for GatherFault {
    ghost from_gives = { λ fault e. e ≡ fault_of fault };

    fn from(fault: SightFault) -> GatherFault {
        match fault {
            SightFault::SourceFault { path } => GatherFault::SourceFault { path },
            SightFault::InputChanged(change) => GatherFault::InputChanged(change),
            SightFault::NoMemory => GatherFault::NoMemory,
        }
    }
}
