//! Why a remote attempt has no outcome.

ghost use Rattle.std.specs.Prelude.{◌≡◌, IfOk};

use crate::{CallFault, ChangedInput, Decision, SemVer};
use rx_base::{Digest, Items, NoMemory, RelPath, TryClone};
use std::alloc::Global;

/// What is wrong with a result of the farm: the first of these, in this order.
#[derive(Clone, Copy, Debug, PartialEq, Eq)]
pub enum ResultFault {
    /// The response has no result.
    NoResult,
    /// Two of its paths are one output of the command.
    PathTwice,
    /// At code 0 an output isn't there, or is a directory or a link.
    OutputAbsent,
    /// At code 0 an output has no digest.
    NoDigest,
    /// A file, all files together or a text have more bytes than they may have.
    TooLarge,
}

/// Why a remote attempt has no outcome.
#[derive(Debug, Drop)]
pub enum RemoteCause {
    /// Calls failed with these faults, in order: four, or the last is one that isn't asked again.
    CallFailed { faults: Items<CallFault> },
    /// The farm gave other bytes than those of the digest that was asked for.
    BadBlob { expected: Digest, got: Digest },
    /// The farm's result has this fault.
    BadResult { fault: ResultFault },
    /// 10,000 states of the operation were heard, and it wasn't done.
    OperationsSpent,
    /// The race of the request's attempts was seen decided.
    Stopped { decision: Decision },
    /// What was gathered of an input, and what the attempt read, differ.
    InputChanged(ChangedInput),
    /// The farm serves these versions of the API, the lowest and the highest, and 2 isn't among them.
    WrongVersion { low: SemVer, high: SemVer },
    /// The attempt's source tree failed at this path, and its count of faults rose.
    SourceFault { path: RelPath },
    /// Memory ran out.
    NoMemory,
}

impl TryClone for RemoteCause {
    fn try_clone(&self, alloc: Global) -> Result<RemoteCause, NoMemory> {
        match self {
            RemoteCause::CallFailed { faults } => Ok(RemoteCause::CallFailed {
                faults: faults.try_clone(alloc)?,
            }),
            RemoteCause::BadBlob { expected, got } => Ok(RemoteCause::BadBlob {
                expected: *expected,
                got: *got,
            }),
            RemoteCause::BadResult { fault } => Ok(RemoteCause::BadResult { fault: *fault }),
            RemoteCause::OperationsSpent => Ok(RemoteCause::OperationsSpent),
            RemoteCause::Stopped { decision } => Ok(RemoteCause::Stopped {
                decision: *decision,
            }),
            RemoteCause::InputChanged(input) => {
                Ok(RemoteCause::InputChanged(input.try_clone(alloc)?))
            }
            RemoteCause::WrongVersion { low, high } => Ok(RemoteCause::WrongVersion {
                low: *low,
                high: *high,
            }),
            RemoteCause::SourceFault { path } => Ok(RemoteCause::SourceFault {
                path: path.try_clone(alloc)?,
            }),
            RemoteCause::NoMemory => Ok(RemoteCause::NoMemory),
        }
    }
}
