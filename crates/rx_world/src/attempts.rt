//! Attempts to run a command, and how they end.

ghost use Rattle.std.specs.Prelude.{◌≡◌, IfOk};

use crate::{ChangedInput, Decision, KeptOutcome, OutputLimit, RemoteCause};
use rx_base::{NoMemory, RelPath, TryClone};
use std::alloc::Global;

/// Where an attempt runs.
#[derive(Clone, Copy, Debug, PartialEq, Eq)]
pub enum Attempt {
    /// In a staged directory of this machine.
    Local,
    /// On the farm.
    Remote,
}

/// Which attempts a session makes of a command, and when.
#[derive(Clone, Copy, Debug, PartialEq, Eq)]
pub enum Plan {
    /// The local attempt alone.
    LocalOnly,
    /// The remote attempt alone.
    RemoteOnly,
    /// The remote attempt, and the local one where that ended without what may be published.
    Fallback,
    /// Both at once.
    Both,
}

/// Where an outcome comes from.
#[derive(Clone, Copy, Debug, PartialEq, Eq)]
pub enum Origin {
    /// A run on this machine.
    Local,
    /// A run on the farm.
    Remote,
    /// The farm's action cache.
    Cache,
}

/// The step of a local attempt at which its bench failed.
#[derive(Clone, Copy, Debug, PartialEq, Eq)]
pub enum BenchStep {
    Make,
    MakeDir,
    Put,
    Run,
    Take,
}

/// Why a local attempt has no outcome.
#[derive(Debug, Drop)]
pub enum Cause {
    /// The bench failed at this step, and the bench maker's count of faults rose.
    BenchFault { step: BenchStep },
    /// The command ended with code 0 and left no regular file at this output, the least such.
    OutputMissing { path: RelPath },
    /// What was gathered of an input, and what the attempt read, differ.
    InputChanged(ChangedInput),
    /// What the command wrote has `n` bytes, more than this limit allows.
    OutputTooLarge { limit: OutputLimit, n: u64 },
    /// The attempt's source tree failed at this path, and its count of faults rose.
    SourceFault { path: RelPath },
    /// The race of the request's attempts was seen decided.
    Stopped { decision: Decision },
    /// Memory ran out.
    NoMemory,
}

/// How an attempt ended. The outcome is whole while the attempt's thread has it, and kept by
/// digests in a transcript; the causes are those of a local or of a remote attempt.
#[derive(Debug, Drop)]
pub enum End<O, C> {
    Done { outcome: O, origin: Origin },
    Failed { cause: C },
}

/// The end of one attempt, as a transcript keeps it.
#[derive(Debug, Drop)]
pub enum Ended {
    Local { end: End<KeptOutcome, Cause> },
    Remote { end: End<KeptOutcome, RemoteCause> },
}

/// An attempt that has no outcome which may be published, as a reply tells it.
#[derive(Debug, Drop)]
pub enum Failure {
    Local { cause: Cause },
    Remote { cause: RemoteCause },
    /// The command ended on the farm with this code, which isn't 0, and a local attempt was planned.
    NonZero { exit: i32 },
}

impl TryClone for Cause {
    fn try_clone(&self, alloc: Global) -> Result<Cause, NoMemory> {
        match self {
            Cause::BenchFault { step } => Ok(Cause::BenchFault { step: *step }),
            Cause::OutputMissing { path } => Ok(Cause::OutputMissing {
                path: path.try_clone(alloc)?,
            }),
            Cause::InputChanged(input) => Ok(Cause::InputChanged(input.try_clone(alloc)?)),
            Cause::OutputTooLarge { limit, n } => Ok(Cause::OutputTooLarge {
                limit: *limit,
                n: *n,
            }),
            Cause::SourceFault { path } => Ok(Cause::SourceFault {
                path: path.try_clone(alloc)?,
            }),
            Cause::Stopped { decision } => Ok(Cause::Stopped {
                decision: *decision,
            }),
            Cause::NoMemory => Ok(Cause::NoMemory),
        }
    }
}
