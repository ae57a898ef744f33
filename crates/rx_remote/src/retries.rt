//! Which faults are asked again, and how often.

ghost use Rattle.std.specs.Prelude.{◌≡◌};
ghost use Rattle.rx_remote.specs.Faults.{has_code, is_no_memory, is_own, is_retried, is_retried_code, is_run_again, lacked_blobs};
ghost use Rattle.rx_remote.specs.History.{asks_again, runs_again};

use crate::{Marks, Phase};
use rx_world::CallFault;

/// So many faults end an attempt.
pub const MAX_FAULTS: usize = 4;

/// So many states of executions that aren't done end an attempt.
pub const MAX_WAITS: u32 = 10_000;

/// The statuses of `google/rpc/code.proto` that are asked again: CANCELLED, UNKNOWN,
/// DEADLINE_EXCEEDED, RESOURCE_EXHAUSTED, ABORTED, INTERNAL, UNAVAILABLE.
const CANCELLED: u32 = 1;

const UNKNOWN: u32 = 2;

const DEADLINE_EXCEEDED: u32 = 4;

const RESOURCE_EXHAUSTED: u32 = 8;

const ABORTED: u32 = 10;

const INTERNAL: u32 = 13;

const UNAVAILABLE: u32 = 14;

/// NOT_FOUND: the farm knows no such operation, or lacks a blob.
pub(crate) const NOT_FOUND: u32 = 5;

/// FAILED_PRECONDITION: the farm lacks a blob of the action.
pub(crate) const FAILED_PRECONDITION: u32 = 9;

/// Whether memory ran out.
pub(crate) fn is_no_memory(fault: CallFault) -> bool
    ensures { result ≡ is_no_memory fault }
{
    matches!(fault, CallFault::NoMemory)
}

/// Whether a call that ended with this status is asked again, whatever was asked.
#[tactic(auto, unfolding(crate::specs::Faults::is_retried_code))]
fn is_retried_code(code: u32) -> bool
    ensures { result ≡ is_retried_code code }
{
    code == CANCELLED
        || code == UNKNOWN
        || code == DEADLINE_EXCEEDED
        || code == RESOURCE_EXHAUSTED
        || code == ABORTED
        || code == INTERNAL
        || code == UNAVAILABLE
}

/// Whether a call with this fault is asked again, whatever was asked.
fn is_retried(fault: CallFault) -> bool
    ensures { result ≡ is_retried fault }
{
    match fault {
        CallFault::Status(code) => is_retried_code(code),
        CallFault::Link | CallFault::Cut | CallFault::NoStatus => true,
        _ => false,
    }
}

/// Whether a call ended with this status.
pub(crate) fn has_code(wanted: u32, fault: CallFault) -> bool
    ensures { result ≡ has_code wanted fault }
{
    match fault {
        CallFault::Status(code) => code == wanted,
        _ => false,
    }
}

/// Whether a fault is asked again after this ask alone.
fn is_own(phase: Phase, fault: CallFault) -> bool
    ensures { result ≡ is_own phase fault }
{
    match phase {
        Phase::Execute | Phase::NextOperation => has_code(FAILED_PRECONDITION, fault),
        Phase::Wait => has_code(NOT_FOUND, fault),
        _ => false,
    }
}

/// Whether an action whose execution is over with this status is executed again. Its own timeout
/// isn't waited for twice.
#[tactic(auto, unfolding(crate::specs::Faults::is_run_again))]
fn is_run_again(code: u32) -> bool
    ensures { result ≡ is_run_again code }
{
    is_retried_code(code) && code != DEADLINE_EXCEEDED
}

/// Whether an execution that is over with this status lacked blobs.
#[tactic(auto, unfolding(crate::specs::Faults::lacked_blobs))]
pub(crate) fn lacked_blobs(code: u32) -> bool
    ensures { result ≡ lacked_blobs code }
{
    code == FAILED_PRECONDITION || code == NOT_FOUND
}

/// Whether the action is executed again after an execution that is over with this status. The marks
/// have the fault already.
pub(crate) fn runs_again(marks: &Marks, code: u32) -> bool
    ensures { result ≡ runs_again marks.now code }
{
    marks.faults.len() < MAX_FAULTS && (is_run_again(code) || lacked_blobs(code))
}

/// Whether an ask that failed so is asked again. The marks have the fault already.
pub(crate) fn asks_again(marks: &Marks, phase: Phase, fault: CallFault) -> bool
    ensures { result ≡ asks_again marks.now phase fault }
{
    marks.faults.len() < MAX_FAULTS && (is_retried(fault) || is_own(phase, fault))
}
