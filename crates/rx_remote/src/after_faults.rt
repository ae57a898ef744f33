//! What follows a fault: the same ask again, another one, or the end.

ghost use Rattle.std.specs.Prelude.{◌≡◌, IfOk};
ghost use Rattle.rx_world.specs.declared.remote_causes.RemoteCause.TheVariants as causes;
ghost use Rattle.rx_remote.specs.History.{after_blobs, after_fault, after_missing, after_over, again, by_name, counts_as_miss, fetch_again, failed, skips_by};

use crate::retries::{
    FAILED_PRECONDITION, MAX_FAULTS, NOT_FOUND, asks_again, has_code, is_no_memory, lacked_blobs,
    runs_again,
};
use crate::{Ask, Found, Marks, Phase, Task};
use rx_base::{Items, NoMemory, TryClone};
use rx_blobs::BlobFault;
use rx_world::{CallFault, End, RemoteCause};
use std::alloc::Global;

/// The end for this cause.
pub(crate) fn failed(cause: RemoteCause) -> Ask
    ensures { result ≡ failed cause }
{
    Ask::End {
        end: End::Failed { cause },
    }
}

/// Whether the farm is asked not to answer from its action cache.
pub(crate) fn skips(accept_cached: bool, missed: bool) -> bool
    ensures { result ≡ skips_by accept_cached missed }
{
    !accept_cached || missed
}

/// The end with these faults.
fn call_failed(alloc: Global, marks: &Marks) -> Result<Ask, NoMemory>
    ensures { IfOk result (λ ask. ask ≡ failed (causes.CallFailed marks.now.faults)) }
{
    Ok(failed(RemoteCause::CallFailed {
        faults: marks.faults.try_clone(alloc)?,
    }))
}

/// Waits for the execution that was named last, or executes again where none was named.
fn by_name(alloc: Global, task: &Task, marks: &Marks) -> Result<Ask, NoMemory>
    ensures { IfOk result (λ ask. ask ≡ by_name task.now marks.now marks.now.name) }
{
    if marks.name.is_empty() {
        return Ok(Ask::Execute {
            skip_cache: skips(task.accept_cached, marks.missed),
        });
    }
    Ok(Ask::Wait {
        name: marks.name.try_clone(alloc)?,
    })
}

/// Asks once more for what the last result needs.
fn fetch_again(alloc: Global, found: &Option<Found>) -> Result<Ask, NoMemory>
    ensures { IfOk result (λ ask. ask ≡ fetch_again found.now) }
{
    let digests = match found {
        None => Items::new(alloc),
        Some(found) => found.reading.wanted(alloc)?,
    };
    Ok(Ask::Fetch { digests })
}

/// What is asked after a fault that is asked again.
fn again(
    alloc: Global,
    task: &Task,
    marks: &Marks,
    phase: Phase,
    fault: CallFault,
) -> Result<Ask, NoMemory>
    ensures { IfOk result (λ ask. ask ≡ again task.now marks.now phase fault) }
{
    match phase {
        Phase::Capabilities => Ok(Ask::Capabilities),
        Phase::GetResult => Ok(Ask::GetResult),
        Phase::Upload { fresh } => Ok(Ask::Upload { fresh }),
        Phase::Execute => {
            if has_code(FAILED_PRECONDITION, fault) {
                return Ok(Ask::Upload { fresh: true });
            }
            let skip_cache = skips(task.accept_cached, marks.missed);
            Ok(Ask::Execute { skip_cache })
        }
        Phase::NextOperation => {
            if has_code(FAILED_PRECONDITION, fault) {
                return Ok(Ask::Upload { fresh: true });
            }
            by_name(alloc, task, marks)
        }
        Phase::Wait => {
            if has_code(NOT_FOUND, fault) {
                let skip_cache = skips(task.accept_cached, marks.missed);
                return Ok(Ask::Execute { skip_cache });
            }
            by_name(alloc, task, marks)
        }
        Phase::Fetch => fetch_again(alloc, &marks.found),
        Phase::Ended => Ok(failed(RemoteCause::NoMemory)),
    }
}

/// What is asked after a fault, which the marks have already.
#[tactic(auto, unfolding(crate::specs::History::after_fault))]
pub(crate) fn after_fault(
    alloc: Global,
    task: &Task,
    marks: &Marks,
    phase: Phase,
    fault: CallFault,
) -> Result<Ask, NoMemory>
    ensures { IfOk result (λ ask. ask ≡ after_fault task.now marks.now phase fault) }
{
    if is_no_memory(fault) {
        return Ok(failed(RemoteCause::NoMemory));
    }
    if asks_again(marks, phase, fault) {
        return again(alloc, task, marks, phase, fault);
    }
    call_failed(alloc, marks)
}

/// What is asked after an execution that is over with this status, which the marks have already. It
/// is done, so it isn't waited for.
#[tactic(auto, unfolding(crate::specs::History::after_over))]
pub(crate) fn after_over(
    alloc: Global,
    task: &Task,
    marks: &Marks,
    code: u32,
) -> Result<Ask, NoMemory>
    ensures { IfOk result (λ ask. ask ≡ after_over task.now marks.now code) }
{
    if !runs_again(marks, code) {
        return call_failed(alloc, marks);
    }
    if lacked_blobs(code) {
        return Ok(Ask::Upload { fresh: true });
    }
    let skip_cache = skips(task.accept_cached, marks.missed);
    Ok(Ask::Execute { skip_cache })
}

/// Whether a blob that is missing makes the cached result that needs it a miss.
fn counts_as_miss(marks: &Marks, phase: Phase) -> bool
    ensures { result ≡ counts_as_miss marks.now phase }
{
    marks.faults.len() < MAX_FAULTS && (matches!(phase, Phase::Fetch) && marks.is_cached())
}

/// What is asked after a blob that is missing.
#[tactic(auto, unfolding(crate::specs::History::after_missing))]
fn after_missing(alloc: Global, marks: &Marks, phase: Phase) -> Result<Ask, NoMemory>
    ensures { IfOk result (λ ask. ask ≡ after_missing marks.now phase) }
{
    if counts_as_miss(marks, phase) {
        return Ok(Ask::Upload { fresh: false });
    }
    call_failed(alloc, marks)
}

/// What is asked after an upload or a fetch that failed.
pub(crate) fn after_blobs(
    alloc: Global,
    task: &Task,
    marks: &Marks,
    phase: Phase,
    fault: BlobFault,
) -> Result<Ask, NoMemory>
    ensures { IfOk result (λ ask. ask ≡ after_blobs task.now marks.now phase fault) }
{
    match fault {
        BlobFault::Call(fault) => after_fault(alloc, task, marks, phase, fault),
        BlobFault::Missing(_) => after_missing(alloc, marks, phase),
        BlobFault::Refused(_, _) => call_failed(alloc, marks),
        BlobFault::BadBlob { expected, got } => Ok(failed(RemoteCause::BadBlob { expected, got })),
        BlobFault::InputChanged(input) => Ok(failed(RemoteCause::InputChanged(input))),
        BlobFault::SourceFault { path } => Ok(failed(RemoteCause::SourceFault { path })),
        BlobFault::NoMemory => Ok(failed(RemoteCause::NoMemory)),
    }
}
