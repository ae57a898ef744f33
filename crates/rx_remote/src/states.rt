//! The state of a remote attempt, and its one step.

ghost use Rattle.std.specs.Prelude.{◌≡◌, [], IfErr, IfOk, List, None};
ghost use Rattle.rx_base.specs.SortedPaths.{AreSorted};
ghost use Rattle.rx_remote.specs.declared.tasks.Task.{Task as AnyTask};
ghost use Rattle.rx_remote.specs.declared.asks.Ask.TheVariants as asks;
ghost use Rattle.rx_remote.specs.declared.asks.Heard.TheVariants as heard;
ghost use Rattle.rx_remote.specs.declared.phases.Phase.TheVariants as phases;
ghost use Rattle.rx_remote.specs.Ends.{stop_heard};
ghost use Rattle.rx_remote.specs.Fine.{IsRightAfter, IsSoundAfter};
ghost use Rattle.rx_remote.specs.History.{after_range, skips};
ghost use Rattle.rx_remote.specs.Marks.{Turn, is_missing};
ghost use Rattle.rx_remote.specs.States.{IsStateOf, IsStep, Leads};

use crate::after_faults::{after_blobs, after_fault, after_over, failed, skips};
use crate::after_results::{after_operation, after_result, after_texts};
use crate::marks::{add_blobs, add_fault};
use crate::phases::phase_of;
use crate::{Ask, Heard, Marks, Phase, Task};
use rx_base::{Items, NoMemory, Text};
use rx_blobs::BlobFault;
use rx_exec_messages::Capabilities;
use rx_world::{CallFault, Origin, RemoteCause};
use std::alloc::Global;

/// The state of an attempt: what its history shows, and which ask waits for its answer.
#[derive(Drop)]
pub struct RemoteState {
    pub task: Task,
    pub marks: Marks,
    pub phase: Phase,
}

impl RemoteState {
    /// The state before any ask was made. The first ask is that for the farm's capabilities.
    pub fn new(alloc: Global, task: Task) -> RemoteState
        ensures { IsStateOf task [] result }
    {
        RemoteState {
            task,
            marks: Marks {
                faults: Items::new(alloc),
                name: Text::new(alloc),
                missed: false,
                waits: 0,
                found: None,
            },
            phase: Phase::Capabilities,
        }
    }
}

/// The ask that follows an answer to the ask that the state waits for, or the end, with the state
/// after it. The ask is a function of the whole history: what was asked and heard so far.
pub fn step(alloc: Global, state: RemoteState, heard: Heard) -> Result<(RemoteState, Ask), NoMemory>
    requires { AreSorted state.task.command.outputs }
    ensures step { IfOk result (λ next. (task : AnyTask) (history : List Turn) →
        IsStateOf task history state → IsStep task history heard next.0 next.1) }
    // Whatever the farm told, a Done is proper and within the limits.
    ensures sound { IfOk result (λ next. (task : AnyTask) (history : List Turn) →
        IsStateOf task history state → IsSoundAfter task history heard next.1) }
    // Where the farm was honest, a Done is the clean run, and no end blames a result or a blob.
    ensures right { IfOk result (λ next. (task : AnyTask) (history : List Turn) →
        IsStateOf task history state → IsRightAfter task history heard next.1) }
    // A stop ends the attempt, whatever memory there is.
    ensures stops { IfErr result (λ error. stop_heard heard ≡ None) }
{
    let RemoteState { task, marks, phase } = state;
    let marks = marks.since(alloc, phase);
    let (marks, ask) = after(alloc, &task, marks, phase, heard)?;
    let phase = phase_of(&ask);
    Ok((RemoteState { task, marks, phase }, ask))
}

/// What was heard leads to an ask.
fn after(
    alloc: Global,
    task: &Task,
    marks: Marks,
    phase: Phase,
    heard: Heard,
) -> Result<(Marks, Ask), NoMemory>
    requires { AreSorted task.now.command.outputs }
    ensures leads { IfOk result (λ next. Leads task.now marks phase heard next.0 next.1) }
    ensures stops { IfErr result (λ error. stop_heard heard ≡ None) }
{
    match heard {
        Heard::Told(capabilities) => Ok((marks, after_range(task.accept_cached, capabilities))),
        Heard::Cached(None) => Ok((marks, Ask::Upload { fresh: false })),
        Heard::Cached(Some(given)) => after_result(alloc, task, marks, given, Origin::Cache),
        Heard::Uploaded(_) => Ok(after_upload(task, marks)),
        Heard::Begun => Ok((marks, Ask::NextOperation)),
        Heard::Next(operation) => after_operation(alloc, task, marks, operation),
        Heard::Fetched(texts) => after_texts(alloc, task, marks, texts),
        Heard::Fault(fault) => after_call(alloc, task, marks, phase, fault),
        Heard::Over(code) => after_failure(alloc, task, marks, code),
        Heard::Blobs(fault) => after_transfer(alloc, task, marks, phase, fault),
        Heard::Stopped(decision) => Ok((marks, failed(RemoteCause::Stopped { decision }))),
    }
}

/// The blobs are stored: the action is executed.
fn after_upload(task: &Task, marks: Marks) -> (Marks, Ask)
    ensures marks { result.0 ≡ marks }
    ensures ask { result.1 ≡ asks.Execute (skips task.now marks) }
{
    let skip_cache = skips(task.accept_cached, marks.missed);
    (marks, Ask::Execute { skip_cache })
}

/// What a call that failed leads to.
fn after_call(
    alloc: Global,
    task: &Task,
    marks: Marks,
    phase: Phase,
    fault: CallFault,
) -> Result<(Marks, Ask), NoMemory>
    ensures { IfOk result (λ next. Leads task.now marks phase (heard.Fault fault) next.0 next.1) }
{
    let mut marks = marks;
    add_fault(&mut marks.faults, fault)?;
    let ask = after_fault(alloc, task, &marks, phase, fault)?;
    Ok((marks, ask))
}

/// What an execution that is over leads to, which failed with this status.
fn after_failure(
    alloc: Global,
    task: &Task,
    marks: Marks,
    code: u32,
) -> Result<(Marks, Ask), NoMemory>
    ensures { IfOk result (λ next. Leads task.now marks phases.NextOperation
        (heard.Over code) next.0 next.1) }
{
    let mut marks = marks;
    add_fault(&mut marks.faults, CallFault::Status(code))?;
    let ask = after_over(alloc, task, &marks, code)?;
    Ok((marks, ask))
}

/// What an upload or a fetch that failed leads to.
fn after_transfer(
    alloc: Global,
    task: &Task,
    marks: Marks,
    phase: Phase,
    fault: BlobFault,
) -> Result<(Marks, Ask), NoMemory>
    ensures { IfOk result (λ next. Leads task.now marks phase (heard.Blobs fault) next.0 next.1) }
{
    let mut marks = marks;
    add_blobs(&mut marks.faults, &fault)?;
    marks.missed = is_missing(&fault) || marks.missed;
    let ask = after_blobs(alloc, task, &marks, phase, fault)?;
    Ok((marks, ask))
}

/// What the farm's capabilities lead to: a farm that doesn't serve version 2 of the API is left.
fn after_range(accept_cached: bool, told: Capabilities) -> Ask
    ensures { result ≡ after_range accept_cached told.low told.high }
{
    if let (Some(low), Some(high)) = (told.low, told.high) {
        if low.major > API_MAJOR || high.major < API_MAJOR {
            return failed(RemoteCause::WrongVersion { low, high });
        }
    }
    if accept_cached {
        return Ask::GetResult;
    }
    Ask::Upload { fresh: false }
}

/// Whether a blob is missing.
fn is_missing(fault: &BlobFault) -> bool
    ensures { result ≡ is_missing fault.now }
{
    matches!(fault, BlobFault::Missing(_))
}

/// The version of the Remote Execution API that is spoken.
const API_MAJOR: i32 = 2;
