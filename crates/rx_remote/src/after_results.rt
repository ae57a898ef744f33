//! What follows a result of the farm: the end, or the fetch of what it needs.

ghost use Rattle.std.specs.Prelude.{◌≡◌, ◌≢◌, IfOk, Some};
ghost use Rattle.rx_base.specs.SortedPaths.{AreSorted};
ghost use Rattle.rx_remote.specs.declared.asks.Ask.TheVariants as asks;
ghost use Rattle.rx_remote.specs.declared.asks.Heard.TheVariants as heard;
ghost use Rattle.rx_remote.specs.declared.phases.Phase.TheVariants as phases;
ghost use Rattle.rx_remote.specs.History.{after_response, blamed, done, fetched_or_done, judged, next_or_spent};
ghost use Rattle.rx_remote.specs.Marks.{found_as, found_in_done, one_wait_more, origin_of, phase_of, with_found};
ghost use Rattle.rx_remote.specs.States.{Leads};

use crate::after_faults::failed;
use crate::retries::MAX_WAITS;
use crate::{Ask, Found, Marks, Task};
use rx_base::{Bytes, Digest, Items, NoMemory};
use rx_exec_messages::{ExecuteResponse, Operation};
use rx_messages::ActionResult;
use rx_results::FarmResult;
use rx_world::{End, Origin, RemoteCause, ResultFault};
use std::alloc::Global;

/// What is wrong with a result: a fault, or contents that haven't the digest that it names.
fn blame(reading: &FarmResult) -> Option<RemoteCause>
    ensures { result ≡ blamed reading.now.command reading.now.result }
{
    if let Some(fault) = reading.fault() {
        return Some(RemoteCause::BadResult { fault });
    }
    match reading.spoiled() {
        None => None,
        Some(bad) => Some(RemoteCause::BadBlob {
            expected: bad.expected,
            got: bad.got,
        }),
    }
}

/// The end with the outcome of a result and the texts that were fetched for it.
fn done(alloc: Global, found: Found, texts: Items<Bytes>) -> Result<Ask, NoMemory>
    ensures { IfOk result (λ ask. ask ≡ done found texts) }
{
    let Found { reading, origin } = found;
    let outcome = reading.outcome(alloc, texts)?;
    Ok(Ask::End {
        end: End::Done { outcome, origin },
    })
}

/// The fetch of what a result needs.
fn fetch(marks: Marks, found: Found, digests: Items<Digest>) -> (Marks, Ask)
    ensures marks { result.0 ≡ with_found marks (Some found) }
    ensures ask { result.1 ≡ asks.Fetch digests }
{
    let mut marks = marks;
    marks.found = Some(found);
    (marks, Ask::Fetch { digests })
}

/// What a result leads to with which nothing is wrong.
fn after_sound(alloc: Global, marks: Marks, found: Found) -> Result<(Marks, Ask), NoMemory>
    ensures ask { IfOk result (λ next. next.1 ≡ fetched_or_done found) }
    ensures marks { IfOk result (λ next. phase_of next.1 ≢ phases.Ended →
        next.0 ≡ with_found marks (Some found)) }
{
    let digests = found.reading.wanted(alloc)?;
    if digests.is_empty() {
        let ask = done(alloc, found, Items::new(alloc))?;
        return Ok((marks, ask));
    }
    Ok(fetch(marks, found, digests))
}

/// What a result leads to.
#[tactic(auto, unfolding(crate::specs::History::judged))]
pub(crate) fn after_result(
    alloc: Global,
    task: &Task,
    marks: Marks,
    given: ActionResult,
    origin: Origin,
) -> Result<(Marks, Ask), NoMemory>
    requires { AreSorted task.now.command.outputs }
    ensures ask { IfOk result (λ next. next.1 ≡ judged task.now.command given origin) }
    ensures marks { IfOk result (λ next. phase_of next.1 ≢ phases.Ended →
        next.0 ≡ with_found marks (Some (found_as task.now.command origin given))) }
{
    let reading = FarmResult::new(alloc, &task.command, given)?;
    match blame(&reading) {
        Some(cause) => Ok((marks, failed(cause))),
        None => after_sound(alloc, marks, Found { reading, origin }),
    }
}

/// Where an executed result comes from, by the farm's own word.
fn origin_of(cached_result: bool) -> Origin
    ensures { result ≡ origin_of cached_result }
{
    if cached_result {
        return Origin::Cache;
    }
    Origin::Remote
}

/// What the end of an execution leads to.
fn after_response(
    alloc: Global,
    task: &Task,
    marks: Marks,
    response: ExecuteResponse,
) -> Result<(Marks, Ask), NoMemory>
    requires { AreSorted task.now.command.outputs }
    ensures ask { IfOk result (λ next. next.1 ≡ after_response task.now
        (origin_of response.cached_result) response.result) }
    ensures marks { IfOk result (λ next. phase_of next.1 ≢ phases.Ended → next.0
        ≡ with_found marks (found_in_done task.now.command (Some response) marks.found)) }
{
    let ExecuteResponse {
        result,
        cached_result,
        ..
    } = response;
    match result {
        None => {
            let fault = ResultFault::NoResult;
            Ok((marks, failed(RemoteCause::BadResult { fault })))
        }
        Some(given) => after_result(alloc, task, marks, given, origin_of(cached_result)),
    }
}

/// One state more of an execution that isn't done.
fn after_state(marks: Marks) -> (Marks, Ask)
    ensures ask { result.1 ≡ next_or_spent (one_wait_more marks) }
    ensures marks { phase_of result.1 ≢ phases.Ended → result.0 ≡ one_wait_more marks }
{
    if marks.waits >= MAX_WAITS - 1 {
        return (marks, failed(RemoteCause::OperationsSpent));
    }
    let mut marks = marks;
    marks.waits += 1;
    (marks, Ask::NextOperation)
}

/// What a state of an execution leads to.
pub(crate) fn after_operation(
    alloc: Global,
    task: &Task,
    marks: Marks,
    operation: Operation,
) -> Result<(Marks, Ask), NoMemory>
    requires { AreSorted task.now.command.outputs }
    ensures { IfOk result (λ next. Leads task.now marks phases.NextOperation
        (heard.Next operation) next.0 next.1) }
{
    let Operation { name, done } = operation;
    let marks = marks.with_name(name);
    match done {
        None => Ok(after_state(marks)),
        Some(response) => after_response(alloc, task, marks, response),
    }
}

/// The end, where what a result needs was fetched.
pub(crate) fn after_texts(
    alloc: Global,
    task: &Task,
    marks: Marks,
    texts: Items<Bytes>,
) -> Result<(Marks, Ask), NoMemory>
    ensures { IfOk result (λ next. Leads task.now marks phases.Fetch
        (heard.Fetched texts) next.0 next.1) }
{
    let mut marks = marks;
    match marks.found.take() {
        None => Ok((marks, failed(RemoteCause::NoMemory))),
        Some(found) => {
            let ask = done(alloc, found, texts)?;
            Ok((marks, ask))
        }
    }
}
