//! Why a local attempt has no outcome, in a reply.

ghost use Rattle.std.specs.Prelude.{◌≡◌, IfOk};
ghost use Rattle.rx_base.specs.Results.{Gives};
ghost use Rattle.rx_session.specs.Ends.{bare_end, bench_fault_of, changed_end, input_changed_of, local_cause_of, local_end, local_fields, output_limit_number, output_limit_of, output_missing_of, output_too_large_of, path_end, source_fault_of, step_number, step_of};
ghost use Rattle.rx_session.specs.Typed.{IsOwn, cause_is_typed};
ghost use Rattle.rx_session.specs.declared.reply_fault.ReplyFault.TheVariants.{NoMemory};

use crate::end_message::EndMessage;
use crate::fields::end;
use crate::path_texts::{path_text, read_path};
use crate::reply_fault::ReplyFault;
use crate::seen_values::{read_changed, seen_message};
use rx_base::{Bytes, NoMemory, RelPath, Text};
use rx_world::{BenchStep, Cause, ChangedInput, OutputLimit};
use std::alloc::Global;

/// A local attempt.
pub(crate) const LOCAL: u64 = 1;

/// The number of each cause.
const BENCH_FAULT: u64 = 1;

const OUTPUT_MISSING: u64 = 2;

const INPUT_CHANGED: u64 = 3;

const OUTPUT_TOO_LARGE: u64 = 4;

const SOURCE_FAULT: u64 = 5;

const STOPPED: u64 = 6;

const NO_MEMORY: u64 = 7;

/// An attempt's number and a cause's, and nothing beside them.
pub(crate) fn bare_end(alloc: Global, attempt: u64, cause: u64) -> EndMessage
    ensures { result ≡ bare_end attempt cause }
{
    EndMessage {
        attempt,
        cause,
        value: 0,
        path: Text::new(alloc),
        first: None,
        second: None,
        faults: Bytes::new(alloc),
        n: 0,
    }
}

fn step_number(step: BenchStep) -> u64
    ensures { result ≡ step_number step }
{
    match step {
        BenchStep::Make => 1,
        BenchStep::MakeDir => 2,
        BenchStep::Put => 3,
        BenchStep::Run => 4,
        BenchStep::Take => 5,
    }
}

fn step_of(number: u64) -> Result<BenchStep, ReplyFault>
    ensures { result ≡ step_of number }
{
    match number {
        1 => Ok(BenchStep::Make),
        2 => Ok(BenchStep::MakeDir),
        3 => Ok(BenchStep::Put),
        4 => Ok(BenchStep::Run),
        5 => Ok(BenchStep::Take),
        _ => Err(ReplyFault::BadReply),
    }
}

fn output_limit_number(limit: OutputLimit) -> u64
    ensures { result ≡ output_limit_number limit }
{
    match limit {
        OutputLimit::FileBytes => 6,
        OutputLimit::FilesBytes => 7,
        OutputLimit::TextBytes => 8,
    }
}

fn output_limit_of(number: u64) -> Result<OutputLimit, ReplyFault>
    ensures { result ≡ output_limit_of number }
{
    match number {
        6 => Ok(OutputLimit::FileBytes),
        7 => Ok(OutputLimit::FilesBytes),
        8 => Ok(OutputLimit::TextBytes),
        _ => Err(ReplyFault::BadReply),
    }
}

/// An input that changed: its path, and the two values that were seen.
pub(crate) fn changed_end(
    alloc: Global,
    attempt: u64,
    cause: u64,
    input: &ChangedInput,
) -> Result<EndMessage, NoMemory>
    ensures message { IfOk result (λ end. end ≡ changed_end attempt cause input.now) }
    ensures typed { IsOwn input.now.path }
{
    let path = path_text(alloc, &input.path)?;
    Ok(EndMessage {
        path,
        first: Some(seen_message(&input.first)),
        second: Some(seen_message(&input.second)),
        ..bare_end(alloc, attempt, cause)
    })
}

/// A path at fault.
pub(crate) fn path_end(
    alloc: Global,
    attempt: u64,
    cause: u64,
    path: &RelPath,
) -> Result<EndMessage, NoMemory>
    ensures message { IfOk result (λ end. end ≡ path_end attempt cause path.now) }
    ensures typed { IsOwn path.now }
{
    let path = path_text(alloc, path)?;
    Ok(EndMessage {
        path,
        ..bare_end(alloc, attempt, cause)
    })
}

/// The message of a local attempt that has no outcome.
pub(crate) fn local_end(alloc: Global, cause: &Cause) -> Result<EndMessage, NoMemory>
    ensures message { IfOk result (λ end. end ≡ local_end cause.now) }
    ensures typed { cause_is_typed cause.now }
{
    match cause {
        Cause::BenchFault { step } => Ok(EndMessage {
            value: step_number(*step),
            ..bare_end(alloc, LOCAL, BENCH_FAULT)
        }),
        Cause::OutputMissing { path } => path_end(alloc, LOCAL, OUTPUT_MISSING, path),
        Cause::InputChanged(input) => changed_end(alloc, LOCAL, INPUT_CHANGED, input),
        Cause::OutputTooLarge { limit, n } => Ok(EndMessage {
            value: output_limit_number(*limit),
            n: *n,
            ..bare_end(alloc, LOCAL, OUTPUT_TOO_LARGE)
        }),
        Cause::SourceFault { path } => path_end(alloc, LOCAL, SOURCE_FAULT, path),
        Cause::Stopped { .. } => Ok(bare_end(alloc, LOCAL, STOPPED)),
        Cause::NoMemory => Ok(bare_end(alloc, LOCAL, NO_MEMORY)),
    }
}

/// The fields of each cause beside attempt and cause.
pub(crate) fn local_fields(cause: u64) -> &'static [u32]
    ensures { result.now ≡ local_fields cause }
{
    match cause {
        BENCH_FAULT => &[end::VALUE],
        OUTPUT_MISSING => &[end::PATH],
        INPUT_CHANGED => &[end::PATH, end::FIRST_SEEN, end::SECOND_SEEN],
        OUTPUT_TOO_LARGE => &[end::VALUE, end::N],
        SOURCE_FAULT => &[end::PATH],
        _ => &[],
    }
}

#[tactic(auto, unfolding(crate::specs::Ends::bench_fault_of))]
fn bench_fault_of(end: &EndMessage) -> Result<Cause, ReplyFault>
    ensures { result ≡ bench_fault_of end.now }
{
    let step = step_of(end.value)?;
    Ok(Cause::BenchFault { step })
}

#[tactic(auto, unfolding(crate::specs::Ends::output_missing_of))]
fn output_missing_of(alloc: Global, end: &EndMessage) -> Result<Cause, ReplyFault>
    ensures { Gives NoMemory (λ cause. cause) result (output_missing_of end.now) }
{
    let path = read_path(alloc, &end.path)?;
    Ok(Cause::OutputMissing { path })
}

#[tactic(auto, unfolding(crate::specs::Ends::input_changed_of))]
fn input_changed_of(alloc: Global, end: &EndMessage) -> Result<Cause, ReplyFault>
    ensures { Gives NoMemory (λ cause. cause) result (input_changed_of end.now) }
{
    let input = read_changed(alloc, &end.path, &end.first, &end.second)?;
    Ok(Cause::InputChanged(input))
}

#[tactic(auto, unfolding(crate::specs::Ends::output_too_large_of))]
fn output_too_large_of(end: &EndMessage) -> Result<Cause, ReplyFault>
    ensures { result ≡ output_too_large_of end.now }
{
    let limit = output_limit_of(end.value)?;
    Ok(Cause::OutputTooLarge { limit, n: end.n })
}

#[tactic(auto, unfolding(crate::specs::Ends::source_fault_of))]
fn source_fault_of(alloc: Global, end: &EndMessage) -> Result<Cause, ReplyFault>
    ensures { Gives NoMemory (λ cause. cause) result (source_fault_of end.now) }
{
    let path = read_path(alloc, &end.path)?;
    Ok(Cause::SourceFault { path })
}

/// Why a local attempt has no outcome. No reply has one that was stopped, or that had no memory.
#[tactic(auto, unfolding(crate::specs::Ends::local_cause_of))]
pub(crate) fn local_cause_of(alloc: Global, end: &EndMessage) -> Result<Cause, ReplyFault>
    ensures { Gives NoMemory (λ cause. cause) result (local_cause_of end.now) }
{
    match end.cause {
        BENCH_FAULT => bench_fault_of(end),
        OUTPUT_MISSING => output_missing_of(alloc, end),
        INPUT_CHANGED => input_changed_of(alloc, end),
        OUTPUT_TOO_LARGE => output_too_large_of(end),
        SOURCE_FAULT => source_fault_of(alloc, end),
        _ => Err(ReplyFault::BadReply),
    }
}
