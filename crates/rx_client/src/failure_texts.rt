//! The ends of attempts that failed, in words.

ghost use Rattle.std.specs.Prelude.{◌≡◌, ◌++◌, IfOk, OnOk, map, string_bytes};
ghost use Rattle.std.specs.Fmt.{signed_decimal};
ghost use Rattle.rx_client.specs.FailureTexts.{failure_text, failures_text, local_text, output_limit_text, remote_text, result_text, step_text};

use crate::fault_texts::push_calls;
use crate::joins::push_joined;
use itoa::Buffer;
use rx_base::{NoMemory, RelPath, Text};
use rx_world::{BenchStep, Cause, Failure, OutputLimit, RemoteCause, ResultFault};
use std::alloc::Global;

fn result_text(fault: ResultFault) -> &'static str
    ensures { result.now ≡ result_text fault }
{
    match fault {
        ResultFault::NoResult => "no result",
        ResultFault::PathTwice => "an output twice in the result",
        ResultFault::OutputAbsent => "an output missing in the result",
        ResultFault::NoDigest => "an output without a digest in the result",
        ResultFault::TooLarge => "a result too large",
    }
}

fn step_text(step: BenchStep) -> &'static str
    ensures { result.now ≡ step_text step }
{
    match step {
        BenchStep::Make => "no sandbox",
        BenchStep::MakeDir => "no directory in the sandbox",
        BenchStep::Put => "input not put",
        BenchStep::Run => "not started",
        BenchStep::Take => "output not taken",
    }
}

fn output_limit_text(limit: OutputLimit) -> &'static str
    ensures { result.now ≡ output_limit_text limit }
{
    match limit {
        OutputLimit::FileBytes => "an output too large",
        OutputLimit::FilesBytes => "outputs too large",
        OutputLimit::TextBytes => "texts too large",
    }
}

/// Adds a text and a path.
fn push_path(out: &mut String, text: &str, path: &RelPath) -> Result<(), NoMemory>
    ensures { OnOk result
        (string_bytes out.new ≡ string_bytes out.old ++ (text.now ++ path.now)) }
{
    out.push_str(text)?;
    out.push_str(path.as_str())
}

/// Adds why a local attempt has no outcome.
fn push_local(out: &mut String, cause: &Cause) -> Result<(), NoMemory>
    ensures { OnOk result (string_bytes out.new ≡ string_bytes out.old ++ local_text cause.now) }
{
    match cause {
        Cause::BenchFault { step } => out.push_str(step_text(*step)),
        Cause::OutputMissing { path } => push_path(out, "output missing ", path),
        Cause::InputChanged(input) => push_path(out, "input changed ", &input.path),
        Cause::OutputTooLarge { limit, .. } => out.push_str(output_limit_text(*limit)),
        Cause::SourceFault { path } => push_path(out, "can't read ", path),
        Cause::Stopped { .. } => out.push_str("stopped"),
        Cause::NoMemory => out.push_str("out of memory"),
    }
}

/// Adds why a remote attempt has no outcome.
fn push_remote(alloc: Global, out: &mut String, cause: &RemoteCause) -> Result<(), NoMemory>
    ensures { OnOk result (string_bytes out.new ≡ string_bytes out.old ++ remote_text cause.now) }
{
    match cause {
        RemoteCause::CallFailed { faults } => push_calls(alloc, out, faults.as_slice()),
        RemoteCause::BadBlob { .. } => out.push_str("other bytes than asked for"),
        RemoteCause::BadResult { fault } => out.push_str(result_text(*fault)),
        RemoteCause::OperationsSpent => out.push_str("the operation wasn't done"),
        RemoteCause::Stopped { .. } => out.push_str("stopped"),
        RemoteCause::InputChanged(input) => push_path(out, "input changed ", &input.path),
        RemoteCause::WrongVersion { .. } => out.push_str("version 2 of the API isn't served"),
        RemoteCause::SourceFault { path } => push_path(out, "can't read ", path),
        RemoteCause::NoMemory => out.push_str("out of memory"),
    }
}

/// Adds a text and the code that a command ended with.
fn push_exit(out: &mut String, text: &str, exit: &i32) -> Result<(), NoMemory>
    ensures { OnOk result
        (string_bytes out.new ≡ string_bytes out.old ++ (text.now ++ signed_decimal exit.now)) }
{
    let mut buffer = Buffer::new();
    out.push_str(text)?;
    out.push_str(buffer.format(*exit))
}

/// Adds how one attempt failed.
fn push_failure(alloc: Global, out: &mut String, failure: &Failure) -> Result<(), NoMemory>
    ensures { OnOk result
        (string_bytes out.new ≡ string_bytes out.old ++ failure_text failure.now) }
{
    match failure {
        Failure::Local { cause } => {
            out.push_str("here: ")?;
            push_local(out, cause)
        }
        Failure::Remote { cause } => {
            out.push_str("remote: ")?;
            push_remote(alloc, out, cause)
        }
        Failure::NonZero { exit } => push_exit(out, "remote: exit ", exit),
    }
}

fn text_of(alloc: Global, failure: &Failure) -> Result<Text, NoMemory>
    ensures { IfOk result (λ text. text ≡ failure_text failure.now) }
{
    let mut text = String::new(alloc);
    push_failure(alloc, &mut text, failure)?;
    Ok(Text::from_string(text))
}

/// The text of each attempt that failed.
fn texts_of(alloc: Global, failures: &[Failure]) -> Result<Vec<Text>, NoMemory>
    ensures { IfOk result (λ texts. texts.items ≡ map failure_text failures.now) }
{
    let mut texts = Vec::with_capacity(alloc, failures.len())?;
    for failure in failures {
        texts.push(text_of(alloc, failure)?)?;
    }
    Ok(texts)
}

/// Adds each attempt that failed.
pub(crate) fn push_failures(
    alloc: Global,
    out: &mut String,
    failures: &[Failure],
) -> Result<(), NoMemory>
    ensures { OnOk result
        (string_bytes out.new ≡ string_bytes out.old ++ failures_text failures.now) }
{
    let texts = texts_of(alloc, failures)?;
    push_joined(out, "; ", &texts)
}
