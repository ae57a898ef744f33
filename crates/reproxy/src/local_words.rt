//! Why a local attempt failed, in words for standard error.

use rx_world::{BenchStep, Cause, OutputLimit};
use std::alloc::{AllocError, Global};

/// Why a local attempt has no outcome.
pub(crate) fn local_in_words(alloc: Global, cause: &Cause) -> Result<String, AllocError> {
    match cause {
        Cause::BenchFault { step } => String::from_str(alloc, step_in_words(*step)),
        Cause::OutputMissing { path } => {
            let path = path.as_str();
            Ok(format!(in alloc; "the command left no file at its output {path}")?)
        }
        Cause::InputChanged(input) => {
            let path = input.path.as_str();
            Ok(format!(in alloc; "the input {path} changed")?)
        }
        Cause::OutputTooLarge { limit, n } => {
            let what = limit_in_words(*limit);
            Ok(format!(in alloc; "{what}: {n} bytes")?)
        }
        Cause::SourceFault { path } => {
            let path = path.as_str();
            Ok(format!(in alloc; "the input {path} couldn't be read")?)
        }
        Cause::Stopped { decision: _ } => String::from_str(alloc, "it was stopped"),
        Cause::NoMemory => String::from_str(alloc, "memory ran out"),
    }
}

/// What couldn't be done with a sandbox.
fn step_in_words(step: BenchStep) -> &'static str {
    match step {
        BenchStep::Make => "its sandbox couldn't be made",
        BenchStep::MakeDir => "a directory couldn't be made in its sandbox",
        BenchStep::Put => "an input couldn't be put into its sandbox",
        BenchStep::Run => "the command couldn't be run",
        BenchStep::Take => "an output couldn't be taken from its sandbox",
    }
}

/// Which limit on what a command writes was passed.
fn limit_in_words(limit: OutputLimit) -> &'static str {
    match limit {
        OutputLimit::FileBytes => "an output is longer than 67,108,864 bytes",
        OutputLimit::FilesBytes => "its outputs together are longer than 268,435,456 bytes",
        OutputLimit::TextBytes => "what it printed is longer than 16,777,216 bytes",
    }
}
