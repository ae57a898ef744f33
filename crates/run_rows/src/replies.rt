//! Replies in words.

use rx_base::{NoMemory, RelPath};
use rx_farm_values::write_remote_cause;
use rx_row_values::write_changed;
use rx_rows::Answer;
use rx_session::{CancelReason, InPlaceCause, Reply};
use rx_world::{Cause, ChangedInput, Failure, LocalCause};
use std::alloc::Global;

/// A word and a path.
fn show_path(answer: &mut Answer, word: &str, path: &RelPath) -> Result<(), NoMemory> {
    answer.word(word)?;
    answer.text(path.as_str().as_bytes())
}

/// A word and a number.
pub(crate) fn show_number(answer: &mut Answer, word: &str, number: u64) -> Result<(), NoMemory> {
    answer.word(word)?;
    answer.number(number)
}

/// An input that changed, with both values.
fn show_changed(alloc: Global, answer: &mut Answer, input: &ChangedInput) -> Result<(), NoMemory> {
    show_path(answer, "InputChanged", &input.path)?;
    write_changed(alloc, answer, input)
}

/// Why a local attempt has no outcome.
pub(crate) fn show_cause(
    alloc: Global,
    answer: &mut Answer,
    cause: &Cause,
) -> Result<(), NoMemory> {
    match cause {
        Cause::BenchFault { step } => {
            answer.word("BenchFault")?;
            answer.value(step)
        }
        Cause::OutputMissing { path } => show_path(answer, "OutputMissing", path),
        Cause::InputChanged(input) => show_changed(alloc, answer, input),
        Cause::OutputTooLarge { limit, n } => {
            answer.word("OutputTooLarge")?;
            answer.value(limit)?;
            answer.number(*n)
        }
        Cause::SourceFault { path } => show_path(answer, "SourceFault", path),
        Cause::Stopped { decision } => {
            answer.word("Stopped")?;
            answer.value(decision)
        }
        Cause::NoMemory => answer.word("NoMemory"),
    }
}

fn show_failure(alloc: Global, answer: &mut Answer, failure: &Failure) -> Result<(), NoMemory> {
    match failure {
        Failure::Local { cause } => {
            answer.word("local")?;
            show_cause(alloc, answer, cause)
        }
        Failure::Remote { cause } => {
            answer.word("remote")?;
            write_remote_cause(alloc, cause, answer)
        }
        Failure::NonZero { exit } => {
            answer.word("NonZero")?;
            answer.value(exit)
        }
    }
}

fn show_failures(alloc: Global, answer: &mut Answer, failures: &[Failure]) -> Result<(), NoMemory> {
    answer.word("AllFailed")?;
    for failure in failures {
        show_failure(alloc, answer, failure)?;
    }
    Ok(())
}

/// A reply's name, and the word or the path that keeps a command on this machine.
fn show_local_cause(answer: &mut Answer, reply: &str, cause: &LocalCause) -> Result<(), NoMemory> {
    answer.word(reply)?;
    match cause {
        LocalCause::Word { word } => {
            answer.word("word")?;
            answer.text(word.as_str().as_bytes())
        }
        LocalCause::Path { path } => show_path(answer, "path", path),
    }
}

/// Why a client is to run its step itself.
fn show_in_place(answer: &mut Answer, cause: &InPlaceCause) -> Result<(), NoMemory> {
    match cause {
        InPlaceCause::Kept { cause } => show_local_cause(answer, "InPlace", cause),
        InPlaceCause::TooLarge { limit } => {
            answer.word("InPlace")?;
            answer.word("TooLarge")?;
            answer.value(limit)
        }
    }
}

/// How a command ended, and what was published.
fn show_done(answer: &mut Answer, reply: &Reply) -> Result<(), NoMemory> {
    let Reply::Done {
        exit,
        stdout,
        stderr,
        origin,
        receipt,
        placed,
    } = reply
    else {
        return Ok(());
    };
    answer.word("Done")?;
    answer.value(exit)?;
    answer.text(stdout.as_slice())?;
    answer.text(stderr.as_slice())?;
    answer.value(origin)?;
    show_number(answer, "receipt", *receipt)?;
    show_number(answer, "placed", *placed)
}

/// Why a request was cancelled.
fn show_cancelled(answer: &mut Answer, reason: CancelReason) -> Result<(), NoMemory> {
    answer.word("Cancelled")?;
    answer.value(&reason)
}

/// A reply: its name, and what it tells.
pub(crate) fn show_reply(
    alloc: Global,
    answer: &mut Answer,
    reply: &Reply,
) -> Result<(), NoMemory> {
    match reply {
        Reply::Done { .. } => show_done(answer, reply),
        Reply::BadRequest { bad } => {
            answer.word("BadRequest")?;
            answer.value(&bad.reason)?;
            answer.number(bad.value)
        }
        Reply::NotRemotable { cause } => show_local_cause(answer, "NotRemotable", cause),
        Reply::InputMissing { path } => show_path(answer, "InputMissing", path),
        Reply::InputChanged(input) => show_changed(alloc, answer, input),
        Reply::SourceFault { path } => show_path(answer, "SourceFault", path),
        Reply::TooLarge { limit, n, path } => {
            answer.word("TooLarge")?;
            answer.value(limit)?;
            answer.number(*n)?;
            match path {
                None => Ok(()),
                Some(path) => answer.text(path.as_str().as_bytes()),
            }
        }
        Reply::AllFailed { failures } => show_failures(alloc, answer, failures.as_slice()),
        Reply::Cancelled { reason } => show_cancelled(answer, *reason),
        Reply::PlaceFault { receipt, placed } => {
            answer.word("PlaceFault")?;
            show_number(answer, "receipt", *receipt)?;
            show_number(answer, "placed", *placed)
        }
        Reply::JournalFull => answer.word("JournalFull"),
        Reply::NoMemory => answer.word("NoMemory"),
        Reply::Blocked { path } => show_path(answer, "Blocked", path),
        Reply::InPlace { cause } => show_in_place(answer, cause),
    }
}
