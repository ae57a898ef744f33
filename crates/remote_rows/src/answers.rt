//! Asks and outcomes, as words of answers.

use rx_base::{Digest, Text};
use rx_farm_values::write_remote_cause;
use rx_remote::Ask;
use rx_row_values::write_digest;
use rx_rows::Answer;
use rx_world::{End, FileOut, Origin, Outcome, RemoteCause};
use std::alloc::{AllocError, Global};

/// Writes an ask by its name, with what it asks for.
pub(crate) fn write_ask(alloc: Global, ask: &Ask, answer: &mut Answer) -> Result<(), AllocError> {
    match ask {
        Ask::Capabilities => answer.word("Capabilities"),
        Ask::GetResult => answer.word("GetResult"),
        Ask::Upload { fresh: false } => answer.word("Upload"),
        Ask::Upload { fresh: true } => answer.word("Upload fresh"),
        Ask::Execute { skip_cache: false } => answer.word("Execute"),
        Ask::Execute { skip_cache: true } => answer.word("Execute skip_cache"),
        Ask::NextOperation => answer.word("NextOperation"),
        Ask::Wait { name } => write_wait(name, answer),
        Ask::Fetch { digests } => write_fetch(alloc, digests.as_slice(), answer),
        Ask::End { end } => write_end(alloc, end, answer),
    }
}

/// Writes the wait for an execution of this name.
fn write_wait(name: &Text, answer: &mut Answer) -> Result<(), AllocError> {
    answer.word("Wait")?;
    answer.text(name.as_str().as_bytes())
}

/// Writes the fetch of these digests.
fn write_fetch(alloc: Global, digests: &[Digest], answer: &mut Answer) -> Result<(), AllocError> {
    answer.word("Fetch")?;
    for digest in digests {
        write_digest(alloc, answer, digest)?;
    }
    Ok(())
}

/// Writes an end: `Done` with the outcome, or `Failed` with the cause.
pub(crate) fn write_end(
    alloc: Global,
    end: &End<Outcome, RemoteCause>,
    answer: &mut Answer,
) -> Result<(), AllocError> {
    match end {
        End::Done { outcome, origin } => write_done(outcome, *origin, answer),
        End::Failed { cause } => {
            answer.word("Failed")?;
            write_remote_cause(alloc, cause, answer)
        }
    }
}

/// Writes where an outcome comes from, its code and texts, and each file.
fn write_done(outcome: &Outcome, origin: Origin, answer: &mut Answer) -> Result<(), AllocError> {
    answer.word("Done")?;
    answer.value(&origin)?;
    answer.value(&outcome.exit.code)?;
    answer.text(outcome.exit.stdout.as_slice())?;
    answer.text(outcome.exit.stderr.as_slice())?;
    for file in outcome.files.as_slice() {
        write_file(file, answer)?;
    }
    Ok(())
}

/// Writes a file's path and its bytes.
fn write_file(file: &FileOut, answer: &mut Answer) -> Result<(), AllocError> {
    answer.text(file.path.as_str().as_bytes())?;
    answer.text(file.bytes.as_slice())
}
