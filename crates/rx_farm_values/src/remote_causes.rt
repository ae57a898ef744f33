//! The causes of remote attempts that failed, in answers.

use rx_base::{Digest, RelPath};
use rx_row_values::{write_changed, write_digest};
use rx_rows::Answer;
use rx_world::{CallFault, ChangedInput, RemoteCause, SemVer};
use std::alloc::{AllocError, Global};
use std::fmt::Debug;

/// Writes a cause by its name, with its values.
pub fn write_remote_cause(
    alloc: Global,
    cause: &RemoteCause,
    answer: &mut Answer,
) -> Result<(), AllocError> {
    match cause {
        RemoteCause::CallFailed { faults } => write_faults(alloc, faults.as_slice(), answer),
        RemoteCause::BadBlob { expected, got } => write_bad_blob(alloc, expected, got, answer),
        RemoteCause::BadResult { fault } => write_valued("BadResult", fault, answer),
        RemoteCause::OperationsSpent => answer.word("OperationsSpent"),
        RemoteCause::Stopped { decision } => write_valued("Stopped", decision, answer),
        RemoteCause::InputChanged(input) => write_input(alloc, input, answer),
        RemoteCause::WrongVersion { low, high } => write_range(alloc, low, high, answer),
        RemoteCause::SourceFault { path } => write_source(path, answer),
        RemoteCause::NoMemory => answer.word("NoMemory"),
    }
}

/// Writes the faults of calls, in their order.
fn write_faults(
    alloc: Global,
    faults: &[CallFault],
    answer: &mut Answer,
) -> Result<(), AllocError> {
    answer.word("CallFailed")?;
    for fault in faults {
        write_fault(alloc, fault, answer)?;
    }
    Ok(())
}

/// Writes a fault of a call. That of a blob has its digest and then the status.
fn write_fault(alloc: Global, fault: &CallFault, answer: &mut Answer) -> Result<(), AllocError> {
    let CallFault::BlobRefused(digest, code) = fault else {
        return answer.value(fault);
    };
    answer.word("BlobRefused")?;
    write_digest(alloc, answer, digest)?;
    answer.value(code)
}

/// Writes the digest that was asked for, and that of what came.
fn write_bad_blob(
    alloc: Global,
    expected: &Digest,
    got: &Digest,
    answer: &mut Answer,
) -> Result<(), AllocError> {
    answer.word("BadBlob")?;
    write_digest(alloc, answer, expected)?;
    write_digest(alloc, answer, got)
}

/// Writes a name and a value.
fn write_valued(name: &str, value: &impl Debug, answer: &mut Answer) -> Result<(), AllocError> {
    answer.word(name)?;
    answer.value(value)
}

/// Writes what was seen of an input first, and then.
fn write_input(alloc: Global, input: &ChangedInput, answer: &mut Answer) -> Result<(), AllocError> {
    answer.word("InputChanged")?;
    answer.text(input.path.as_str().as_bytes())?;
    write_changed(alloc, answer, input)
}

/// Writes the versions that a farm serves.
fn write_range(
    alloc: Global,
    low: &SemVer,
    high: &SemVer,
    answer: &mut Answer,
) -> Result<(), AllocError> {
    answer.word("WrongVersion")?;
    write_version(alloc, low, answer)?;
    write_version(alloc, high, answer)
}

/// Writes a version.
fn write_version(alloc: Global, version: &SemVer, answer: &mut Answer) -> Result<(), AllocError> {
    let SemVer {
        major,
        minor,
        patch,
    } = version;
    let text = format!(in alloc; "{major}.{minor}.{patch}")?;
    answer.word(text.as_str())
}

/// Writes where the source tree failed.
fn write_source(path: &RelPath, answer: &mut Answer) -> Result<(), AllocError> {
    answer.word("SourceFault")?;
    answer.text(path.as_str().as_bytes())
}
