//! `result DIRECTORY OUTPUTS CODE STDOUT DIGEST STDERR DIGEST PARTS`: what a result says of a command
//! that writes these outputs. The parts are files, directories and links of the result, and the
//! texts that are fetched for it.
//!
//! The answer is the fault; or `spoiled` with the digest that the result names and that of the
//! contents; or `fetch` with the sizes of the digests that have to be fetched, and the outcome: its
//! code and texts, and its files.

use crate::arguments::{read_digest, read_directory, read_file, read_link, read_paths};
use rx_base::{Bytes, Items, sort_paths};
use rx_messages::ActionResult;
use rx_results::FarmResult;
use rx_row_values::{read_path, write_digest};
use rx_rows::{Answer, Row, RowFault};
use rx_world::{Command, FileOut, Outcome};
use std::alloc::Global;

/// Reads the result that the next words tell.
pub(crate) fn call(alloc: Global, row: &mut Row<'_>, answer: &mut Answer) -> Result<(), RowFault> {
    let working_directory = read_path(alloc, row)?;
    let outputs = sort_paths(read_paths(alloc, row)?)?;
    let command = Command {
        words: Items::new(alloc),
        environment: Items::new(alloc),
        working_directory,
        outputs,
        platform: Items::new(alloc),
        timeout_seconds: 0,
    };
    let mut given = read_result(alloc, row)?;
    let texts = read_parts(alloc, row, &mut given)?;
    let reading = FarmResult::new(alloc, &command, given)?;
    write_reading(alloc, reading, texts, answer)
}

/// A result's code and texts.
fn read_result(alloc: Global, row: &mut Row<'_>) -> Result<ActionResult, RowFault> {
    let code = row.number()?;
    let stdout = row.bytes(alloc)?;
    let stdout_digest = read_digest(row)?;
    let stderr = row.bytes(alloc)?;
    let stderr_digest = read_digest(row)?;
    Ok(ActionResult {
        output_files: Items::new(alloc),
        output_directories: Items::new(alloc),
        exit_code: i32::try_from(code).map_err(|_| RowFault::BadNumber)?,
        stdout_raw: Bytes::from_vec(stdout),
        stdout_digest,
        stderr_raw: Bytes::from_vec(stderr),
        stderr_digest,
        execution_metadata: Bytes::new(alloc),
        output_symlinks: Items::new(alloc),
    })
}

/// The parts of a result up to the end of the row, and the texts among them.
fn read_parts(
    alloc: Global,
    row: &mut Row<'_>,
    given: &mut ActionResult,
) -> Result<Items<Bytes>, RowFault> {
    let mut texts = Items::new(alloc);
    for _ in 0..u32::MAX {
        if row.is_done() {
            break;
        }
        match row.word()? {
            "file" => given.output_files.push(read_file(alloc, row)?)?,
            "directory" => given.output_directories.push(read_directory(alloc, row)?)?,
            "link" => given.output_symlinks.push(read_link(alloc, row)?)?,
            "text" => texts.push(Bytes::from_vec(row.text(alloc)?))?,
            _ => return Err(RowFault::BadCall),
        }
    }
    Ok(texts)
}

/// Writes what a reading says, with these texts.
fn write_reading(
    alloc: Global,
    reading: FarmResult,
    texts: Items<Bytes>,
    answer: &mut Answer,
) -> Result<(), RowFault> {
    if let Some(fault) = reading.fault() {
        answer.value(&fault)?;
        return Ok(());
    }
    if let Some(mismatch) = reading.spoiled() {
        answer.word("spoiled")?;
        write_digest(alloc, answer, &mismatch.expected)?;
        write_digest(alloc, answer, &mismatch.got)?;
        return Ok(());
    }
    answer.word("fetch")?;
    for digest in reading.wanted(alloc)?.as_slice() {
        answer.number(digest.size)?;
    }
    write_outcome(&reading.outcome(alloc, texts)?, answer)
}

/// Writes an outcome's code and texts, and each file.
fn write_outcome(outcome: &Outcome, answer: &mut Answer) -> Result<(), RowFault> {
    answer.word("code")?;
    answer.value(&outcome.exit.code)?;
    answer.text(outcome.exit.stdout.as_slice())?;
    answer.text(outcome.exit.stderr.as_slice())?;
    for file in outcome.files.as_slice() {
        write_file(file, answer)?;
    }
    Ok(())
}

/// Writes a file's path, its bytes, and `x` or `-`.
fn write_file(file: &FileOut, answer: &mut Answer) -> Result<(), RowFault> {
    answer.text(file.path.as_str().as_bytes())?;
    answer.text(file.bytes.as_slice())?;
    answer.word(if file.executable { "x" } else { "-" })?;
    Ok(())
}
