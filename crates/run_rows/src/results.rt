//! Results of a farm, as rows tell them: see the headings of `stdin`.

use crate::arguments::digest_in;
use rx_base::{Bytes, Digest, Items, Text};
use rx_messages::{ActionResult, OutputDirectory, OutputFile, OutputSymlink};
use rx_row_values::read_string;
use rx_rows::{Row, RowFault};
use std::alloc::Global;

/// The words that are left, a result: `none`, or `code N` and what else it has.
pub(crate) fn read_result(
    alloc: Global,
    row: &mut Row<'_>,
) -> Result<Option<ActionResult>, RowFault> {
    match row.word()? {
        "none" => Ok(None),
        "code" => read_whole(alloc, row),
        _ => Err(RowFault::BadCall),
    }
}

/// `N PART ..`: a result with this code and these parts.
fn read_whole(alloc: Global, row: &mut Row<'_>) -> Result<Option<ActionResult>, RowFault> {
    let Ok(exit_code) = i32::try_from(row.number()?) else {
        return Err(RowFault::BadNumber);
    };
    let mut given = code_alone(alloc, exit_code);
    for _ in 0..u64::MAX {
        if row.is_done() {
            break;
        }
        add_part(alloc, row, &mut given)?;
    }
    Ok(Some(given))
}

/// A result with this code, without texts and outputs.
fn code_alone(alloc: Global, exit_code: i32) -> ActionResult {
    ActionResult {
        output_files: Items::new(alloc),
        output_directories: Items::new(alloc),
        exit_code,
        stdout_raw: Bytes::new(alloc),
        stdout_digest: None,
        stderr_raw: Bytes::new(alloc),
        stderr_digest: None,
        execution_metadata: Bytes::new(alloc),
        output_symlinks: Items::new(alloc),
    }
}

/// `stdout TEXT`, `stderr TEXT`, `output FILE`, `link PATH` or `directory PATH`.
fn add_part(alloc: Global, row: &mut Row<'_>, given: &mut ActionResult) -> Result<(), RowFault> {
    match row.word()? {
        "stdout" => given.stdout_raw = Bytes::from_vec(row.text(alloc)?),
        "stderr" => given.stderr_raw = Bytes::from_vec(row.text(alloc)?),
        "output" => given.output_files.push(read_file(alloc, row)?)?,
        "link" => given.output_symlinks.push(OutputSymlink {
            path: Text::from_string(read_string(alloc, row)?),
            target: Text::new(alloc),
        })?,
        "directory" => given.output_directories.push(OutputDirectory {
            path: Text::from_string(read_string(alloc, row)?),
            tree_digest: None,
        })?,
        _ => return Err(RowFault::BadCall),
    }
    Ok(())
}

/// The next word: `executable`, or `plain` for false.
fn read_executable(row: &mut Row<'_>) -> Result<bool, RowFault> {
    match row.word()? {
        "executable" => Ok(true),
        "plain" => Ok(false),
        _ => Err(RowFault::BadCall),
    }
}

/// The next word, a digest, or `none`.
fn read_if_any(row: &mut Row<'_>) -> Result<Option<Digest>, RowFault> {
    match row.word()? {
        "none" => Ok(None),
        word => Ok(Some(digest_in(word)?)),
    }
}

/// `PATH MARK DIGEST TEXT`: an output, whose contents are in the result unless the text is empty.
fn read_file(alloc: Global, row: &mut Row<'_>) -> Result<OutputFile, RowFault> {
    let path = Text::from_string(read_string(alloc, row)?);
    let is_executable = read_executable(row)?;
    Ok(OutputFile {
        path,
        digest: read_if_any(row)?,
        is_executable,
        contents: Bytes::from_vec(row.text(alloc)?),
    })
}
