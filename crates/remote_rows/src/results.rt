//! The results of the rows, by their names.

use rx_base::{Bytes, Items, NoMemory, Text, digest_of};
use rx_messages::{ActionResult, OutputFile};
use rx_row_values::read_string;
use rx_rows::{Row, RowFault};
use std::alloc::Global;

/// The next word, a name of an execution in quotes, which may be empty.
pub(crate) fn read_name(alloc: Global, row: &mut Row<'_>) -> Result<Text, RowFault> {
    Ok(Text::from_string(read_string(alloc, row)?))
}

/// The next word, the name of a result, or `none`.
pub(crate) fn read_result(
    alloc: Global,
    row: &mut Row<'_>,
) -> Result<Option<ActionResult>, RowFault> {
    match row.word()? {
        "none" => Ok(None),
        "code1" => Ok(Some(code_1(alloc)?)),
        word => {
            let files = outputs_of(alloc, word)?;
            Ok(Some(result_with(alloc, 0, files)))
        }
    }
}

/// The outputs of a result by its name.
fn outputs_of(alloc: Global, word: &str) -> Result<Items<OutputFile>, RowFault> {
    match word {
        "inline" => one_output(alloc, "b", b"abc"),
        "dotted" => one_output(alloc, "./b", b"abc"),
        "outside" => one_output(alloc, "../b", b"abc"),
        "apart" => one_output(alloc, "b", b""),
        "spoiled" => one_output(alloc, "b", b"abd"),
        "absent" => Ok(Items::new(alloc)),
        _ => Err(RowFault::BadCall),
    }
}

/// A result with this code and these outputs, without texts.
fn result_with(alloc: Global, exit_code: i32, output_files: Items<OutputFile>) -> ActionResult {
    ActionResult {
        output_files,
        output_directories: Items::new(alloc),
        exit_code,
        stdout_raw: Bytes::new(alloc),
        stdout_digest: None,
        stderr_raw: Bytes::new(alloc),
        stderr_digest: None,
        execution_metadata: Bytes::new(alloc),
        output_symlinks: Items::new(alloc),
    }
}

/// A result with code 1 and `no` on standard error.
fn code_1(alloc: Global) -> Result<ActionResult, NoMemory> {
    let text = Bytes::copy_of(alloc, b"no")?;
    let mut result = result_with(alloc, 1, Items::new(alloc));
    result.stderr_raw = text;
    Ok(result)
}

/// One output at a path, with the digest of `abc`, and with these contents in the result.
fn one_output(alloc: Global, path: &str, contents: &[u8]) -> Result<Items<OutputFile>, RowFault> {
    let mut files = Items::new(alloc);
    files.push(OutputFile {
        path: Text::copy_of(alloc, path)?,
        digest: Some(digest_of(b"abc")),
        is_executable: false,
        contents: Bytes::copy_of(alloc, contents)?,
    })?;
    Ok(files)
}
