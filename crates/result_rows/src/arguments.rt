//! The parts of a result, as arguments of rows.

use rx_base::{Bytes, Digest, Items, RelPath, Text, digest_of};
use rx_messages::{OutputDirectory, OutputFile, OutputSymlink};
use rx_row_values::{path_of, read_string};
use rx_rows::{Row, RowFault};
use std::alloc::Global;

/// The next word, paths with a space between each two in one pair of quotes.
pub(crate) fn read_paths(alloc: Global, row: &mut Row<'_>) -> Result<Items<RelPath>, RowFault> {
    let text = read_string(alloc, row)?;
    let mut paths = Items::new(alloc);
    for word in text.as_str().split(' ') {
        if !word.is_empty() {
            paths.push(path_of(alloc, word)?)?;
        }
    }
    Ok(paths)
}

/// The next word, a digest: `none`, `size:N` for a hash of zero bytes alone, or `of:TEXT`.
pub(crate) fn read_digest(row: &mut Row<'_>) -> Result<Option<Digest>, RowFault> {
    let word = row.word()?;
    if let Some(text) = word.strip_prefix("of:") {
        return Ok(Some(digest_of(text.as_bytes())));
    }
    if let Some(digits) = word.strip_prefix("size:") {
        return Ok(Some(Digest {
            hash: [0; 32],
            size: read_size(digits)?,
        }));
    }
    match word {
        "none" => Ok(None),
        _ => Err(RowFault::BadCall),
    }
}

/// A number in decimal digits.
fn read_size(digits: &str) -> Result<u64, RowFault> {
    match digits.parse::<u64>() {
        Ok(size) => Ok(size),
        Err(_) => Err(RowFault::BadNumber),
    }
}

/// The next words, a file: its path and its contents, a digest, and `x` where it may be executed or
/// else `-`.
pub(crate) fn read_file(alloc: Global, row: &mut Row<'_>) -> Result<OutputFile, RowFault> {
    let path = Text::from_string(read_string(alloc, row)?);
    let contents = Bytes::from_vec(row.text(alloc)?);
    let digest = read_digest(row)?;
    let is_executable = read_executable(row)?;
    Ok(OutputFile {
        path,
        digest,
        is_executable,
        contents,
    })
}

/// The next word: `x`, or `-` for false.
fn read_executable(row: &mut Row<'_>) -> Result<bool, RowFault> {
    match row.word()? {
        "x" => Ok(true),
        "-" => Ok(false),
        _ => Err(RowFault::BadCall),
    }
}

/// The next word, a directory's path.
pub(crate) fn read_directory(
    alloc: Global,
    row: &mut Row<'_>,
) -> Result<OutputDirectory, RowFault> {
    Ok(OutputDirectory {
        path: Text::from_string(read_string(alloc, row)?),
        tree_digest: None,
    })
}

/// The next word, a link's path.
pub(crate) fn read_link(alloc: Global, row: &mut Row<'_>) -> Result<OutputSymlink, RowFault> {
    Ok(OutputSymlink {
        path: Text::from_string(read_string(alloc, row)?),
        target: Text::new(alloc),
    })
}
