//! Texts and paths, as arguments of rows.

use rx_base::{PathFault, RelPath};
use rx_rows::{Row, RowFault};
use std::alloc::Global;
use std::str;

/// The path that a text names. `BadCall` where it names none.
pub fn path_of(alloc: Global, text: &str) -> Result<RelPath, RowFault> {
    match RelPath::read(alloc, text) {
        Ok(path) => Ok(path),
        Err(PathFault::NoMemory) => Err(RowFault::NoMemory),
        Err(_) => Err(RowFault::BadCall),
    }
}

/// The next word, a text in quotes. `BadText` where it isn't UTF-8.
pub fn read_string(alloc: Global, row: &mut Row<'_>) -> Result<String, RowFault> {
    let bytes = row.text(alloc)?;
    match str::from_utf8(&bytes) {
        Ok(text) => Ok(String::from_str(alloc, text)?),
        Err(_) => Err(RowFault::BadText),
    }
}

/// The next word, a path in quotes.
pub fn read_path(alloc: Global, row: &mut Row<'_>) -> Result<RelPath, RowFault> {
    let text = read_string(alloc, row)?;
    path_of(alloc, text.as_str())
}
