//! The list of files of `bench tree`, as a repository has them: a hundred directories of three to six names, by turns.

use crate::fault::Fault;
use rx_base::{RelPath, digest_of};
use rx_world::{InputFile, Stamp};
use std::alloc::{AllocError, Global};

/// The directories, so that 50,000 files are 500 in each.
const DIRECTORIES: u32 = 100;

/// The names below a directory's first three.
const BELOW: [&str; 4] = ["", "/src", "/src/detail", "/src/detail/impl"];

/// The text of a directory's path.
fn directory_of(alloc: Global, number: u32) -> Result<String, AllocError> {
    let below = BELOW[(number % 4) as usize];
    format!(in alloc; "top{}/part{}/lib{number}{below}", number % 5, number % 20)
}

/// The file of a number. Neighbours in the list lie in different directories, so the list isn't sorted.
fn file_of(alloc: Global, number: u32) -> Result<InputFile, Fault> {
    let directory = directory_of(alloc, number % DIRECTORIES)?;
    let text = format!(in alloc; "{directory}/file{number}.h")?;
    Ok(InputFile {
        path: RelPath::read(alloc, text.as_str())?,
        digest: digest_of(text.as_str().as_bytes()),
        stamp: Stamp { size: 0, mark: 0 },
        executable: false,
    })
}

/// So many files.
pub fn files_of(alloc: Global, count: u32) -> Result<Vec<InputFile>, Fault> {
    let mut files = Vec::new(alloc);
    for number in 0..count {
        files.push(file_of(alloc, number)?)?;
    }
    Ok(files)
}
