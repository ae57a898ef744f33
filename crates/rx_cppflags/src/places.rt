//! The paths that values name. No word is read here.

ghost use Rattle.std.specs.Prelude.{◌≡◌, IfOk};
ghost use Rattle.rx_base.specs.SortedPaths.{AreSorted};
ghost use Rattle.rx_cppflags.specs.Places.{is_barrier, is_replaced, is_writable, path_from, path_of};

use crate::meanings::Meaning;
use crate::searches::is_above_one;
use rx_base::{NoMemory, PathFault, RelPath};
use std::alloc::{AllocError, Global};

/// The path that a value of this meaning names, if it names one that the meaning allows.
pub(crate) fn path_of(
    alloc: Global,
    directory: &RelPath,
    inputs: &[RelPath],
    meaning: Meaning,
    text: &str,
) -> Result<Option<RelPath>, NoMemory>
    requires { AreSorted inputs.now }
    ensures { IfOk result (λ path. path ≡ path_of directory.now inputs.now meaning text.now) }
{
    if !meaning.names_output() {
        if !meaning.names_path() || is_barrier(meaning, text) {
            return Ok(None);
        }
        return path_from(alloc, directory, text);
    }
    match path_from(alloc, directory, text)? {
        Some(path) if is_writable(&path, directory, inputs) => Ok(Some(path)),
        _ => Ok(None),
    }
}

/// Whether a directory to search is none: `-I-` takes the directory of the including file away.
fn is_barrier(meaning: Meaning, text: &str) -> bool
    ensures { result ≡ is_barrier meaning text.now }
{
    meaning.is(Meaning::Dir) && text == "-"
}

/// The path that a value names on from the working directory.
fn path_from(alloc: Global, directory: &RelPath, text: &str) -> Result<Option<RelPath>, NoMemory>
    ensures { IfOk result (λ path. path ≡ path_from directory.now text.now) }
{
    if is_replaced(text) {
        return Ok(None);
    }
    match directory.join(alloc, text) {
        Ok(path) => Ok(Some(path)),
        Err(PathFault::NoMemory) => Err(AllocError),
        Err(_) => Ok(None),
    }
}

/// Whether a compiler puts another text in place of the first byte of this one: the system's root
/// for `=`, as GCC's `-I` says.
fn is_replaced(text: &str) -> bool
    ensures { result ≡ is_replaced text.now }
{
    let bytes = text.as_bytes();
    bytes.starts_with(b"=") || bytes.starts_with(b"$")
}

/// Whether a path lies below the working directory, and above none of the declared inputs.
fn is_writable(path: &RelPath, directory: &RelPath, inputs: &[RelPath]) -> bool
    requires { AreSorted inputs.now }
    ensures { result ≡ is_writable directory.now inputs.now path.now }
{
    path.is_below(directory) && !is_above_one(path, inputs)
}
