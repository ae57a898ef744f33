//! Which lists of paths have a tree: the search for two files of one path, and for a path below a
//! file's, among neighbours in the order of the names.

ghost use Rattle.std.specs.Prelude.{◌≡◌, IfOk, Some, length};
ghost use Rattle.std.specs.List.{AllByRecursion};
ghost use Rattle.std.specs.List.Sorted.{IsPermutation, IsSorted};
ghost use Rattle.rx_tree.specs.Entries.{entries_of};
ghost use Rattle.rx_tree.specs.Listings.{IsEntry};
ghost use Rattle.rx_tree.specs.Places.{by_place};
ghost use Rattle.rx_tree.specs.Refusals.{Judges, by_bytes};
ghost use Rattle.rx_tree.specs.Search.{HasBelow, HasNeighbours, IsLeastOr, is_conflict, lesser_of, place};

use crate::entries::{Entry, sort_entries};
use crate::tree_fault::TreeFault;
use rx_base::{RelPath, TryClone};
use rx_world::InputFile;
use std::alloc::Global;

/// The most files of a tree.
pub const MAX_FILES: usize = 50_000;

/// The entries of a list of paths in their order, where the list has a tree.
pub(crate) fn take_entries<'a>(
    alloc: Global,
    files: &'a [InputFile],
    dirs: &'a [RelPath],
) -> Result<Vec<Entry<'a>>, TreeFault>
    ensures judged { Judges files.now dirs.now result }
    ensures all { IfOk result (λ entries.
        IsPermutation (entries_of files.now dirs.now) entries.items) }
    ensures sorted { IfOk result (λ entries. IsSorted by_place entries.items) }
    ensures sound { IfOk result (λ _. AllByRecursion IsEntry (entries_of files.now dirs.now)) }
{
    if files.len() > MAX_FILES {
        return Err(TreeFault::TooManyFiles);
    }
    let entries = sort_entries(alloc, files, dirs)?;
    if let Some(path) = least_conflict(&entries, Conflict::SameFile) {
        return Err(TreeFault::DuplicatePath(path.try_clone(alloc)?));
    }
    if let Some(file) = least_conflict(&entries, Conflict::Under) {
        if let Some(below) = least_below(&entries, file) {
            return Err(TreeFault::FileUnderFile(file.try_clone(alloc)?, below.try_clone(alloc)?));
        }
    }
    Ok(entries)
}

/// The lesser of two paths, where there are two.
fn lesser<'a>(found: Option<&'a RelPath>, path: &'a RelPath) -> Option<&'a RelPath>
    ensures { place result ≡ Some (lesser_of (place found.entry) path.now) }
{
    match found {
        Some(other) if other <= path => Some(other),
        _ => Some(path),
    }
}

/// How two neighbours can't stand in one tree.
#[derive(Clone, Copy)]
enum Conflict {
    /// Both are files and have one path.
    SameFile,
    /// The first is a file, and the second stands under it.
    Under,
}

/// Whether two entries are in this conflict.
fn is_conflict(first: &Entry<'_>, second: &Entry<'_>, conflict: Conflict) -> bool
    ensures { result ≡ is_conflict conflict first.now second.now }
{
    match conflict {
        Conflict::SameFile => first.is_same_file(second),
        Conflict::Under => first.is_above(second),
    }
}

/// The least path of an entry that is in this conflict with the next one.
fn least_conflict<'a>(entries: &[Entry<'a>], conflict: Conflict) -> Option<&'a RelPath>
    ensures { IsLeastOr by_bytes
        (HasNeighbours (is_conflict conflict) entries.now (length entries.now)) (place result) }
{
    let mut least = None;
    for i in 1..entries.len() {
        let first = &entries[i - 1];
        if is_conflict(first, &entries[i], conflict) {
            least = lesser(least, first.path());
        }
    }
    least
}

/// The least path of an entry that stands under a path.
fn least_below<'a>(entries: &[Entry<'a>], path: &RelPath) -> Option<&'a RelPath>
    ensures { IsLeastOr by_bytes
        (HasBelow entries.now path.now (length entries.now)) (place result) }
{
    let mut least = None;
    for entry in entries {
        if entry.stands_under(path) {
            least = lesser(least, entry.path());
        }
    }
    least
}
