//! Source trees in memory that are written as a text.

use crate::{Change, MemorySources, Script, SourceEntries, When};
use rx_base::{Bytes, PathFault, RelPath};
use rx_world::Stamp;
use std::alloc::{AllocError, AllocFailed, Global};
use std::marker::Brand;
use thiserror::Error;

/// Why a text is no source tree.
#[derive(Clone, Copy, Debug, PartialEq, Eq, Error)]
pub enum TreeFault {
    /// What stands behind `@ ` begins with no path below the root.
    #[error("a path is refused")]
    Path,
    /// The word behind a path isn't known.
    #[error("a word is not known")]
    Word,
    #[error("out of memory")]
    NoMemory,
}

impl From<AllocError> for TreeFault {
    fn from(_error: AllocError) -> TreeFault {
        TreeFault::NoMemory
    }
}

impl<T: Drop> From<AllocFailed<T>> for TreeFault {
    fn from(_error: AllocFailed<T>) -> TreeFault {
        TreeFault::NoMemory
    }
}

impl From<PathFault> for TreeFault {
    fn from(fault: PathFault) -> TreeFault {
        match fault {
            PathFault::NoMemory => TreeFault::NoMemory,
            _ => TreeFault::Path,
        }
    }
}

/// What a text says of a path.
#[derive(Clone, Copy, Debug, PartialEq, Eq)]
enum Course {
    Steady,
    /// The stamp has this size.
    Sized(u64),
    /// The first look at it changes its mark.
    Changes,
    /// Each look and each read fails.
    Fails,
    Dir,
    Other,
}

/// A path of a text, and what stands there.
#[derive(Clone, Copy, Debug)]
struct Part<'a> {
    path: &'a str,
    course: Course,
    text: &'a str,
}

/// The course of the word behind a path.
fn course_of(word: &str) -> Result<Course, TreeFault> {
    match word {
        "?" => Ok(Course::Fails),
        "~" => Ok(Course::Changes),
        "|" => Ok(Course::Other),
        size => match size.parse() {
            Ok(size) => Ok(Course::Sized(size)),
            Err(_) => Err(TreeFault::Word),
        },
    }
}

/// The part of a head and the text below it.
fn part_of<'a>(head: &'a str, text: &'a str) -> Result<Part<'a>, TreeFault> {
    let (path, course) = match head.split_once(' ') {
        Some((path, word)) => (path, course_of(word)?),
        None => match head.strip_suffix('/') {
            Some(path) => (path, Course::Dir),
            None => (head, Course::Steady),
        },
    };
    Ok(Part { path, course, text })
}

fn parts_of(alloc: Global, text: &str) -> Result<Vec<Part<'_>>, TreeFault> {
    let mut parts = Vec::new(alloc);
    for part in text.split("@ ") {
        if let Some((head, text)) = part.split_once('\n') {
            parts.push(part_of(head, text)?)?;
        }
    }
    Ok(parts)
}

/// Adds a part's file. Its stamp has the size of the text where the part has none of its own.
fn add_file(
    alloc: Global,
    entries: &mut SourceEntries<Brand>,
    path: RelPath,
    part: &Part<'_>,
    mark: u128,
) -> Result<(), TreeFault> {
    let size = match part.course {
        Course::Sized(size) => size,
        _ => part.text.len() as u64,
    };
    let bytes = Bytes::copy_of(alloc, part.text.as_bytes())?;
    entries.add_stamped(path, Stamp { size, mark }, false, bytes)?;
    Ok(())
}

/// Adds a part, and the directories above it.
fn add_part(
    alloc: Global,
    entries: &mut SourceEntries<Brand>,
    part: &Part<'_>,
    mark: u128,
) -> Result<(), TreeFault> {
    let path = RelPath::read(alloc, part.path)?;
    for above in path.prefixes(alloc)?.into_vec() {
        entries.add_dir(alloc, above)?;
    }
    match part.course {
        Course::Dir => entries.add_dir(alloc, path)?,
        Course::Other => entries.add_other(alloc, path)?,
        _ => add_file(alloc, entries, path, part, mark)?,
    }
    Ok(())
}

/// The entries of all parts, where those that change have a mark of their own.
fn entries_of(
    alloc: Global,
    parts: &[Part<'_>],
    mark: u128,
    changed_mark: u128,
) -> Result<SourceEntries<Brand>, TreeFault> {
    let mut entries = SourceEntries::new(alloc);
    for part in parts {
        let mark = if part.course == Course::Changes {
            changed_mark
        } else {
            mark
        };
        add_part(alloc, &mut entries, part, mark)?;
    }
    Ok(entries)
}

/// The paths of the parts with this course.
fn paths_of(alloc: Global, parts: &[Part<'_>], course: Course) -> Result<Vec<RelPath>, TreeFault> {
    let mut paths = Vec::new(alloc);
    for part in parts {
        if part.course == course {
            paths.push(RelPath::read(alloc, part.path)?)?;
        }
    }
    Ok(paths)
}

/// What the tree becomes behind a look at the path that changes.
fn change_of(
    alloc: Global,
    parts: &[Part<'_>],
    mark: u128,
) -> Result<Option<Change<Brand>>, TreeFault> {
    match paths_of(alloc, parts, Course::Changes)?.pop() {
        None => Ok(None),
        Some(path) => Ok(Some(Change {
            when: When::AfterLook(path),
            entries: entries_of(alloc, parts, mark, mark ^ 1)?,
        })),
    }
}

/// The source tree of a text, whose files have this mark. Behind each `@ ` stands a path and, on the
/// lines below it, the text of its file; a path with a slash behind it is a directory. A space and a
/// word may stand behind a path: `?` where each look and each read fails, `|` of what is neither a file
/// nor a directory, `~` where the first look changes the mark (of several such paths the last counts,
/// and all change with it), or the size that the stamp has. All directories above a path are there too.
pub fn read_tree(alloc: Global, text: &str, mark: u128) -> Result<MemorySources<Brand>, TreeFault> {
    let parts = parts_of(alloc, text)?;
    let entries = entries_of(alloc, &parts, mark, mark)?;
    let change = change_of(alloc, &parts, mark)?;
    let mut sources = MemorySources::new(alloc, entries, change, Script::empty(alloc));
    sources.broken = paths_of(alloc, &parts, Course::Fails)?;
    Ok(sources)
}
