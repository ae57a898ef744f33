//! Arguments that several calls read, and answers that several write.

use rx_base::{Digest, Items, PathFault, RelPath};
use rx_rows::{RowFault, Turn};

/// The next word, a path in quotes; `.` is the root. `BadCall` where it is no path.
pub(crate) fn path(turn: &mut Turn<'_, '_>) -> RelPath {
    let text = turn.read_string();
    path_of(text.as_str(), turn)
}

/// The next word, paths with a space between each two in one pair of quotes.
pub(crate) fn paths(turn: &mut Turn<'_, '_>) -> Items<RelPath> {
    let text = turn.read_string();
    let mut paths = Items::new(turn.alloc());
    for word in text.as_str().split(' ') {
        if !word.is_empty() && paths.push(path_of(word, turn)).is_err() {
            turn.refuse(RowFault::NoMemory);
        }
    }
    paths
}

/// The path that a text names.
fn path_of(text: &str, turn: &mut Turn<'_, '_>) -> RelPath {
    match RelPath::read(turn.alloc(), text) {
        Ok(path) => path,
        Err(fault) => {
            turn.refuse(refusal_of(fault));
            RelPath::root(turn.alloc())
        }
    }
}

/// What a row is refused for whose path is none.
fn refusal_of(fault: PathFault) -> RowFault {
    match fault {
        PathFault::NoMemory => RowFault::NoMemory,
        _ => RowFault::BadCall,
    }
}

/// Writes a path in quotes. The root has no byte.
pub(crate) fn write_path(path: &RelPath, turn: &mut Turn<'_, '_>) {
    turn.write_text(path.as_str().as_bytes());
}

/// Writes each path in quotes, or `none`.
pub(crate) fn write_paths(paths: &[RelPath], turn: &mut Turn<'_, '_>) {
    if paths.is_empty() {
        turn.write_word("none");
    }
    for path in paths {
        write_path(path, turn);
    }
}

/// Writes a digest's hash and size.
pub(crate) fn write_digest(digest: &Digest, turn: &mut Turn<'_, '_>) {
    let alloc = turn.alloc();
    let hash = turn.made(digest.hash_text(alloc), String::new(alloc));
    turn.write_word(hash.as_str());
    turn.write_number(digest.size);
}
