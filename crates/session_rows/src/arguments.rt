//! Arguments that several calls read.

use rx_base::{PathFault, RelPath};
use rx_rows::{RowFault, Turn};

/// The bytes of all words that are left, put together.
pub(crate) fn read_frame(turn: &mut Turn<'_, '_>) -> Vec<u8> {
    let mut frame = Vec::new(turn.alloc());
    for _ in 0..u64::MAX {
        if turn.is_done() {
            break;
        }
        if frame.extend_from_slice(&turn.read_bytes()).is_err() {
            turn.refuse(RowFault::NoMemory);
        }
    }
    frame
}

/// The next word, a path in quotes.
pub(crate) fn read_path(turn: &mut Turn<'_, '_>) -> RelPath {
    let text = turn.read_string();
    match RelPath::read(turn.alloc(), text.as_str()) {
        Ok(path) => path,
        Err(fault) => {
            turn.refuse(refusal_of(fault));
            RelPath::root(turn.alloc())
        }
    }
}

/// What a row is refused for whose path is none.
fn refusal_of(fault: PathFault) -> RowFault {
    match fault {
        PathFault::NoMemory => RowFault::NoMemory,
        _ => RowFault::BadText,
    }
}

/// The next word, whether a file may be executed.
pub(crate) fn read_mark(turn: &mut Turn<'_, '_>) -> bool {
    match turn.read_word() {
        "executable" => true,
        "plain" => false,
        _ => {
            turn.refuse(RowFault::BadCall);
            false
        }
    }
}

/// A mark in the words of `read_mark`.
pub(crate) fn mark_of(executable: bool) -> &'static str {
    if executable { "executable" } else { "plain" }
}
