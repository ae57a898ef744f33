//! What was seen at a path, in words.

use crate::arguments::{read_mark, read_path};
use rx_base::Digest;
use rx_rows::{RowFault, Turn};
use rx_world::{ChangedInput, Look, Seen, Stamp};

/// `HASH SIZE`: 32 bytes, and how many bytes the content has.
pub(crate) fn read_digest(turn: &mut Turn<'_, '_>) -> Digest {
    let hash = read_hash(turn);
    let size = turn.read_number();
    Digest { hash, size }
}

fn read_hash(turn: &mut Turn<'_, '_>) -> [u8; 32] {
    let mut hash = [0u8; 32];
    let bytes = turn.read_bytes();
    if bytes.len() == 32 {
        hash.copy_from_slice(&bytes);
    } else {
        turn.refuse(RowFault::BadBytes);
    }
    hash
}

/// `file SIZE HIGH LOW MARK`, with the upper and the lower half of the stamp's mark; `absent`,
/// `dir` or `other`.
fn read_look(turn: &mut Turn<'_, '_>) -> Look {
    match turn.read_word() {
        "absent" => Look::Absent,
        "dir" => Look::Dir,
        "other" => Look::Other,
        "file" => read_file(turn),
        _ => {
            turn.refuse(RowFault::BadCall);
            Look::Absent
        }
    }
}

fn read_file(turn: &mut Turn<'_, '_>) -> Look {
    let size = turn.read_number();
    let high = u128::from(turn.read_number());
    let low = u128::from(turn.read_number());
    let stamp = Stamp {
        size,
        mark: (high << 64) | low,
    };
    let executable = read_mark(turn);
    Look::File { stamp, executable }
}

/// `LOOK no_digest`, or `LOOK digest DIGEST`.
fn read_seen(turn: &mut Turn<'_, '_>) -> Seen {
    let look = read_look(turn);
    match turn.read_word() {
        "no_digest" => Seen::from(look),
        "digest" => {
            let digest = Some(read_digest(turn));
            Seen { look, digest }
        }
        _ => {
            turn.refuse(RowFault::BadCall);
            Seen::from(look)
        }
    }
}

/// `PATH SEEN SEEN`.
pub(crate) fn read_changed(turn: &mut Turn<'_, '_>) -> ChangedInput {
    ChangedInput {
        path: read_path(turn),
        first: read_seen(turn),
        second: read_seen(turn),
    }
}
