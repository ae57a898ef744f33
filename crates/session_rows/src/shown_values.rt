//! Paths and what was seen at them, shown in the words of `seen`.

use crate::arguments::mark_of;
use rx_base::{Digest, RelPath};
use rx_rows::Turn;
use rx_world::{ChangedInput, Look, Seen, Stamp};
use std::fmt::Debug;

/// A word and a path.
pub(crate) fn show_path(word: &str, path: &RelPath, turn: &mut Turn<'_, '_>) {
    turn.write_word(word);
    turn.write_text(path.as_str().as_bytes());
}

/// A word and what `Debug` shows of a value.
pub(crate) fn show_value(word: &str, value: &impl Debug, turn: &mut Turn<'_, '_>) {
    turn.write_word(word);
    turn.write_value(value);
}

/// `HASH SIZE`.
pub(crate) fn show_digest(digest: &Digest, turn: &mut Turn<'_, '_>) {
    turn.write_bytes(&digest.hash);
    turn.write_number(digest.size);
}

/// `input_changed PATH SEEN SEEN`.
pub(crate) fn show_changed(input: &ChangedInput, turn: &mut Turn<'_, '_>) {
    show_path("input_changed", &input.path, turn);
    show_seen(&input.first, turn);
    show_seen(&input.second, turn);
}

/// `LOOK no_digest`, or `LOOK digest DIGEST`.
fn show_seen(seen: &Seen, turn: &mut Turn<'_, '_>) {
    show_look(&seen.look, turn);
    match &seen.digest {
        None => turn.write_word("no_digest"),
        Some(digest) => {
            turn.write_word("digest");
            show_digest(digest, turn);
        }
    }
}

fn show_look(look: &Look, turn: &mut Turn<'_, '_>) {
    match look {
        Look::Absent => turn.write_word("absent"),
        Look::File { stamp, executable } => show_file(stamp, *executable, turn),
        Look::Dir => turn.write_word("dir"),
        Look::Other => turn.write_word("other"),
    }
}

/// `file SIZE HIGH LOW MARK`.
fn show_file(stamp: &Stamp, executable: bool, turn: &mut Turn<'_, '_>) {
    turn.write_named("file", stamp.size);
    turn.write_number((stamp.mark >> 64) as u64);
    turn.write_number((stamp.mark % (1 << 64)) as u64);
    turn.write_word(mark_of(executable));
}
