//! `digest CALL ..`: digests, and hashes as text.

use crate::arguments::write_digest;
use rx_base::{digest_of, read_hash};
use rx_rows::{RowFault, Turn};

/// Makes the call that the next word names.
pub(crate) fn call(turn: &mut Turn<'_, '_>) {
    match turn.read_word() {
        "of" => of(turn),
        "hash" => hash(turn),
        "order" => order(turn),
        _ => turn.refuse(RowFault::NoCall),
    }
}

/// `of TEXT`: the digest of the text's bytes.
fn of(turn: &mut Turn<'_, '_>) {
    let bytes = turn.read_text();
    write_digest(&digest_of(&bytes), turn);
}

/// `hash TEXT`: the hash that a text stands for, as text again.
fn hash(turn: &mut Turn<'_, '_>) {
    let text = turn.read_string();
    match read_hash(text.as_str()) {
        Ok(hash) => turn.write_bytes(&hash),
        Err(fault) => turn.write_value(&fault),
    }
}

/// `order TEXT TEXT`: how the digests of two texts stand.
fn order(turn: &mut Turn<'_, '_>) {
    let first = digest_of(&turn.read_text());
    let second = digest_of(&turn.read_text());
    turn.write_value(&first.cmp(&second));
}
