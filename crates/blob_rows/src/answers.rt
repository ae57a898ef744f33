//! Answers of uploads and fetches, with each digest as the text that has it.

use crate::names::Names;
use rx_base::{Bytes, Digest};
use rx_blobs::BlobFault;
use rx_exec_messages::Ask;
use rx_rows::Turn;
use rx_world::{ChangedInput, Seen};

/// Writes each text, or `nothing`.
pub(crate) fn write_texts(texts: &[Bytes], turn: &mut Turn<'_, '_>) {
    if texts.is_empty() {
        turn.write_word("nothing");
    }
    for text in texts {
        turn.write_text(text.as_slice());
    }
}

/// Writes why blobs weren't uploaded or fetched.
pub(crate) fn write_why(fault: &BlobFault, names: &Names, turn: &mut Turn<'_, '_>) {
    match fault {
        BlobFault::BadBlob { expected, got } => {
            write_digest("BadBlob", expected, names, turn);
            names.write(got, turn);
        }
        BlobFault::Missing(digest) => write_digest("Missing", digest, names, turn),
        BlobFault::Refused(digest, code) => {
            write_digest("Refused", digest, names, turn);
            turn.write_number(u64::from(*code));
        }
        BlobFault::InputChanged(input) => write_changed(input, names, turn),
        BlobFault::SourceFault { path } => {
            turn.write_word("SourceFault");
            turn.write_text(path.as_str().as_bytes());
        }
        fault => turn.write_value(fault),
    }
}

/// Writes a word, and the text that has the digest.
pub(crate) fn write_digest(word: &str, digest: &Digest, names: &Names, turn: &mut Turn<'_, '_>) {
    turn.write_word(word);
    names.write(digest, turn);
}

/// Writes what was seen of an input first, and then.
fn write_changed(input: &ChangedInput, names: &Names, turn: &mut Turn<'_, '_>) {
    turn.write_word("InputChanged");
    turn.write_text(input.path.as_str().as_bytes());
    write_seen(&input.first, names, turn);
    write_seen(&input.second, names, turn);
}

/// Writes the text that was seen of a file, or its look where that alone was seen.
fn write_seen(seen: &Seen, names: &Names, turn: &mut Turn<'_, '_>) {
    match &seen.digest {
        Some(digest) => names.write(digest, turn),
        None => turn.write_value(&seen.look),
    }
}

/// Writes the calls that were made, or `none`.
pub(crate) fn write_asks(asks: &[Ask], names: &Names, turn: &mut Turn<'_, '_>) {
    turn.write_word("calls");
    if asks.is_empty() {
        turn.write_word("none");
    }
    for ask in asks {
        write_ask(ask, names, turn);
    }
}

/// Writes a call that asks for, stores or reads blobs, with their texts, or the name of another one.
fn write_ask(ask: &Ask, names: &Names, turn: &mut Turn<'_, '_>) {
    match ask {
        Ask::FindMissing(digests) => write_list("find_missing", digests.as_slice(), names, turn),
        Ask::Update(digests) => write_list("update", digests.as_slice(), names, turn),
        Ask::WriteStream(digest) => write_digest("write_stream", digest, names, turn),
        Ask::Read(digests) => write_list("read", digests.as_slice(), names, turn),
        Ask::ReadStream(digest) => write_digest("read_stream", digest, names, turn),
        ask => turn.write_value(ask),
    }
}

/// Writes a word, and the text of each digest, or `nothing`.
fn write_list(word: &str, digests: &[Digest], names: &Names, turn: &mut Turn<'_, '_>) {
    turn.write_word(word);
    write_digests(digests, names, turn);
}

/// Writes the text of each digest, or `nothing`.
pub(crate) fn write_digests(digests: &[Digest], names: &Names, turn: &mut Turn<'_, '_>) {
    if digests.is_empty() {
        turn.write_word("nothing");
    }
    for digest in digests {
        names.write(digest, turn);
    }
}
