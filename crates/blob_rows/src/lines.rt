//! The lines of a script, as a row has them.

use crate::names::Names;
use rx_base::{Bytes, Digest, Items, NoMemory, Text};
use rx_exec_messages::{Capabilities, NamedBlob, Operation, ScriptLine};
use rx_rows::{RowFault, Turn};
use rx_world::CallFault;
use std::alloc::Global;
use std::collections::BTreeSet;

/// The lines that the next words tell, to the row's end.
pub(crate) fn read_lines(turn: &mut Turn<'_, '_>, names: &mut Names) -> Vec<ScriptLine> {
    let mut lines = Vec::new(turn.alloc());
    for _ in 0..u64::MAX {
        if turn.is_done() {
            break;
        }
        if lines.push(read_line(turn, names)).is_err() {
            turn.refuse(RowFault::NoMemory);
        }
    }
    lines
}

/// One line: what a call is answered, or a fault.
fn read_line(turn: &mut Turn<'_, '_>, names: &mut Names) -> ScriptLine {
    match turn.read_word() {
        "says" => ScriptLine::Capabilities(read_capabilities(turn)),
        "uncached" => ScriptLine::Cached(None),
        "lacks" => ScriptLine::Lacks(read_lacks(turn, names)),
        "stored" => ScriptLine::Stored,
        "blobs" => ScriptLine::Blobs(read_blobs(turn, names)),
        "changed" => ScriptLine::Blobs(read_changed(turn, names)),
        "executes" => ScriptLine::Executes(names.read_digest(turn)),
        "resumes" => ScriptLine::Resumes(read_name(turn)),
        "state" => ScriptLine::Operation(read_state(turn)),
        word => ScriptLine::Fault(read_fault(word, turn, names)),
    }
}

/// `says MOST`: this limit of a batch, and no versions.
fn read_capabilities(turn: &mut Turn<'_, '_>) -> Capabilities {
    Capabilities {
        most: turn.read_number(),
        low: None,
        high: None,
    }
}

/// `lacks TEXTS`: these texts, with a space between each two in one pair of quotes.
fn read_lacks(turn: &mut Turn<'_, '_>, names: &mut Names) -> BTreeSet<Digest> {
    let alloc = turn.alloc();
    let texts = turn.read_text();
    turn.made(lacks_of(alloc, &texts, names), BTreeSet::new(alloc))
}

fn lacks_of(alloc: Global, texts: &[u8], names: &mut Names) -> Result<BTreeSet<Digest>, NoMemory> {
    let mut lacks = BTreeSet::new(alloc);
    for text in texts.split(|byte| *byte == b' ') {
        lacks.insert(names.digest(text)?)?;
    }
    Ok(lacks)
}

/// `state NAME`: an operation of this name that isn't done.
fn read_state(turn: &mut Turn<'_, '_>) -> Operation {
    Operation {
        name: read_name(turn),
        done: None,
    }
}

/// The next word, the name of an operation in quotes.
pub(crate) fn read_name(turn: &mut Turn<'_, '_>) -> Text {
    Text::from_string(turn.read_string())
}

/// `blobs TEXTS`: these texts, with a space between each two in one pair of quotes.
fn read_blobs(turn: &mut Turn<'_, '_>, names: &mut Names) -> Items<NamedBlob> {
    let alloc = turn.alloc();
    let texts = turn.read_text();
    turn.made(blobs_of(alloc, &texts, names), Items::new(alloc))
}

fn blobs_of(alloc: Global, texts: &[u8], names: &mut Names) -> Result<Items<NamedBlob>, NoMemory> {
    let mut blobs = Items::new(alloc);
    for text in texts.split(|byte| *byte == b' ') {
        blobs.push(NamedBlob {
            digest: names.digest(text)?,
            bytes: Bytes::copy_of(alloc, text)?,
        })?;
    }
    Ok(blobs)
}

/// `changed TEXT TEXT`: under the digest of the first text the bytes of the second.
fn read_changed(turn: &mut Turn<'_, '_>, names: &mut Names) -> Items<NamedBlob> {
    let digest = names.read_digest(turn);
    let text = turn.read_text();
    names.digest_in(&text, turn);
    let bytes = Bytes::from_vec(text);
    let mut blobs = Items::new(turn.alloc());
    if blobs.push(NamedBlob { digest, bytes }).is_err() {
        turn.refuse(RowFault::NoMemory);
    }
    blobs
}

/// A fault, by its name and its numbers.
fn read_fault(word: &str, turn: &mut Turn<'_, '_>, names: &mut Names) -> CallFault {
    match word {
        "status" => CallFault::Status(turn.read_u32()),
        "link" => CallFault::Link,
        "protocol" => CallFault::Protocol(turn.read_u32()),
        "compressed" => CallFault::Compressed,
        "too_large" => CallFault::TooLarge,
        "no_status" => CallFault::NoStatus,
        "bad_message" => CallFault::BadMessage(turn.read_number() as usize),
        "cut" => CallFault::Cut,
        "refused" => {
            let digest = names.read_digest(turn);
            CallFault::BlobRefused(digest, turn.read_u32())
        }
        "no_memory" => CallFault::NoMemory,
        _ => {
            turn.refuse(RowFault::BadCall);
            CallFault::NoMemory
        }
    }
}
