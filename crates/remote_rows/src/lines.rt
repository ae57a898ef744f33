//! The lines of a client in memory, as a row has them: see the headings of `stdin`.

use crate::commands::command;
use crate::events::read_heard;
use crate::results::read_name;
use rx_action::{ActionKey, action_of};
use rx_base::{Bytes, Items, digest_of};
use rx_exec_messages::{NamedBlob, ScriptLine};
use rx_remote::Heard;
use rx_rows::{Row, RowFault};
use rx_world::{CallFault, Dialect};
use std::alloc::Global;
use std::collections::BTreeSet;

/// The lines that the next words tell, to the row's end.
pub(crate) fn read_lines(alloc: Global, row: &mut Row<'_>) -> Result<Vec<ScriptLine>, RowFault> {
    let mut lines = Vec::new(alloc);
    for _ in 0..u64::MAX {
        if row.is_done() {
            return Ok(lines);
        }
        lines.push(read_line(alloc, row)?)?;
    }
    Ok(lines)
}

/// One line: what a call is answered, or a fault.
fn read_line(alloc: Global, row: &mut Row<'_>) -> Result<ScriptLine, RowFault> {
    match row.word()? {
        "lacks" => read_lacks(alloc, row),
        "stored" => Ok(ScriptLine::Stored),
        "executes" => Ok(ScriptLine::Executes(read_key(alloc, row)?.digest)),
        "resumes" => Ok(ScriptLine::Resumes(read_name(alloc, row)?)),
        "gives" => read_gives(alloc, row),
        "gone" => Ok(ScriptLine::Fault(gone())),
        word => read_answer(alloc, word, row),
    }
}

/// The line of an event that one call is answered.
fn read_answer(alloc: Global, word: &str, row: &mut Row<'_>) -> Result<ScriptLine, RowFault> {
    match read_heard(alloc, word, row)? {
        Heard::Told(capabilities) => Ok(ScriptLine::Capabilities(capabilities)),
        Heard::Cached(result) => Ok(ScriptLine::Cached(result)),
        Heard::Next(operation) => Ok(ScriptLine::Operation(operation)),
        Heard::Fault(fault) => Ok(ScriptLine::Fault(fault)),
        Heard::Over(code) => Ok(ScriptLine::Over(code)),
        _ => Err(RowFault::BadCall),
    }
}

/// The next word, a dialect: the key of the one command on an empty tree under it.
fn read_key(alloc: Global, row: &mut Row<'_>) -> Result<ActionKey, RowFault> {
    let dialect = match row.word()? {
        "New" => Dialect::New,
        "Old" => Dialect::Old,
        _ => return Err(RowFault::BadCall),
    };
    let command = command(alloc)?;
    match action_of(alloc, &command, &digest_of(b""), dialect) {
        Ok(key) => Ok(key),
        Err(_) => Err(RowFault::BadCall),
    }
}

/// `lacks DIALECT`: the blobs of the action under it, and `abc`.
fn read_lacks(alloc: Global, row: &mut Row<'_>) -> Result<ScriptLine, RowFault> {
    let key = read_key(alloc, row)?;
    let mut lacks = BTreeSet::new(alloc);
    lacks.insert(key.digest)?;
    lacks.insert(key.command_digest)?;
    lacks.insert(digest_of(b""))?;
    lacks.insert(digest_of(b"abc"))?;
    Ok(ScriptLine::Lacks(lacks))
}

/// `gives TEXT`: under the digest of `abc` these bytes.
fn read_gives(alloc: Global, row: &mut Row<'_>) -> Result<ScriptLine, RowFault> {
    let mut blobs = Items::new(alloc);
    blobs.push(NamedBlob {
        digest: digest_of(b"abc"),
        bytes: Bytes::from_vec(row.text(alloc)?),
    })?;
    Ok(ScriptLine::Blobs(blobs))
}

/// The farm lacks `abc`.
fn gone() -> CallFault {
    CallFault::BlobRefused(digest_of(b"abc"), 5)
}
