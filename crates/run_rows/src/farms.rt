//! The lines of a farm's client in memory, as rows tell them: see the headings of `stdin`.

use crate::arguments::read_digest;
use crate::results::read_result;
use rx_base::{Bytes, Items, Text};
use rx_exec_messages::{ExecuteResponse, NamedBlob, Operation, ScriptLine};
use rx_farm_values::{read_capabilities, read_code, read_fault};
use rx_row_values::read_string;
use rx_rows::{Row, RowFault};
use rx_world::CallFault;
use std::alloc::Global;
use std::collections::BTreeSet;

/// The line that the next words tell: what a call is answered, or a fault.
pub(crate) fn read_line(alloc: Global, row: &mut Row<'_>) -> Result<ScriptLine, RowFault> {
    match row.word()? {
        "told" => read_told(row),
        "cached" => read_cached(alloc, row),
        "lacks" => read_lacks(alloc, row),
        "stored" => Ok(ScriptLine::Stored),
        "gives" => read_gives(alloc, row),
        "executes" => read_begun(row),
        "resumes" => read_resumed(alloc, row),
        "state" => read_state(alloc, row),
        "done" => read_done(alloc, row),
        "refuses" => read_refused(row),
        "fault" => read_failed(row),
        _ => Err(RowFault::BadCall),
    }
}

/// `told LOW HIGH`: the versions of the API that the farm serves.
fn read_told(row: &mut Row<'_>) -> Result<ScriptLine, RowFault> {
    Ok(ScriptLine::Capabilities(read_capabilities(row)?))
}

/// `cached RESULT`: what the action cache has.
fn read_cached(alloc: Global, row: &mut Row<'_>) -> Result<ScriptLine, RowFault> {
    Ok(ScriptLine::Cached(read_result(alloc, row)?))
}

/// `lacks DIGEST ..`: of the blobs that are asked for, these.
fn read_lacks(alloc: Global, row: &mut Row<'_>) -> Result<ScriptLine, RowFault> {
    let mut lacks = BTreeSet::new(alloc);
    for _ in 0..u64::MAX {
        if row.is_done() {
            break;
        }
        lacks.insert(read_digest(row)?)?;
    }
    Ok(ScriptLine::Lacks(lacks))
}

/// `gives DIGEST TEXT ..`: under these digests these bytes.
fn read_gives(alloc: Global, row: &mut Row<'_>) -> Result<ScriptLine, RowFault> {
    let mut blobs = Items::new(alloc);
    for _ in 0..u64::MAX {
        if row.is_done() {
            break;
        }
        blobs.push(NamedBlob {
            digest: read_digest(row)?,
            bytes: Bytes::from_vec(row.text(alloc)?),
        })?;
    }
    Ok(ScriptLine::Blobs(blobs))
}

/// `executes DIGEST`: the execution of this action begins.
fn read_begun(row: &mut Row<'_>) -> Result<ScriptLine, RowFault> {
    Ok(ScriptLine::Executes(read_digest(row)?))
}

/// `resumes NAME`: the execution of this name goes on.
fn read_resumed(alloc: Global, row: &mut Row<'_>) -> Result<ScriptLine, RowFault> {
    Ok(ScriptLine::Resumes(read_name(alloc, row)?))
}

/// `state NAME`: a state of an execution that isn't done.
fn read_state(alloc: Global, row: &mut Row<'_>) -> Result<ScriptLine, RowFault> {
    let name = read_name(alloc, row)?;
    Ok(ScriptLine::Operation(Operation { name, done: None }))
}

/// The next word: `kept`, or `run` for false.
fn read_kept(row: &mut Row<'_>) -> Result<bool, RowFault> {
    match row.word()? {
        "kept" => Ok(true),
        "run" => Ok(false),
        _ => Err(RowFault::BadCall),
    }
}

/// `done NAME ORIGIN RESULT`: the end of an execution, whose result was `kept` or is of a `run`.
fn read_done(alloc: Global, row: &mut Row<'_>) -> Result<ScriptLine, RowFault> {
    let name = read_name(alloc, row)?;
    let cached_result = read_kept(row)?;
    let response = ExecuteResponse {
        result: read_result(alloc, row)?,
        cached_result,
        status: None,
        message: Text::new(alloc),
    };
    Ok(ScriptLine::Operation(Operation {
        name,
        done: Some(response),
    }))
}

/// `refuses DIGEST CODE`: a blob is refused with this status.
fn read_refused(row: &mut Row<'_>) -> Result<ScriptLine, RowFault> {
    let digest = read_digest(row)?;
    let code = read_code(row)?;
    Ok(ScriptLine::Fault(CallFault::BlobRefused(digest, code)))
}

/// `fault FAULT`: the call fails.
fn read_failed(row: &mut Row<'_>) -> Result<ScriptLine, RowFault> {
    Ok(ScriptLine::Fault(read_fault(row)?))
}

/// The next word, a name of an execution in quotes, which may be empty.
fn read_name(alloc: Global, row: &mut Row<'_>) -> Result<Text, RowFault> {
    Ok(Text::from_string(read_string(alloc, row)?))
}
