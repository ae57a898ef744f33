//! What is heard, as events of rows: see the headings of `stdin`.

use crate::faults::read_blobs;
use crate::results::{read_name, read_result};
use rx_base::{Bytes, Items, Text};
use rx_exec_messages::{ExecuteResponse, Operation};
use rx_farm_values::{read_capabilities, read_code, read_fault};
use rx_remote::Heard;
use rx_rows::{Row, RowFault};
use rx_world::{Attempt, Decision};
use std::alloc::Global;

/// The event of this word, whose arguments are the next words.
pub(crate) fn read_heard(alloc: Global, word: &str, row: &mut Row<'_>) -> Result<Heard, RowFault> {
    match word {
        "told" => read_told(row),
        "cached" => read_cached(alloc, row),
        "uploaded" => Ok(Heard::Uploaded(Items::new(alloc))),
        "begun" => Ok(Heard::Begun),
        "state" => read_state(alloc, row),
        "done" => read_done(alloc, row),
        "fetched" => read_fetched(alloc, row),
        "fault" => read_call(row),
        "over" => read_over(row),
        "blobs" => read_transfer(alloc, row),
        "stopped" => read_stopped(row),
        _ => Err(RowFault::BadCall),
    }
}

/// `told LOW HIGH`: what the farm says of itself.
fn read_told(row: &mut Row<'_>) -> Result<Heard, RowFault> {
    Ok(Heard::Told(read_capabilities(row)?))
}

/// `cached RESULT`: what the action cache has.
fn read_cached(alloc: Global, row: &mut Row<'_>) -> Result<Heard, RowFault> {
    Ok(Heard::Cached(read_result(alloc, row)?))
}

/// `state NAME`: a state of an execution that isn't done.
fn read_state(alloc: Global, row: &mut Row<'_>) -> Result<Heard, RowFault> {
    let name = read_name(alloc, row)?;
    Ok(Heard::Next(Operation { name, done: None }))
}

/// The next word: `kept`, or `run` for false.
fn read_kept(row: &mut Row<'_>) -> Result<bool, RowFault> {
    match row.word()? {
        "kept" => Ok(true),
        "run" => Ok(false),
        _ => Err(RowFault::BadCall),
    }
}

/// `done NAME ORIGIN RESULT`: the end of an execution, whose result was `kept` or is of a `run`.
fn read_done(alloc: Global, row: &mut Row<'_>) -> Result<Heard, RowFault> {
    let name = read_name(alloc, row)?;
    let cached_result = read_kept(row)?;
    let response = ExecuteResponse {
        result: read_result(alloc, row)?,
        cached_result,
        status: None,
        message: Text::new(alloc),
    };
    Ok(Heard::Next(Operation {
        name,
        done: Some(response),
    }))
}

/// `fetched TEXT`: the bytes of the one digest that was asked for.
fn read_fetched(alloc: Global, row: &mut Row<'_>) -> Result<Heard, RowFault> {
    let mut texts = Items::new(alloc);
    texts.push(Bytes::from_vec(row.text(alloc)?))?;
    Ok(Heard::Fetched(texts))
}

/// `fault FAULT`: the call failed.
fn read_call(row: &mut Row<'_>) -> Result<Heard, RowFault> {
    Ok(Heard::Fault(read_fault(row)?))
}

/// `over CODE`: the execution is over, and failed with this status.
fn read_over(row: &mut Row<'_>) -> Result<Heard, RowFault> {
    Ok(Heard::Over(read_code(row)?))
}

/// `blobs FAULT`: the upload or the fetch failed.
fn read_transfer(alloc: Global, row: &mut Row<'_>) -> Result<Heard, RowFault> {
    Ok(Heard::Blobs(read_blobs(alloc, row)?))
}

/// `stopped DECISION`: the race is decided.
fn read_stopped(row: &mut Row<'_>) -> Result<Heard, RowFault> {
    match row.word()? {
        "Local" => Ok(Heard::Stopped(Decision::By(Attempt::Local))),
        "Cancelled" => Ok(Heard::Stopped(Decision::Cancelled)),
        _ => Err(RowFault::BadCall),
    }
}
