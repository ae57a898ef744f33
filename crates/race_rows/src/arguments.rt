//! Plans, attempts and their ends, as arguments of rows.

use rx_base::{Bytes, Items};
use rx_rows::{Row, RowFault};
use rx_world::{Attempt, BenchStep, Cause, End, Exit, Origin, Outcome, Plan, RemoteCause};
use std::alloc::Global;

/// The next word, a plan by its name.
pub(crate) fn read_plan(row: &mut Row<'_>) -> Result<Plan, RowFault> {
    match row.word()? {
        "LocalOnly" => Ok(Plan::LocalOnly),
        "RemoteOnly" => Ok(Plan::RemoteOnly),
        "Fallback" => Ok(Plan::Fallback),
        "Both" => Ok(Plan::Both),
        _ => Err(RowFault::BadCall),
    }
}

/// The next word, an attempt by its name.
pub(crate) fn read_attempt(row: &mut Row<'_>) -> Result<Attempt, RowFault> {
    match row.word()? {
        "Local" => Ok(Attempt::Local),
        "Remote" => Ok(Attempt::Remote),
        _ => Err(RowFault::BadCall),
    }
}

/// `done CODE`, or `BenchFault` with no outcome: an end of the local attempt.
pub(crate) fn read_local_end(
    alloc: Global,
    row: &mut Row<'_>,
) -> Result<End<Outcome, Cause>, RowFault> {
    match row.word()? {
        "done" => Ok(End::Done {
            outcome: read_outcome(alloc, row)?,
            origin: Origin::Local,
        }),
        "BenchFault" => Ok(End::Failed {
            cause: Cause::BenchFault {
                step: BenchStep::Run,
            },
        }),
        _ => Err(RowFault::BadCall),
    }
}

/// `done CODE`, or `CallFailed` with no outcome: an end of the remote attempt.
pub(crate) fn read_remote_end(
    alloc: Global,
    row: &mut Row<'_>,
) -> Result<End<Outcome, RemoteCause>, RowFault> {
    match row.word()? {
        "done" => Ok(End::Done {
            outcome: read_outcome(alloc, row)?,
            origin: Origin::Remote,
        }),
        "CallFailed" => Ok(End::Failed {
            cause: RemoteCause::CallFailed {
                faults: Items::new(alloc),
            },
        }),
        _ => Err(RowFault::BadCall),
    }
}

/// The next word, an exit code: an outcome with it, without texts and files.
fn read_outcome(alloc: Global, row: &mut Row<'_>) -> Result<Outcome, RowFault> {
    Ok(Outcome {
        exit: Exit {
            code: read_code(row)?,
            stdout: Bytes::new(alloc),
            stderr: Bytes::new(alloc),
        },
        files: Items::new(alloc),
    })
}

/// The next word, a number of 32 bits that may have a minus.
fn read_code(row: &mut Row<'_>) -> Result<i32, RowFault> {
    match row.word()?.parse::<i32>() {
        Ok(code) => Ok(code),
        Err(_) => Err(RowFault::BadNumber),
    }
}
