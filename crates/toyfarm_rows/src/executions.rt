//! Calls on actions. A row names an action by the bytes of its message.

use crate::answers::{write_done, write_fault, write_result, write_state_fault};
use rx_base::digest_of;
use rx_exec_messages::{Caller, ExecuteResponse};
use rx_row_values::read_string;
use rx_rows::{Answer, Row, RowFault};
use rx_toyfarm::ToyFarm;
use rx_world::Toy;
use std::alloc::Global;
use std::marker::Brand;

/// `result ACTION`: what the action cache has.
pub(crate) fn result(
    alloc: Global,
    farm: &mut ToyFarm,
    row: &mut Row<'_>,
    answer: &mut Answer,
) -> Result<(), RowFault> {
    let action = digest_of(&row.bytes(alloc)?);
    match Caller::<Toy<Brand>>::get_result(farm, &action) {
        Ok(None) => answer.word("none")?,
        Ok(Some(result)) => write_result(alloc, &result, answer)?,
        Err(fault) => write_fault(alloc, fault, answer)?,
    }
    Ok(())
}

/// `execute ACTION`, `skipping ACTION`: whether the execution was begun.
pub(crate) fn execute(
    alloc: Global,
    farm: &mut ToyFarm,
    row: &mut Row<'_>,
    skip_cache: bool,
    answer: &mut Answer,
) -> Result<(), RowFault> {
    let action = digest_of(&row.bytes(alloc)?);
    let done = Caller::<Toy<Brand>>::execute(farm, &action, skip_cache);
    write_done(alloc, done, answer)
}

/// `wait NAME`: whether there is an execution of this name.
pub(crate) fn wait(
    alloc: Global,
    farm: &mut ToyFarm,
    row: &mut Row<'_>,
    answer: &mut Answer,
) -> Result<(), RowFault> {
    let name = read_string(alloc, row)?;
    let done = Caller::<Toy<Brand>>::wait(farm, name.as_str());
    write_done(alloc, done, answer)
}

/// `next`: the next state of the execution. `BadCall` where none goes on.
pub(crate) fn next(alloc: Global, farm: &mut ToyFarm, answer: &mut Answer) -> Result<(), RowFault> {
    if !farm.is_streaming() {
        return Err(RowFault::BadCall);
    }
    match Caller::<Toy<Brand>>::next_operation(farm) {
        Ok(operation) => {
            answer.text(operation.name.as_str().as_bytes())?;
            write_end(alloc, &operation.done, answer)
        }
        Err(fault) => write_state_fault(alloc, fault, answer),
    }
}

/// Writes how an execution ended, if it did.
fn write_end(
    alloc: Global,
    done: &Option<ExecuteResponse>,
    answer: &mut Answer,
) -> Result<(), RowFault> {
    let Some(response) = done else {
        answer.word("runs")?;
        return Ok(());
    };
    answer.word(if response.cached_result {
        "kept"
    } else {
        "ran"
    })?;
    match &response.result {
        None => answer.word("none")?,
        Some(result) => write_result(alloc, result, answer)?,
    }
    Ok(())
}
