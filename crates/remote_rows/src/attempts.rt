//! `accepts EVENT ..` and `refuses EVENT ..`: one attempt, which takes a result of the farm's
//! action cache or doesn't. The answer is the first ask, and then the ask after each event, or the
//! end.

ghost use Rattle.rx_base.specs.SortedPaths.{AreSorted};

use crate::answers::write_ask;
use crate::commands::task;
use crate::events::read_heard;
use crate::results::read_name;
use rx_base::{Text, TryClone};
use rx_exec_messages::Operation;
use rx_remote::{Ask, Heard, Phase, RemoteState, step};
use rx_rows::{Answer, Row, RowFault};
use std::alloc::Global;

/// Answers the asks of an attempt that hears the events of the row.
pub(crate) fn call(
    alloc: Global,
    row: &mut Row<'_>,
    accept_cached: bool,
    answer: &mut Answer,
) -> Result<(), RowFault> {
    let mut state = RemoteState::new(alloc, task(alloc, accept_cached)?);
    write_ask(alloc, &Ask::Capabilities, answer)?;
    for _ in 0..u32::MAX {
        if row.is_done() {
            break;
        }
        state = take_turn(alloc, row, state, answer)?;
    }
    Ok(())
}

/// Makes the step of the next event, or the steps of `states COUNT NAME`. The ask after it is
/// answered.
fn take_turn(
    alloc: Global,
    row: &mut Row<'_>,
    state: RemoteState,
    answer: &mut Answer,
) -> Result<RemoteState, RowFault> {
    let (state, ask) = hear_next(alloc, row, state)?;
    write_ask(alloc, &ask, answer)?;
    Ok(state)
}

fn hear_next(
    alloc: Global,
    row: &mut Row<'_>,
    state: RemoteState,
) -> Result<(RemoteState, Ask), RowFault> {
    match row.word()? {
        "states" => hear_states(alloc, row, state),
        word => hear_event(alloc, word, row, state),
    }
}

/// The step of an event by its first word.
fn hear_event(
    alloc: Global,
    word: &str,
    row: &mut Row<'_>,
    state: RemoteState,
) -> Result<(RemoteState, Ask), RowFault> {
    let heard = read_heard(alloc, word, row)?;
    hear(alloc, state, heard)
}

/// The step of what was heard. `BadCall` after the end.
fn hear(alloc: Global, state: RemoteState, heard: Heard) -> Result<(RemoteState, Ask), RowFault> {
    // The task is made anew, so that its outputs are known to be sorted.
    let task = task(alloc, state.task.accept_cached)?;
    let RemoteState {
        task: _,
        marks,
        phase,
    } = state;
    hear_before_end(alloc, RemoteState { task, marks, phase }, heard)
}

fn hear_before_end(
    alloc: Global,
    state: RemoteState,
    heard: Heard,
) -> Result<(RemoteState, Ask), RowFault>
    requires { AreSorted state.task.command.outputs }
{
    if state.phase == Phase::Ended {
        return Err(RowFault::BadCall);
    }
    Ok(step(alloc, state, heard)?)
}

/// The steps of `states COUNT NAME`: so many states of an execution that isn't done, one at least.
/// The ask is that after the last.
fn hear_states(
    alloc: Global,
    row: &mut Row<'_>,
    state: RemoteState,
) -> Result<(RemoteState, Ask), RowFault> {
    let count = row.number()?;
    let name = read_name(alloc, row)?;
    hear_times(alloc, state, &name, count)
}

fn hear_times(
    alloc: Global,
    state: RemoteState,
    name: &Text,
    count: u64,
) -> Result<(RemoteState, Ask), RowFault> {
    let mut next = hear_state(alloc, state, name)?;
    for _ in 1..count {
        next = hear_state(alloc, next.0, name)?;
    }
    Ok(next)
}

/// The step of one state of an execution that isn't done.
fn hear_state(
    alloc: Global,
    state: RemoteState,
    name: &Text,
) -> Result<(RemoteState, Ask), RowFault> {
    let operation = Operation {
        name: name.try_clone(alloc)?,
        done: None,
    };
    hear(alloc, state, Heard::Next(operation))
}
