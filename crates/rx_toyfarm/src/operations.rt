//! Executions (`remote_execution.proto`, service Execution), each with all its states in one answer.

use crate::farm::ToyFarm;
use crate::farm_fault::Broken;
use crate::replies::{Reply, code_of, named};
use rx_base::{Bytes, Items, Text};
use rx_exec_messages::{
    ExecuteRequest, ExecuteResponse, Operation, OperationMessage, StateFault, WaitExecutionRequest,
};
use rx_messages::{Any, Message, Status};
use rx_world::CallFault;
use std::alloc::Global;

/// The type of an ExecuteResponse in an Any.
const RESPONSE_URL: &str = "type.googleapis.com/build.bazel.remote.execution.v2.ExecuteResponse";

/// The most states of an execution: one that isn't done, and the end.
const MOST_STATES: usize = 2;

/// Execute.
pub(crate) fn execute(alloc: Global, farm: &mut ToyFarm, message: &[u8]) -> Result<Reply, Broken> {
    let asked = ExecuteRequest::decode(alloc, message)?;
    let action = named(asked.action_digest)?;
    let begun = farm.begin(&action, asked.skip_cache_lookup);
    states_of(alloc, farm, begun)
}

/// WaitExecution.
pub(crate) fn wait(alloc: Global, farm: &mut ToyFarm, message: &[u8]) -> Result<Reply, Broken> {
    let asked = WaitExecutionRequest::decode(alloc, message)?;
    let begun = farm.resume(asked.name.as_str());
    states_of(alloc, farm, begun)
}

/// The states of the execution, if it was begun.
fn states_of(
    alloc: Global,
    farm: &mut ToyFarm,
    begun: Result<(), CallFault>,
) -> Result<Reply, Broken> {
    if let Err(fault) = begun {
        return Ok(Reply::failed(alloc, code_of(fault)?));
    }
    let mut reply = Reply::failed(alloc, 0);
    for _ in 0..MOST_STATES {
        if !farm.is_streaming() {
            break;
        }
        match farm.go_on() {
            Ok(operation) => reply.add(alloc, &message_of(alloc, operation)?)?,
            Err(StateFault::Stream(fault)) => return Ok(Reply::failed(alloc, code_of(fault)?)),
            Err(StateFault::Over(code)) => {
                reply.add(alloc, &failure_of(alloc, code))?;
                break;
            }
        }
    }
    Ok(reply)
}

/// The message of an execution that is over with this status.
fn failure_of(alloc: Global, code: u32) -> OperationMessage {
    OperationMessage {
        name: Text::new(alloc),
        metadata: None,
        done: true,
        error: Some(Status {
            code: i32::try_from(code).unwrap_or(i32::MAX),
            message: Text::new(alloc),
            details: Items::new(alloc),
        }),
        response: None,
    }
}

/// The message of a state.
fn message_of(alloc: Global, operation: Operation) -> Result<OperationMessage, Broken> {
    let Operation { name, done } = operation;
    let response = match done {
        None => None,
        Some(response) => Some(any_of(alloc, &response)?),
    };
    Ok(OperationMessage {
        name,
        metadata: None,
        done: response.is_some(),
        error: None,
        response,
    })
}

/// A response as a message of any kind.
fn any_of(alloc: Global, response: &ExecuteResponse) -> Result<Any, Broken> {
    Ok(Any {
        type_url: Text::copy_of(alloc, RESPONSE_URL)?,
        value: Bytes::from_vec(response.encode(alloc)?),
    })
}
