//! What a state of an execution says (`google/longrunning/operations.proto`, Operation; `remote_execution.proto`, Execute).

ghost use Rattle.std.specs.Prelude.{◌≡◌};
ghost use Rattle.rx_base.specs.Results.{Gives};
ghost use Rattle.rx_world.specs.declared.call_faults.CallFault.TheVariants.{NoMemory as starved};
ghost use Rattle.rx_exec_messages.specs.declared.state_faults.StateFault.TheVariants.{Stream as by_bytes};
ghost use Rattle.rx_grpc.specs.Operations.{by_stream, end_of, is_response, no_response, operation_by, operation_of, response_by, response_of};

use crate::blob_items::code_of;
use crate::replies::read;
use rx_base::Text;
use rx_exec_messages::{ExecuteResponse, Operation, OperationMessage, StateFault};
use rx_messages::Any;
use rx_world::CallFault;
use std::alloc::Global;

/// How the URL of an Any that has an ExecuteResponse ends: the type is what follows its last `/`.
const RESPONSE_ENDING: &[u8] = b"/build.bazel.remote.execution.v2.ExecuteResponse";

/// A fault of the bytes is one of the stream.
pub fn by_stream<T>(read: Result<T, CallFault>) -> Result<T, StateFault>
    ensures { result ≡ by_stream read }
{
    match read {
        Ok(x) => Ok(x),
        Err(fault) => Err(StateFault::Stream(fault)),
    }
}

/// How an execution that has no response ended.
fn no_response(alloc: Global) -> ExecuteResponse
    ensures { result ≡ no_response }
{
    ExecuteResponse {
        result: None,
        cached_result: false,
        status: None,
        message: Text::new(alloc),
    }
}

/// Whether the URL of an Any names an ExecuteResponse.
fn is_response(url: &str) -> bool
    ensures { result ≡ is_response url.now }
{
    url.as_bytes().ends_with(RESPONSE_ENDING)
}

/// The response in an Any.
fn response_of(alloc: Global, any: &Any) -> Result<ExecuteResponse, CallFault>
    ensures { Gives starved (λ x. x) result (response_of any.now) }
{
    if !is_response(any.type_url.as_str()) {
        return Err(CallFault::BadMessage(0));
    }
    read(alloc, any.value.as_slice())
}

/// The response of an execution that is done.
fn response_by(alloc: Global, any: &Option<Any>) -> Result<ExecuteResponse, StateFault>
    ensures { Gives (by_bytes starved) (λ x. x) result (response_by any.now) }
{
    match any {
        None => Ok(no_response(alloc)),
        Some(any) => {
            let response = by_stream(response_of(alloc, any))?;
            let code = code_of(&response.status);
            if code != 0 {
                return Err(StateFault::Over(code));
            }
            Ok(response)
        }
    }
}

/// How an execution ended.
fn end_of(alloc: Global, message: &OperationMessage) -> Result<ExecuteResponse, StateFault>
    ensures { Gives (by_bytes starved) (λ x. x) result (end_of message.now) }
{
    let code = code_of(&message.error);
    if code != 0 {
        return Err(StateFault::Over(code));
    }
    response_by(alloc, &message.response)
}

/// The state that a message means.
#[tactic(auto, unfolding(crate::specs::Operations::operation_of))]
fn operation_of(alloc: Global, message: OperationMessage) -> Result<Operation, StateFault>
    ensures { Gives (by_bytes starved) (λ x. x) result (operation_of message) }
{
    if !message.done {
        return Ok(Operation {
            name: message.name,
            done: None,
        });
    }
    let response = end_of(alloc, &message)?;
    Ok(Operation {
        name: message.name,
        done: Some(response),
    })
}

/// The state that the bytes of a message tell.
pub fn operation_by(alloc: Global, bytes: &[u8]) -> Result<Operation, StateFault>
    ensures { Gives (by_bytes starved) (λ x. x) result (operation_by bytes.now) }
{
    let message: OperationMessage = by_stream(read(alloc, bytes))?;
    operation_of(alloc, message)
}
