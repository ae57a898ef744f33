//! What the proxy says to a farm and hears from it: the calls of a farm's client with what they mean,
//! a client in memory for rows and tests, and the messages of the Remote Execution API v2 with which a
//! server is called (what it can do, kept results, executions, operations and streams of bytes). How
//! any message is read and written stands in `rx_codec`. Nothing here opens a connection.
#![tactic(auto)]

mod answers;
mod callers;
mod capabilities;
mod exchanges;
mod executions;
mod numbers;
mod operations;
mod script;
mod script_answers;
mod script_calls;
mod script_lines;
mod script_state;
mod state_faults;
mod streams;
mod told;
mod trace;
mod versions;

pub use answers::{Capabilities, Operation};
pub use callers::Caller;
pub use capabilities::{CacheCapabilities, GetCapabilitiesRequest, ServerCapabilities};
pub use exchanges::{Exchange, NamedBlob};
pub use executions::{
    ExecuteRequest, ExecuteResponse, GetActionResultRequest, WaitExecutionRequest,
};
pub use operations::OperationMessage;
pub use script::Script;
pub use script_lines::{Ask, ScriptLine};
pub use state_faults::StateFault;
pub use streams::{ReadRequest, ReadResponse, WriteRequest, WriteResponse};
pub use versions::Version;
