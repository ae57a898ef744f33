//! `message KIND TEXT` of the messages with which a server is called.

use crate::messages::again;
use rx_exec_messages::{
    CacheCapabilities, ExecuteRequest, ExecuteResponse, GetActionResultRequest,
    GetCapabilitiesRequest, OperationMessage, ReadRequest, ReadResponse, ServerCapabilities,
    Version, WaitExecutionRequest, WriteRequest, WriteResponse,
};
use rx_rows::{RowFault, Turn};

/// Reads and writes a message of a kind.
pub(crate) fn call(kind: &str, bytes: &[u8], turn: &mut Turn<'_, '_>) {
    match kind {
        "Version" => again::<Version>(bytes, turn),
        "CacheCapabilities" => again::<CacheCapabilities>(bytes, turn),
        "GetCapabilitiesRequest" => again::<GetCapabilitiesRequest>(bytes, turn),
        "ServerCapabilities" => again::<ServerCapabilities>(bytes, turn),
        "GetActionResultRequest" => again::<GetActionResultRequest>(bytes, turn),
        "ExecuteRequest" => again::<ExecuteRequest>(bytes, turn),
        "ExecuteResponse" => again::<ExecuteResponse>(bytes, turn),
        "WaitExecutionRequest" => again::<WaitExecutionRequest>(bytes, turn),
        "OperationMessage" => again::<OperationMessage>(bytes, turn),
        "WriteRequest" => again::<WriteRequest>(bytes, turn),
        "WriteResponse" => again::<WriteResponse>(bytes, turn),
        "ReadRequest" => again::<ReadRequest>(bytes, turn),
        "ReadResponse" => again::<ReadResponse>(bytes, turn),
        _ => turn.refuse(RowFault::NoCall),
    }
}
