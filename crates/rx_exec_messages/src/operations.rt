//! What a server tells of a call that goes on (`google/longrunning/operations.proto`, Operation).

use crate::numbers::operation_message;
use rx_base::{NoMemory, Text};
use rx_codec::{FieldList, Message, MessageFault, Shape, Writer, check_message, check_text};
use rx_messages::{Any, Status};
use rx_wire::{Fields, Value, WireFault};
use std::alloc::Global;

/// What a server tells of a call that goes on (`google.longrunning.Operation`). The standard has
/// `error` and `response` in one oneof, of which the last that was sent counts; here each is read
/// for itself.
#[derive(Debug, Drop)]
pub struct OperationMessage {
    /// The name that the server gave the operation.
    pub name: Text,
    /// How far it is.
    pub metadata: Option<Any>,
    /// Whether it has ended.
    pub done: bool,
    /// How it failed.
    pub error: Option<Status>,
    /// What it answers; for an execution an ExecuteResponse.
    pub response: Option<Any>,
}

impl Shape for OperationMessage {
    ghost use Rattle.rx_exec_messages.specs.Operations.{operation_message_parts};

    ghost parts = { operation_message_parts };
}

impl Message for OperationMessage {
    ghost use Rattle.rx_codec.specs.Decoding.{any_form};
    ghost use Rattle.rx_exec_messages.specs.Operations.{operation_message_fields};
    ghost use Rattle.rx_exec_messages.specs.Operations.{operation_message_from};
    ghost use Rattle.rx_exec_messages.specs.Operations.{operation_message_is_readable};

    ghost fields = { operation_message_fields };

    ghost from = { operation_message_from };

    ghost is_canonical = { any_form };

    ghost IsReadable = { operation_message_is_readable };

    #[tactic(auto, unfolding(rx_codec::specs::Parts::part_checked))]
    fn check_field(number: u32, value: Value<'_>, read: &Fields<'_>) -> Result<(), WireFault> {
        match number {
            operation_message::NAME => check_text(number, value, read),
            operation_message::METADATA | operation_message::RESPONSE => check_message::<Any>(
                number, value, read,
            ),
            operation_message::ERROR => check_message::<Status>(number, value, read),
            _ => Ok(()),
        }
    }

    #[tactic(auto, unfolding(crate::specs::Operations::operation_message_from))]
    fn from_fields(
        alloc: Global,
        list: &FieldList<'_, OperationMessage>,
    ) -> Result<OperationMessage, MessageFault> {
        let name = list.text(alloc, operation_message::NAME)?;
        let metadata = list.message(alloc, operation_message::METADATA)?;
        let done = list.truth(operation_message::DONE);
        let error = list.message(alloc, operation_message::ERROR)?;
        let response = list.message(alloc, operation_message::RESPONSE)?;
        Ok(OperationMessage {
            name,
            metadata,
            done,
            error,
            response,
        })
    }

    #[tactic(auto, unfolding(crate::specs::Operations::operation_message_fields))]
    fn write(&self, alloc: Global, out: &mut Writer<OperationMessage>) -> Result<(), NoMemory> {
        out.text(operation_message::NAME, self.name.as_str())?;
        out.message(alloc, operation_message::METADATA, &self.metadata)?;
        out.truth(operation_message::DONE, self.done)?;
        out.message(alloc, operation_message::ERROR, &self.error)?;
        out.message(alloc, operation_message::RESPONSE, &self.response)
    }

    fn has_one_form(&self, alloc: Global, bytes: &[u8]) -> Result<bool, NoMemory> {
        Ok(true)
    }
}
