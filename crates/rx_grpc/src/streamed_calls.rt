//! Calls of one message with streamed answers: how they are begun, and their items one after another.

ghost use Rattle.std.specs.Prelude.{◌≡◌, true, IfOk, OnOk};
ghost use Rattle.rx_base.specs.Results.{Gives};
ghost use Rattle.rx_world.specs.declared.call_faults.CallFault.TheVariants.{NoMemory as starved};
ghost use Rattle.rx_exec_messages.specs.declared.state_faults.StateFault.TheVariants.{Stream as by_bytes};
ghost use Rattle.rx_codec.specs.FieldBytes.{fields_bytes};
ghost use Rattle.rx_grpc.specs.Item.{is_message};
ghost use Rattle.rx_grpc.specs.Questions.{one};
ghost use Rattle.rx_grpc.specs.Running.{HasBegun};
ghost use Rattle.rx_grpc.specs.StreamedCalls.{GoesOn, HearsItems, HearsMessage, HearsState, IsBegun, first_of, message_of, state_of};
ghost use Rattle.rx_grpc.specs.Streamed.{is_answering};

use crate::channel::Channel;
use crate::method::Method;
use crate::operations::operation_by;
use crate::replies::failed;
use crate::stream_item::StreamItem;
use crate::transfer_fault::TransferFault;
use rx_base::Bytes;
use rx_codec::Message;
use rx_exec_messages::{Operation, StateFault};
use rx_world::{CallFault, Dial};
use std::alloc::Global;

/// Begins a call. A question of more than 4,294,967,295 bytes isn't sent, and is want of memory.
pub fn begin<D: Dial + Drop, Q: Message>(
    alloc: Global,
    channel: &mut Channel<D>,
    method: Method,
    question: &Q,
) -> Result<(), TransferFault>
    ensures begun { IsBegun D.faults D.rule D.L.Link
        (one method (fields_bytes (Q.fields question.now))) channel.old channel.new result }
    ensures open { OnOk result (is_answering channel.new.transport ≡ true) }
{
    let Ok(message) = question.encode(alloc) else {
        return Err(TransferFault::NoMemory);
    };
    if message.len() > u32::MAX as usize {
        return Err(TransferFault::NoMemory);
    }
    channel.begin(method.path(), &message)
}

/// The next item of the answer that is open.
pub fn next<D: Dial + Drop>(channel: &mut Channel<D>) -> Result<StreamItem, TransferFault>
    requires { is_answering channel.old.transport ≡ true }
    ensures goes { GoesOn D.rule D.L.Link channel.old channel.new result }
    ensures open { IfOk result (λ item. is_message item ≡ true →
        is_answering channel.new.transport ≡ true) }
{
    channel.next()
}

/// The next message of an execution.
fn message_of(came: Result<StreamItem, TransferFault>) -> Result<Bytes, CallFault>
    ensures { result ≡ message_of came }
{
    match came {
        Ok(StreamItem::Message(message)) => Ok(message),
        Ok(StreamItem::Success { .. }) => Err(CallFault::Cut),
        Ok(StreamItem::Status(code)) => Err(CallFault::Status(code as u32)),
        Ok(StreamItem::Compressed) => Err(CallFault::Compressed),
        Ok(StreamItem::TooLarge) => Err(CallFault::TooLarge),
        Ok(StreamItem::NoStatus) => Err(CallFault::NoStatus),
        Ok(StreamItem::LinkEnd) => Err(CallFault::Cut),
        Err(fault) => Err(failed(fault)),
    }
}

/// The next message of the execution whose answer is open.
fn next_message<D: Dial + Drop>(channel: &mut Channel<D>) -> Result<Bytes, CallFault>
    requires { is_answering channel.old.transport ≡ true }
    ensures heard { HearsMessage D.rule D.L.Link channel.old channel.new (λ came.
        result ≡ message_of came) }
    ensures open { OnOk result (is_answering channel.new.transport ≡ true) }
{
    message_of(next(channel))
}

/// Begins an execution, or a wait for one, and hears its first message.
pub fn begin_states<D: Dial + Drop, Q: Message>(
    alloc: Global,
    channel: &mut Channel<D>,
    method: Method,
    question: &Q,
) -> Result<Bytes, CallFault>
    ensures heard { HearsItems D.faults D.rule D.L.Link
        (one method (fields_bytes (Q.fields question.now))) channel.old channel.new (λ begun items.
        Gives starved (λ x. x) result (first_of begun items)) }
    ensures begun { IfOk result (HasBegun D.rule D.L.Link
        (one method (fields_bytes (Q.fields question.now))) channel.old channel.new) }
    ensures open { OnOk result (is_answering channel.new.transport ≡ true) }
{
    match begin(alloc, channel, method, question) {
        Ok(()) => next_message(channel),
        Err(fault) => Err(failed(fault)),
    }
}

/// The next state of the execution whose answer is open: what its first message tells, where that is kept, or the next one.
pub fn next_state<D: Dial + Drop>(
    alloc: Global,
    channel: &mut Channel<D>,
    first: Option<Bytes>,
) -> Result<Operation, StateFault>
    requires { is_answering channel.old.transport ≡ true }
    ensures heard { HearsState D.rule D.L.Link first channel.old channel.new (λ message.
        Gives (by_bytes starved) (λ x. x) result (state_of message)) }
    ensures open { OnOk result (is_answering channel.new.transport ≡ true) }
{
    match first {
        Some(message) => operation_by(alloc, message.as_slice()),
        None => match next_message(channel) {
            Ok(message) => operation_by(alloc, message.as_slice()),
            Err(fault) => Err(StateFault::Stream(fault)),
        },
    }
}
