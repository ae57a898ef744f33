//! What a call of one message gives, by what the channel answered: the message, or a fault of a farm's client.

ghost use Rattle.std.specs.Prelude.{◌≡◌};
ghost use Rattle.rx_base.specs.Results.{Gives};
ghost use Rattle.rx_codec.specs.Decoding.{decoded};
ghost use Rattle.rx_world.specs.declared.call_faults.CallFault.TheVariants.{NoMemory as starved};
ghost use Rattle.rx_grpc.specs.Replies.{failed, place_of, read, refused, reply};

use crate::answer::Answer;
use crate::transfer_fault::TransferFault;
use rx_base::Bytes;
use rx_codec::{Message, MessageFault};
use rx_wire::WireFault;
use rx_world::CallFault;
use std::alloc::Global;

/// The first byte that is wrong.
fn place_of(fault: WireFault) -> usize
    ensures { result ≡ place_of fault }
{
    match fault {
        WireFault::Truncated(at) => at,
        WireFault::VarintTooLong(at) => at,
        WireFault::BadType(at) => at,
        WireFault::ZeroField(at) => at,
        WireFault::BadUtf8(at) => at,
    }
}

/// A message that is refused.
fn refused(fault: MessageFault) -> CallFault
    ensures { result ≡ refused fault }
{
    match fault {
        MessageFault::Wire(fault) => CallFault::BadMessage(place_of(fault)),
        MessageFault::NotCanonical => CallFault::BadMessage(0),
        MessageFault::BadValue(_) => CallFault::BadMessage(0),
        MessageFault::NoMemory => CallFault::NoMemory,
    }
}

/// A fault of the transport.
pub fn failed(fault: TransferFault) -> CallFault
    ensures { result ≡ failed fault }
{
    match fault {
        TransferFault::Link => CallFault::Link,
        TransferFault::Protocol(code) => CallFault::Protocol(code),
        TransferFault::NoMemory => CallFault::NoMemory,
    }
}

/// The message of some bytes.
pub fn read<M: Message>(alloc: Global, bytes: &[u8]) -> Result<M, CallFault>
    ensures { Gives starved (λ x. x) result
        (read (decoded M.parts M.from M.is_canonical bytes.now)) }
{
    match M::decode(alloc, bytes) {
        Ok(message) => Ok(message),
        Err(fault) => Err(refused(fault)),
    }
}

/// The message that was answered.
pub fn reply<M: Message>(
    alloc: Global,
    heard: Result<Answer, TransferFault>,
) -> Result<M, CallFault>
    ensures { Gives starved (λ x. x) result
        (reply (decoded M.parts M.from M.is_canonical) heard) }
{
    match heard {
        Ok(Answer::Message(message)) => read(alloc, message.as_slice()),
        Ok(Answer::Status(code)) => Err(CallFault::Status(code as u32)),
        Ok(Answer::Compressed) => Err(CallFault::Compressed),
        Ok(Answer::TooLarge) => Err(CallFault::TooLarge),
        Ok(Answer::NoStatus) => Err(CallFault::NoStatus),
        Ok(Answer::BadMessage) => Err(CallFault::BadMessage(0)),
        Err(fault) => Err(failed(fault)),
    }
}
