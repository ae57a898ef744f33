//! How an attempt ended, as a message within a reply.
//!
//! ```text
//! attempt 1 (1 local, 2 remote), cause 2, value 3 (an int64), path 4, first 5 and second 6 (what was
//! seen), faults 7 (numbers, packed), n 8
//! ```

use crate::fields::end;
use crate::seen_message::SeenMessage;
use rx_base::{Bytes, NoMemory, Text};
use rx_codec::{FieldList, Message, MessageFault, Shape, Writer, check_message, check_text};
use rx_wire::{Fields, Value, WireFault};
use std::alloc::Global;

/// The fields of the message.
#[derive(Debug, Drop)]
pub struct EndMessage {
    pub attempt: u64,
    pub cause: u64,
    /// A step, a limit, a fault's number, or an exit code in two's complement.
    pub value: u64,
    pub path: Text,
    pub first: Option<SeenMessage>,
    pub second: Option<SeenMessage>,
    /// The packed numbers as their bytes.
    pub faults: Bytes,
    pub n: u64,
}

impl Shape for EndMessage {
    ghost use Rattle.rx_session.specs.ReplyMessages.{end_message_parts};

    ghost parts = { end_message_parts };
}

impl Message for EndMessage {
    ghost use Rattle.rx_codec.specs.Decoding.{any_form};
    ghost use Rattle.rx_session.specs.ReplyMessages.{end_message_fields, end_message_from, end_message_is_readable};

    ghost fields = { end_message_fields };

    ghost from = { end_message_from };

    ghost is_canonical = { any_form };

    ghost IsReadable = { end_message_is_readable };

    #[tactic(auto, unfolding(rx_codec::specs::Parts::part_checked))]
    fn check_field(number: u32, value: Value<'_>, read: &Fields<'_>) -> Result<(), WireFault> {
        match number {
            end::PATH => check_text(number, value, read),
            end::FIRST_SEEN | end::SECOND_SEEN => check_message::<SeenMessage>(number, value, read),
            _ => Ok(()),
        }
    }

    #[tactic(auto, unfolding(crate::specs::ReplyMessages::end_message_from))]
    fn from_fields(
        alloc: Global,
        list: &FieldList<'_, EndMessage>,
    ) -> Result<EndMessage, MessageFault> {
        let first = list.message(alloc, end::FIRST_SEEN)?;
        let second = list.message(alloc, end::SECOND_SEEN)?;
        Ok(EndMessage {
            attempt: list.number(end::ATTEMPT),
            cause: list.number(end::CAUSE),
            value: list.number(end::VALUE),
            path: list.text(alloc, end::PATH)?,
            first,
            second,
            faults: list.joined(alloc, end::FAULTS)?,
            n: list.number(end::N),
        })
    }

    #[tactic(auto, unfolding(crate::specs::ReplyMessages::end_message_fields))]
    fn write(&self, alloc: Global, out: &mut Writer<EndMessage>) -> Result<(), NoMemory> {
        out.number(end::ATTEMPT, self.attempt)?;
        out.number(end::CAUSE, self.cause)?;
        out.number(end::VALUE, self.value)?;
        out.text(end::PATH, self.path.as_str())?;
        out.message(alloc, end::FIRST_SEEN, &self.first)?;
        out.message(alloc, end::SECOND_SEEN, &self.second)?;
        out.bytes(end::FAULTS, self.faults.as_slice())?;
        out.number(end::N, self.n)
    }

    fn has_one_form(&self, alloc: Global, bytes: &[u8]) -> Result<bool, NoMemory> {
        Ok(true)
    }
}
