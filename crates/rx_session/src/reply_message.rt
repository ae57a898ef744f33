//! The Reply message, which is the payload of a reply's frame.
//!
//! ```text
//! kind 1, exit 2 (an int32), stdout 3, stderr 4, origin 5, receipt 6, placed 7, reason 8, value 9,
//! path 10, first 11 and second 12 (what was seen), ends 13 (the ends of attempts, repeated)
//! ```

use crate::end_message::EndMessage;
use crate::fields::reply;
use crate::seen_message::SeenMessage;
use rx_base::{Bytes, Items, NoMemory, Text};
use rx_codec::{FieldList, Message, MessageFault, Shape, Writer, check_message, check_text};
use rx_wire::{Fields, Value, WireFault};
use std::alloc::Global;

/// The fields of the message.
#[derive(Debug, Drop)]
pub struct ReplyMessage {
    pub kind: u64,
    pub exit: i32,
    pub stdout: Bytes,
    pub stderr: Bytes,
    pub origin: u64,
    pub receipt: u64,
    pub placed: u64,
    pub reason: u64,
    pub value: u64,
    pub path: Text,
    pub first: Option<SeenMessage>,
    pub second: Option<SeenMessage>,
    pub ends: Items<EndMessage>,
}

impl Shape for ReplyMessage {
    ghost use Rattle.rx_session.specs.ReplyMessages.{reply_message_parts};

    ghost parts = { reply_message_parts };
}

impl Message for ReplyMessage {
    ghost use Rattle.rx_codec.specs.Decoding.{any_form};
    ghost use Rattle.rx_session.specs.ReplyMessages.{reply_message_fields, reply_message_from, reply_message_is_readable};

    ghost fields = { reply_message_fields };

    ghost from = { reply_message_from };

    ghost is_canonical = { any_form };

    ghost IsReadable = { reply_message_is_readable };

    #[tactic(auto, unfolding(rx_codec::specs::Parts::part_checked))]
    fn check_field(number: u32, value: Value<'_>, read: &Fields<'_>) -> Result<(), WireFault> {
        match number {
            reply::PATH => check_text(number, value, read),
            reply::FIRST_SEEN | reply::SECOND_SEEN => {
                check_message::<SeenMessage>(number, value, read)
            }
            reply::ENDS => check_message::<EndMessage>(number, value, read),
            _ => Ok(()),
        }
    }

    #[tactic(auto, unfolding(crate::specs::ReplyMessages::reply_message_from))]
    fn from_fields(
        alloc: Global,
        list: &FieldList<'_, ReplyMessage>,
    ) -> Result<ReplyMessage, MessageFault> {
        let first = list.message(alloc, reply::FIRST_SEEN)?;
        let second = list.message(alloc, reply::SECOND_SEEN)?;
        let ends = list.messages(alloc, reply::ENDS)?;
        Ok(ReplyMessage {
            kind: list.number(reply::KIND),
            exit: list.int32(reply::EXIT),
            stdout: list.bytes(alloc, reply::STDOUT)?,
            stderr: list.bytes(alloc, reply::STDERR)?,
            origin: list.number(reply::ORIGIN),
            receipt: list.number(reply::RECEIPT),
            placed: list.number(reply::PLACED),
            reason: list.number(reply::REASON),
            value: list.number(reply::VALUE),
            path: list.text(alloc, reply::PATH)?,
            first,
            second,
            ends,
        })
    }

    #[tactic(auto, unfolding(crate::specs::ReplyMessages::reply_message_fields))]
    fn write(&self, alloc: Global, out: &mut Writer<ReplyMessage>) -> Result<(), NoMemory> {
        out.number(reply::KIND, self.kind)?;
        out.int32(reply::EXIT, self.exit)?;
        out.bytes(reply::STDOUT, self.stdout.as_slice())?;
        out.bytes(reply::STDERR, self.stderr.as_slice())?;
        out.number(reply::ORIGIN, self.origin)?;
        out.number(reply::RECEIPT, self.receipt)?;
        out.number(reply::PLACED, self.placed)?;
        out.number(reply::REASON, self.reason)?;
        out.number(reply::VALUE, self.value)?;
        out.text(reply::PATH, self.path.as_str())?;
        out.message(alloc, reply::FIRST_SEEN, &self.first)?;
        out.message(alloc, reply::SECOND_SEEN, &self.second)?;
        out.messages(alloc, reply::ENDS, &self.ends)
    }

    fn has_one_form(&self, alloc: Global, bytes: &[u8]) -> Result<bool, NoMemory> {
        Ok(true)
    }
}
