//! What was seen at a path, as a message within a reply.
//!
//! ```text
//! kind 1 (0 nothing, 1 a file, 2 a directory, 3 anything else), size 2, mark_high 3, mark_low 4,
//! digest 5 (a Digest), executable 6
//! ```

use crate::fields::seen;
use rx_base::{Digest, NoMemory};
use rx_codec::{FieldList, Message, MessageFault, Shape, Writer, check_message};
use rx_wire::{Fields, Value, WireFault};
use std::alloc::Global;

/// The fields of the message. Size, mark and executable are those of a file.
#[derive(Clone, Copy, Debug)]
pub struct SeenMessage {
    pub kind: u64,
    pub size: u64,
    /// The upper 64 bits of the stamp's mark.
    pub mark_high: u64,
    /// The lower 64 bits of the stamp's mark.
    pub mark_low: u64,
    pub digest: Option<Digest>,
    /// 0 or 1.
    pub executable: u64,
}

impl Shape for SeenMessage {
    ghost use Rattle.rx_session.specs.ReplyMessages.{seen_message_parts};

    ghost parts = { seen_message_parts };
}

impl Message for SeenMessage {
    ghost use Rattle.rx_codec.specs.Decoding.{any_form};
    ghost use Rattle.rx_session.specs.ReplyMessages.{seen_message_fields, seen_message_from, seen_message_is_readable};

    ghost fields = { seen_message_fields };

    ghost from = { seen_message_from };

    ghost is_canonical = { any_form };

    ghost IsReadable = { seen_message_is_readable };

    #[tactic(auto, unfolding(rx_codec::specs::Parts::part_checked))]
    fn check_field(number: u32, value: Value<'_>, read: &Fields<'_>) -> Result<(), WireFault> {
        match number {
            seen::DIGEST => check_message::<Digest>(number, value, read),
            _ => Ok(()),
        }
    }

    #[tactic(auto, unfolding(crate::specs::ReplyMessages::seen_message_from))]
    fn from_fields(
        alloc: Global,
        list: &FieldList<'_, SeenMessage>,
    ) -> Result<SeenMessage, MessageFault> {
        let digest = list.message(alloc, seen::DIGEST)?;
        Ok(SeenMessage {
            kind: list.number(seen::KIND),
            size: list.number(seen::SIZE),
            mark_high: list.number(seen::MARK_HIGH),
            mark_low: list.number(seen::MARK_LOW),
            digest,
            executable: list.number(seen::EXECUTABLE),
        })
    }

    #[tactic(auto, unfolding(crate::specs::ReplyMessages::seen_message_fields))]
    fn write(&self, alloc: Global, out: &mut Writer<SeenMessage>) -> Result<(), NoMemory> {
        out.number(seen::KIND, self.kind)?;
        out.number(seen::SIZE, self.size)?;
        out.number(seen::MARK_HIGH, self.mark_high)?;
        out.number(seen::MARK_LOW, self.mark_low)?;
        out.message(alloc, seen::DIGEST, &self.digest)?;
        out.number(seen::EXECUTABLE, self.executable)
    }

    fn has_one_form(&self, alloc: Global, bytes: &[u8]) -> Result<bool, NoMemory> {
        Ok(true)
    }
}
