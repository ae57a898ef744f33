//! A name with its value, as a message within a Request.
//!
//! ```text
//! name 1, value 2
//! ```

ghost use Rattle.std.specs.Prelude.{◌≡◌, IfOk, map};
ghost use Rattle.rx_session.specs.Messages.{pair_in, pair_message};

use crate::fields::pair;
use rx_base::{Items, NoMemory, TryClone};
use rx_codec::{FieldList, Message, MessageFault, Shape, Writer, check_text};
use rx_wire::{Fields, Value, WireFault};
use rx_world::Pair;
use std::alloc::Global;

/// The message of a pair.
#[derive(Debug, Drop)]
pub struct PairMessage {
    pub pair: Pair,
}

impl Shape for PairMessage {
    ghost use Rattle.rx_session.specs.Messages.{pair_message_parts};

    ghost parts = { pair_message_parts };
}

impl Message for PairMessage {
    ghost use Rattle.rx_codec.specs.Decoding.{any_form};
    ghost use Rattle.rx_session.specs.Messages.{pair_message_fields, pair_message_from, pair_message_is_readable};

    ghost fields = { pair_message_fields };

    ghost from = { pair_message_from };

    ghost is_canonical = { any_form };

    ghost IsReadable = { pair_message_is_readable };

    #[tactic(auto, unfolding(rx_codec::specs::Parts::part_checked))]
    fn check_field(number: u32, value: Value<'_>, read: &Fields<'_>) -> Result<(), WireFault> {
        match number {
            pair::NAME | pair::VALUE => check_text(number, value, read),
            _ => Ok(()),
        }
    }

    #[tactic(auto, unfolding(crate::specs::Messages::pair_message_from))]
    fn from_fields(
        alloc: Global,
        list: &FieldList<'_, PairMessage>,
    ) -> Result<PairMessage, MessageFault> {
        let name = list.text(alloc, pair::NAME)?;
        let value = list.text(alloc, pair::VALUE)?;
        let pair = Pair { name, value };
        Ok(PairMessage { pair })
    }

    #[tactic(auto, unfolding(crate::specs::Messages::pair_message_fields))]
    fn write(&self, alloc: Global, out: &mut Writer<PairMessage>) -> Result<(), NoMemory> {
        out.text(pair::NAME, self.pair.name.as_str())?;
        out.text(pair::VALUE, self.pair.value.as_str())
    }

    fn has_one_form(&self, alloc: Global, bytes: &[u8]) -> Result<bool, NoMemory> {
        Ok(true)
    }
}

/// The messages of pairs.
pub(crate) fn pair_messages(alloc: Global, pairs: &[Pair]) -> Result<Items<PairMessage>, NoMemory>
    ensures { IfOk result (λ messages. messages ≡ map pair_message pairs.now) }
{
    let mut messages = Items::new(alloc);
    for pair in pairs {
        let pair = pair.try_clone(alloc)?;
        messages.push(PairMessage { pair })?;
    }
    Ok(messages)
}

/// The pairs of messages.
pub(crate) fn pairs_in(alloc: Global, messages: Items<PairMessage>) -> Result<Items<Pair>, NoMemory>
    ensures { IfOk result (λ pairs. pairs ≡ map pair_in messages) }
{
    let mut pairs = Items::new(alloc);
    for message in messages.into_vec() {
        let PairMessage { pair } = message;
        pairs.push(pair)?;
    }
    Ok(pairs)
}
