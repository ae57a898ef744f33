//! The wire format's refusals of a message, found by place before anything is read.

ghost use Rattle.std.specs.Prelude.{◌≡◌};
ghost use Rattle.rx_wire.specs.Fields.{placed_before};
ghost use Rattle.rx_wire.specs.Values.{content_of};
ghost use Rattle.rx_codec.specs.Parts.{message, part_checked, parts_checked, text, text_checked};

use crate::message::Message;
use rx_wire::{Fields, Value, WireFault, text_of};

/// Checks each field from a place on.
pub(crate) fn check_all<M: Message>(fields: Fields<'_>) -> Result<(), WireFault>
    ensures { result ≡ parts_checked M.parts fields.entry.bytes fields.entry.at }
{
    let mut fields = fields;
    'fields: while let Some((number, value)) = fields.next()? {
        M::check_field(number, value, &fields)?;
    }
    Ok(())
}

/// Checks that the field that was read last is text, where it is bytes.
#[tactic(auto, unfolding(crate::specs::Parts::part_checked, crate::specs::Parts::text_checked))]
pub fn check_text(number: u32, value: Value<'_>, read: &Fields<'_>) -> Result<(), WireFault>
    ensures { result ≡ part_checked text read.now.bytes
        (placed_before number value.entry read.now) (content_of value.entry) }
{
    match value {
        Value::Bytes(bytes) => check_utf8(bytes, read.behind_tag()),
        _ => Ok(()),
    }
}

/// Checks that bytes whose length stands at an offset are text.
fn check_utf8(bytes: &[u8], at: usize) -> Result<(), WireFault>
    ensures { result ≡ text_checked bytes.now at }
{
    match text_of(bytes, at) {
        Ok(_) => Ok(()),
        Err(fault) => Err(fault),
    }
}

/// Checks that the field that was read last is a message, where it is bytes.
#[tactic(auto, unfolding(crate::specs::Parts::part_checked, crate::specs::Parts::parts_checked))]
pub fn check_message<N: Message>(
    number: u32,
    value: Value<'_>,
    read: &Fields<'_>,
) -> Result<(), WireFault>
    ensures { result ≡ part_checked (message N.parts) read.now.bytes
        (placed_before number value.entry read.now) (content_of value.entry) }
{
    match value {
        Value::Bytes(_) => check_all::<N>(read.message()),
        _ => Ok(()),
    }
}
