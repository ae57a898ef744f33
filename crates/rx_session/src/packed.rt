//! Packed numbers in a payload that is no reply's: one that is cut, or too long, is told by its
//! place.

ghost use Rattle.std.specs.Prelude.{◌≡◌, length};
ghost use Rattle.rx_wire.specs.Fields.{placed_before};
ghost use Rattle.rx_codec.specs.Parts.{fields_checked};
ghost use Rattle.rx_session.specs.Packed.{at_place, end_field_checked, moved_to, numbers_checked, packed_checked, reply_field_checked};

use crate::fields::{end, reply};
use crate::varints::varint_at;
use rx_wire::{Fields, Value, WireFault};

/// Checks the packed numbers in a payload.
#[tactic(auto, unfolding(crate::specs::Packed::packed_checked))]
pub(crate) fn check_packed(payload: &[u8]) -> Result<(), WireFault>
    ensures { result ≡ packed_checked payload.now }
{
    let mut fields = Fields::new(payload);
    'fields: while let Some((number, value)) = fields.next()? {
        check_reply_field(number, value, &fields)?;
    }
    Ok(())
}

/// Checks the field of a reply that was read last: its ends have packed numbers.
#[tactic(auto, unfolding(crate::specs::Packed::reply_field_checked))]
fn check_reply_field(number: u32, value: Value<'_>, read: &Fields<'_>) -> Result<(), WireFault>
    ensures { result ≡ reply_field_checked read.now.bytes
        (placed_before number value.entry read.now) }
{
    match (number, value) {
        (reply::ENDS, Value::Bytes(_)) => check_end(read.message()),
        _ => Ok(()),
    }
}

/// Checks each field of an end from a place on.
fn check_end(fields: Fields<'_>) -> Result<(), WireFault>
    ensures { result ≡ fields_checked end_field_checked (length fields.entry.bytes)
        fields.entry.bytes fields.entry.at }
{
    let mut fields = fields;
    'fields: while let Some((number, value)) = fields.next()? {
        check_end_field(number, value, &fields)?;
    }
    Ok(())
}

/// Checks the field of an end that was read last: its faults are packed numbers.
#[tactic(auto, unfolding(crate::specs::Packed::end_field_checked))]
fn check_end_field(number: u32, value: Value<'_>, read: &Fields<'_>) -> Result<(), WireFault>
    ensures { result ≡ end_field_checked (placed_before number value.entry read.now) }
{
    match (number, value) {
        (end::FAULTS, Value::Bytes(packed)) => at_place(read.behind_tag(), check_numbers(packed)),
        _ => Ok(()),
    }
}

/// What is refused, at a place.
fn moved_to(at: usize, fault: WireFault) -> WireFault
    ensures { result ≡ moved_to at fault }
{
    match fault {
        WireFault::Truncated(_) => WireFault::Truncated(at),
        WireFault::VarintTooLong(_) => WireFault::VarintTooLong(at),
        WireFault::BadType(_) => WireFault::BadType(at),
        WireFault::ZeroField(_) => WireFault::ZeroField(at),
        WireFault::BadUtf8(_) => WireFault::BadUtf8(at),
    }
}

fn at_place(at: usize, checked: Result<(), WireFault>) -> Result<(), WireFault>
    ensures { result ≡ at_place at checked }
{
    match checked {
        Ok(()) => Ok(()),
        Err(fault) => Err(moved_to(at, fault)),
    }
}

/// Reads packed numbers.
#[tactic(auto, using(crate::proofs::PackedReading::numbers_start, crate::proofs::PackedReading::numbers_go_on, crate::proofs::PackedReading::number_is_refused, crate::proofs::PackedReading::numbers_end))]
fn check_numbers(packed: &[u8]) -> Result<(), WireFault>
    ensures { result ≡ numbers_checked (length packed.now) packed.now 0 }
{
    let mut at = 0;
    'numbers: while at < packed.len() {
        let (_, end) = varint_at(packed, at)?;
        at = end;
    }
    Ok(())
}
