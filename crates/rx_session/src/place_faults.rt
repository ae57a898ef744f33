//! The payload of a place fault, written without taking memory.

ghost use Rattle.std.specs.Prelude.{◌≡◌, ◌≤◌, ◌<◌, ◌+◌, ◌++◌, ◌^◌, IsOk, OnOk, vec_len, vec_capacity};
ghost use Rattle.rx_wire.specs.Out.{varint_field};
ghost use Rattle.rx_session.specs.Parts.{number_part};
ghost use Rattle.rx_session.specs.Replies.{payload_of};
ghost use Rattle.rx_session.specs.declared.replies.Reply.TheVariants.{PlaceFault as place_fault};

use crate::fields::reply;
use crate::payloads::kind;
use rx_base::NoMemory;
use rx_wire::push_varint;

/// The most bytes of a field that is a number: ten for its tag and ten for the number.
const NUMBER_FIELD_LEN: usize = 20;

/// The most bytes of the payload: its kind, the receipt and how many files were placed.
pub(crate) const PLACE_FAULT_LEN: usize = 3 * NUMBER_FIELD_LEN;

/// A field that is a number: its tag and the number.
#[tactic(auto, unfolding(rx_wire::specs::Out::varint_field))]
fn push_varint_field(out: &mut Vec<u8>, number: u32, value: u64) -> Result<(), NoMemory>
    requires { number < 2 ^ 29 }
    ensures ok { OnOk result (out.new.items ≡ out.old.items ++ varint_field number value) }
    ensures room { vec_len out.old + NUMBER_FIELD_LEN ≤ vec_capacity out.old → IsOk result }
    ensures capacity { vec_capacity out.old ≤ vec_capacity out.new }
    ensures len { vec_len out.new ≤ vec_len out.old + NUMBER_FIELD_LEN }
{
    push_varint(out, u64::from(number) * 8)?;
    push_varint(out, value)
}

/// A number, left out where it is 0.
#[tactic(auto, unfolding(crate::specs::Parts::number_part))]
fn push_number(out: &mut Vec<u8>, number: u32, value: u64) -> Result<(), NoMemory>
    requires { number < 2 ^ 29 }
    ensures ok { OnOk result (out.new.items ≡ out.old.items ++ number_part number value) }
    ensures room { vec_len out.old + NUMBER_FIELD_LEN ≤ vec_capacity out.old → IsOk result }
    ensures capacity { vec_capacity out.old ≤ vec_capacity out.new }
    ensures len { vec_len out.new ≤ vec_len out.old + NUMBER_FIELD_LEN }
{
    if value == 0 {
        return Ok(());
    }
    push_varint_field(out, number, value)
}

/// The payload of a place fault, at the end of a vector.
#[tactic(auto, using(crate::proofs::PlaceFaultBytes::place_fault_end))]
pub(crate) fn push_place_fault(out: &mut Vec<u8>, receipt: u64, placed: u64) -> Result<(), NoMemory>
    ensures ok { OnOk result
        (out.new.items ≡ out.old.items ++ payload_of (place_fault receipt placed)) }
    ensures room { vec_len out.old + PLACE_FAULT_LEN ≤ vec_capacity out.old → IsOk result }
    ensures len { vec_len out.new ≤ vec_len out.old + PLACE_FAULT_LEN }
{
    push_number(out, reply::KIND, kind::PLACE_FAULT)?;
    push_number(out, reply::RECEIPT, receipt)?;
    push_number(out, reply::PLACED, placed)
}
