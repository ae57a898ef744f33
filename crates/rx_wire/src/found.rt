//! One field at an offset. Only `fields` uses it.

ghost use Rattle.std.specs.Prelude.{◌≡◌, ◌≤◌, length, IfOk};
ghost use Rattle.rx_base.specs.Results.{Equals};
ghost use Rattle.rx_wire.specs.Values.{content_of, field_of};
ghost use Rattle.rx_wire.specs.Fields.{Reads, IsInside, content_at, field_at, value_at};
ghost use Rattle.rx_wire.specs.Found.{placed_of};

use crate::faults::WireFault;
use crate::values::{Kind, Value, kind_of};
use crate::varints::varint_at;

/// The greatest tag: tags have 32 bits.
const MAX_TAG: u64 = 0xffff_ffff;

/// A field with its place: the offset behind its tag, that of its content, and the one behind it.
#[derive(Clone, Copy)]
pub(crate) struct Found<'a> {
    pub(crate) number: u32,
    pub(crate) value: Value<'a>,
    pub(crate) behind_tag: usize,
    pub(crate) content: usize,
    pub(crate) end: usize,
}

/// The field at an offset: what is read is spelled so.
pub(crate) fn read_field(bytes: &[u8], at: usize) -> Result<Found<'_>, WireFault>
    requires { at ≤ length bytes.now }
    ensures field { Equals placed_of result (field_at bytes.now at) }
    ensures within { IfOk result (λ found.
        (found.end ≤ length bytes.now) × (found.content ≤ found.end)) }
    ensures found { IfOk result (λ found.
        Reads bytes.now at found.end (field_of found.number found.value)) }
    ensures inside { IfOk result (λ found. IsInside found.value bytes.now found.content found.end) }
{
    field_at(bytes, at)
}

/// The field at an offset.
#[tactic(auto, unfolding(crate::specs::Fields::field_at, crate::specs::Fields::tagged_at))]
fn field_at(bytes: &[u8], at: usize) -> Result<Found<'_>, WireFault>
    requires { at ≤ length bytes.now }
    ensures field { Equals placed_of result (field_at bytes.now at) }
    ensures within { IfOk result (λ found.
        (found.end ≤ length bytes.now) × (found.content ≤ found.end)) }
{
    let (tag, behind_tag) = varint_at(bytes, at)?;
    if tag > MAX_TAG {
        return Err(WireFault::BadType(at));
    }
    let Some(kind) = kind_of(tag) else {
        return Err(WireFault::BadType(at));
    };
    let number = (tag / 8) as u32;
    if number == 0 {
        return Err(WireFault::ZeroField(at));
    }
    let (value, end) = value_at(bytes, at, behind_tag, kind)?;
    let content = content_at(value, behind_tag, end);
    Ok(Found {
        number,
        value,
        behind_tag,
        content,
        end,
    })
}

/// Where the content of a value begins that ends at an offset.
fn content_at(value: Value<'_>, start: usize, end: usize) -> usize
    ensures { result ≡ content_at (content_of value.entry) start end }
{
    match value {
        Value::Bytes(bytes) => end.saturating_sub(bytes.len()),
        _ => start,
    }
}

/// The value at an offset, behind the tag at another, and the offset behind it.
#[tactic(auto, unfolding(crate::specs::Fields::value_at))]
fn value_at(
    bytes: &[u8],
    at: usize,
    start: usize,
    kind: Kind,
) -> Result<(Value<'_>, usize), WireFault>
    requires { start ≤ length bytes.now }
    ensures value { Equals (λ x. (content_of x.0, x.1)) result (value_at bytes.now at start kind) }
    ensures within { IfOk result (λ x. (x.1 ≤ length bytes.now) × (start ≤ x.1)) }
{
    match kind {
        Kind::Varint => {
            let (value, end) = varint_at(bytes, start)?;
            Ok((Value::Varint(value), end))
        }
        Kind::Fixed64 => {
            if bytes.len() - start < 8 {
                return Err(WireFault::Truncated(at));
            }
            let (b, _) = bytes[start..].split_at(8);
            let value = u64::from_le_bytes([b[0], b[1], b[2], b[3], b[4], b[5], b[6], b[7]]);
            Ok((Value::Fixed64(value), start + 8))
        }
        Kind::Bytes => {
            let (len, begin) = varint_at(bytes, start)?;
            if ((bytes.len() - begin) as u64) < len {
                return Err(WireFault::Truncated(start));
            }
            let end = begin + len as usize;
            Ok((Value::Bytes(&bytes[begin..end]), end))
        }
        Kind::Fixed32 => {
            if bytes.len() - start < 4 {
                return Err(WireFault::Truncated(at));
            }
            let (b, _) = bytes[start..].split_at(4);
            let value = u32::from_le_bytes([b[0], b[1], b[2], b[3]]);
            Ok((Value::Fixed32(value), start + 4))
        }
    }
}
