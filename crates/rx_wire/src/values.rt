//! The values of fields.

ghost use Rattle.std.specs.Prelude.{◌≡◌};
ghost use Rattle.rx_wire.specs.Values.{kind_of};

/// A field's value, as it stands on the wire: a varint, eight bytes, a length and bytes, or four
/// bytes, with the lowest byte first.
#[derive(Clone, Copy, Debug, PartialEq, Eq)]
pub enum Value<'a> {
    Varint(u64),
    Fixed64(u64),
    Bytes(&'a [u8]),
    Fixed32(u32),
}

/// What a tag says of the value behind it.
#[derive(Clone, Copy, Debug, PartialEq, Eq)]
pub(crate) enum Kind {
    Varint,
    Fixed64,
    Bytes,
    Fixed32,
}

/// The kind that a tag names by its low three bits, the wire type: 0, 1, 2 or 5. The types 3 and 4
/// are groups, which nothing here writes, and 6 and 7 are none.
#[tactic(auto, unfolding(crate::specs::Values::kind_of))]
pub(crate) fn kind_of(tag: u64) -> Option<Kind>
    ensures { result ≡ kind_of tag }
{
    match tag % 8 {
        0 => Some(Kind::Varint),
        1 => Some(Kind::Fixed64),
        2 => Some(Kind::Bytes),
        5 => Some(Kind::Fixed32),
        _ => None,
    }
}
