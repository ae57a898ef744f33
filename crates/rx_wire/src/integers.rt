//! Signed integers in varints.

ghost use Rattle.std.specs.Prelude.{◌≡◌};
ghost use Rattle.rx_wire.specs.Integers.{int32_of, sign_extended};

/// The int32 that a varint's value holds: its low 32 bits in two's complement.
pub fn int32_of(value: u64) -> i32
    ensures { result ≡ int32_of value }
{
    let low = (value % (1 << 32)) as u32;
    low.cast_signed()
}

/// The value of the varint that holds an int32: two's complement in 64 bits, so a negative number
/// takes ten bytes.
pub(crate) fn sign_extended(value: i32) -> u64
    ensures { result ≡ sign_extended value }
{
    i64::from(value).cast_unsigned()
}
