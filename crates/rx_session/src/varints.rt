//! A varint within packed numbers. The numbers of fields are read by `rx_wire`.

ghost use Rattle.std.specs.Prelude.{◌≡◌, ◌≤◌, ◌<◌, IfOk, length};
ghost use Rattle.rx_wire.specs.Varints.{varint_at};

use rx_wire::WireFault;

/// The number at an offset, and the offset behind it.
pub(crate) fn varint_at(bytes: &[u8], at: usize) -> Result<(u64, usize), WireFault>
    requires { at ≤ length bytes.now }
    ensures value { result ≡ varint_at bytes.now at }
    ensures within { IfOk result (λ found. (found.1 ≤ length bytes.now) × (at < found.1)) }
{
    let mut value = 0u64;
    let mut weight = 1u64;
    for i in 0..9 {
        let Some(&byte) = bytes.get(at + i) else {
            return Err(WireFault::Truncated(at));
        };
        value += u64::from(byte % 128) * weight;
        if byte < 128 {
            return Ok((value, at + i + 1));
        }
        weight *= 128;
    }
    match bytes.get(at + 9) {
        None => Err(WireFault::Truncated(at)),
        Some(&byte) if byte <= 1 => Ok((value + u64::from(byte) * weight, at + 10)),
        Some(_) => Err(WireFault::VarintTooLong(at)),
    }
}
