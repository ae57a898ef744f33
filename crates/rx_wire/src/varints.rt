//! Numbers in groups of seven bits.

ghost use Rattle.std.specs.Prelude.{◌≡◌, ◌≤◌, ◌+◌, ◌++◌, length, IfOk, IsOk, OnOk, vec_len, vec_capacity};
ghost use Rattle.rx_wire.specs.Varints.{varint_at, shortest};
ghost use Rattle.rx_wire.specs.Out.{IsFront};

use crate::faults::WireFault;
use rx_base::NoMemory;

/// The number at an offset, and the offset behind it.
pub(crate) fn varint_at(bytes: &[u8], at: usize) -> Result<(u64, usize), WireFault>
    requires { at ≤ length bytes.now }
    ensures value { result ≡ varint_at bytes.now at }
    ensures within { IfOk result (λ found. (found.1 ≤ length bytes.now) × (at ≤ found.1)) }
{
    let mut value = 0u64;
    let mut weight = 1u64;
    for i in 0..9 {
        let Some(&byte) = bytes.get(at + i) else {
            return Err(WireFault::Truncated(at));
        };
        value += u64::from(byte % 128) * weight;
        if byte < 128 {
            return Ok((value, at + i + 1));
        }
        weight *= 128;
    }
    match bytes.get(at + 9) {
        None => Err(WireFault::Truncated(at)),
        Some(&byte) if byte <= 1 => Ok((value + u64::from(byte) * weight, at + 10)),
        Some(_) => Err(WireFault::VarintTooLong(at)),
    }
}

/// Writes a number at the end, in as few bytes as it takes. An `Err` may leave some of them there.
pub fn push_varint(out: &mut Vec<u8>, value: u64) -> Result<(), NoMemory>
    ensures ok { OnOk result (out.new.items ≡ out.old.items ++ shortest value) }
    ensures front { IsFront out.old.items out.new.items }
    ensures room { vec_len out.old + 10 ≤ vec_capacity out.old → IsOk result }
    ensures capacity { vec_capacity out.old ≤ vec_capacity out.new }
    ensures len { vec_len out.new ≤ vec_len out.old + 10 }
{
    out.reserve(10)?;
    let mut rest = value;
    while rest >= 128 {
        out.push((rest % 128 + 128) as u8).unwrap();
        rest /= 128;
    }
    out.push(rest as u8).unwrap();
    Ok(())
}
