//! Integers (RFC 7541 5.1): reading and writing one, whatever it stands for.
//!
//! ```text
//!   0   1   2   3   4   5   6   7
//! +---+---+---+---+---+---+---+---+
//! |  form     | prefix            |   below the prefix's largest: the integer itself
//! +---+---+---+-------------------+
//! | 1 |  seven bits, least first  |   else what it is above the largest, in groups
//! +---+---------------------------+
//! | 0 |  the last seven bits      |
//! +---+---------------------------+
//! ```

ghost use Rattle.std.specs.Prelude.{◌+◌, ◌++◌, ◌<◌, ◌≡◌, OnOk};
ghost use Rattle.rx_hpack.specs.Answers.{Equals};
ghost use Rattle.rx_hpack.specs.Integer.{groups_at, groups_of, integer_at, integer_bytes};

use crate::fault::HpackFault;
use std::alloc::AllocError;

/// The most bytes that may follow a full prefix: five hold any number below 2^32.
const MOST_GROUPS: u8 = 5;

/// The largest integer that is read.
const LARGEST: u64 = 4_294_967_295;

/// What the groups above the first may stand for at most: 2^25 - 1, since they count 128 times.
const LARGEST_HIGH: u32 = 33_554_431;

/// The number that groups of seven bits spell, of which `left` may still come, and the bytes after.
#[tactic(auto, unfolding(crate::specs::Integer::groups_at))]
fn groups(left: u8, bytes: &[u8]) -> Result<(u32, &[u8]), HpackFault>
    ensures { Equals (λ x. (x.0, x.1.now)) result (groups_at left bytes.now) }
{
    if left == 0 {
        return Err(HpackFault::BadInteger);
    }
    let [first, rest @ ..] = bytes else {
        return Err(HpackFault::BadInteger);
    };
    if *first < 128 {
        return Ok((*first as u32, rest));
    }
    let (high, rest) = groups(left - 1, rest)?;
    if high > LARGEST_HIGH {
        return Err(HpackFault::BadInteger);
    }
    Ok(((*first - 128) as u32 + 128 * high, rest))
}

/// The integer whose prefix holds `prefix`, where `full` is the prefix's largest number, and the
/// bytes after it. `bytes` begin behind the prefix.
#[tactic(auto, unfolding(crate::specs::Integer::integer_at))]
pub(crate) fn read(full: u8, prefix: u8, bytes: &[u8]) -> Result<(u32, &[u8]), HpackFault>
    ensures { Equals (λ x. (x.0, x.1.now)) result (integer_at full prefix bytes.now) }
{
    if prefix < full {
        return Ok((prefix as u32, bytes));
    }
    let (more, rest) = groups(MOST_GROUPS, bytes)?;
    if full as u64 + more as u64 > LARGEST {
        return Err(HpackFault::BadInteger);
    }
    Ok((full as u32 + more, rest))
}

/// Writes an integer behind the bits of a form, where `full` is the prefix's largest number.
#[tactic(auto, unfolding(crate::specs::Integer::integer_bytes))]
pub(crate) fn write(out: &mut Vec<u8>, full: u8, form: u8, number: u32) -> Result<(), AllocError>
    requires { form + full < 256 }
    ensures { OnOk result (out.new.items ≡ out.old.items ++ integer_bytes full form number) }
{
    if number < full as u32 {
        out.push(form + number as u8)?;
        return Ok(());
    }
    out.push(form + full)?;
    write_groups(out, number - full as u32)
}

/// Writes a number in groups of seven bits, the least first.
fn write_groups(out: &mut Vec<u8>, number: u32) -> Result<(), AllocError>
    ensures { OnOk result (out.new.items ≡ out.old.items ++ groups_of 4 number) }
{
    let mut number = number;
    while number >= 128 {
        out.push((number % 128 + 128) as u8)?;
        number /= 128;
    }
    out.push(number as u8)?;
    Ok(())
}
