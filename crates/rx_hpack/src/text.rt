//! String literals (RFC 7541 5.2): reading one, plain or in the Huffman code, and
//! writing one plain.
//!
//! ```text
//!   0   1   2   3   4   5   6   7
//! +---+---+---+---+---+---+---+---+
//! | H |    length of the bytes    |   an integer with a prefix of seven bits
//! +---+---------------------------+
//! |  the bytes, coded where H is 1 |
//! +-------------------------------+
//! ```

ghost use Rattle.std.specs.Prelude.{◌++◌, ◌<◌, ◌^◌, ◌≡◌, OnOk, length};
ghost use Rattle.rx_hpack.specs.Answers.{Equals, Gives};
ghost use Rattle.rx_hpack.specs.Text.{part_at, plain_bytes, string_at};

use crate::fault::HpackFault;
use crate::{huffman, integer};
use std::alloc::{AllocError, Global};

/// The largest number in the prefix of a string's length: seven bits.
const LENGTH_PREFIX: u8 = 127;

/// The text of the string at the front, and the bytes after it.
#[tactic(auto, unfolding(crate::specs::Text::string_at))]
pub(crate) fn read(alloc: Global, bytes: &[u8]) -> Result<(Vec<u8>, &[u8]), HpackFault>
    ensures { Gives (λ x. (x.0.items, x.1.now)) result (string_at bytes.now) }
{
    let [first, rest @ ..] = bytes else {
        return Err(HpackFault::BadInteger);
    };
    if *first < 128 {
        let (coded, rest) = part(*first, rest)?;
        return Ok((Vec::from_slice(alloc, coded)?, rest));
    }
    let (coded, rest) = part(*first - 128, rest)?;
    Ok((huffman::read(alloc, coded)?, rest))
}

/// The bytes of a string whose length has this in its prefix, and the bytes after them.
#[tactic(auto, unfolding(crate::specs::Text::part_at))]
fn part(prefix: u8, bytes: &[u8]) -> Result<(&[u8], &[u8]), HpackFault>
    ensures { Equals (λ x. (x.0.now, x.1.now)) result (part_at prefix bytes.now) }
{
    let (length, rest) = integer::read(LENGTH_PREFIX, prefix, bytes)?;
    if rest.len() < length as usize {
        return Err(HpackFault::BadInteger);
    }
    Ok(rest.split_at(length as usize))
}

/// Writes a string as it is.
#[tactic(auto, unfolding(crate::specs::Text::plain_bytes))]
pub(crate) fn write(out: &mut Vec<u8>, text: &[u8]) -> Result<(), AllocError>
    requires { length text.now < 2 ^ 32 }
    ensures { OnOk result (out.new.items ≡ out.old.items ++ plain_bytes text.now) }
{
    integer::write(out, LENGTH_PREFIX, 0, text.len() as u32)?;
    out.extend_from_slice(text)
}
