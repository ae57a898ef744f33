//! Texts in double quotes: their escapes, read and written.

ghost use Rattle.std.specs.Prelude.{◌<◌, length, IfSome};

use crate::fault::RowFault;
use std::alloc::{AllocError, Global};

/// The value of a hexadecimal digit.
fn digit(byte: u8) -> Option<u8>
    ensures { IfSome result (λ value. value < 16) }
{
    match byte {
        b'0'..=b'9' => Some(byte - b'0'),
        b'a'..=b'f' => Some(byte - b'a' + 10),
        b'A'..=b'F' => Some(byte - b'A' + 10),
        _ => None,
    }
}

/// The byte of two hexadecimal digits.
fn pair(high: u8, low: u8) -> Option<u8> {
    let (Some(high), Some(low)) = (digit(high), digit(low)) else {
        return None;
    };
    Some(high * 16 + low)
}

/// The byte that stands at the front of a text, and what is behind it. `None` where it is an escape that isn't known, or
/// where the text has ended.
fn read_byte(text: &[u8]) -> Option<(u8, &[u8])>
    ensures { IfSome result (λ read. length read.1.now < length text.now) }
{
    match text {
        [b'\\', b'x', high, low, rest @ ..] => match pair(*high, *low) {
            Some(byte) => Some((byte, rest)),
            None => None,
        },
        [b'\\', b'n', rest @ ..] => Some((b'\n', rest)),
        [b'\\', b'r', rest @ ..] => Some((b'\r', rest)),
        [b'\\', b't', rest @ ..] => Some((b'\t', rest)),
        [b'\\', b'\\', rest @ ..] => Some((b'\\', rest)),
        [b'\\', b'"', rest @ ..] => Some((b'"', rest)),
        [b'\\', ..] => None,
        [byte, rest @ ..] => Some((*byte, rest)),
        [] => None,
    }
}

/// The text up to its closing quote, and what is behind that.
pub(crate) fn read_text(alloc: Global, inside: &[u8]) -> Result<(Vec<u8>, &[u8]), RowFault> {
    let mut text = Vec::new(alloc);
    let mut left = inside;
    while let Some((byte, rest)) = read_byte(left) {
        if left[0] == b'"' {
            return Ok((text, rest));
        }
        text.push(byte)?;
        left = rest;
    }
    Err(RowFault::BadText)
}

/// The digits of a byte.
const DIGITS: &[u8; 16] = b"0123456789abcdef";

/// Writes two hexadecimal digits.
pub(crate) fn write_pair(byte: u8, out: &mut Vec<u8>) -> Result<(), AllocError> {
    out.push(DIGITS[(byte / 16) as usize])?;
    out.push(DIGITS[(byte % 16) as usize])?;
    Ok(())
}

/// Writes a byte of a text, by an escape where it needs one.
fn write_byte(byte: u8, out: &mut Vec<u8>) -> Result<(), AllocError> {
    match byte {
        b'\n' => out.extend_from_slice(b"\\n"),
        b'\r' => out.extend_from_slice(b"\\r"),
        b'\t' => out.extend_from_slice(b"\\t"),
        b'\\' => out.extend_from_slice(b"\\\\"),
        b'"' => out.extend_from_slice(b"\\\""),
        b' '..=b'~' => Ok(out.push(byte)?),
        _ => {
            out.extend_from_slice(b"\\x")?;
            write_pair(byte, out)
        }
    }
}

/// Writes a text without its quotes.
pub(crate) fn write_text(text: &[u8], out: &mut Vec<u8>) -> Result<(), AllocError> {
    for byte in text {
        write_byte(*byte, out)?;
    }
    Ok(())
}
