//! Raw literals ([lex.string] 5): `PREFIX"DELIMITER(BYTES)DELIMITER"`.
ghost use Rattle.std.specs.Prelude.{◌≡◌, ◌<◌, ◌≤◌, ◌+◌, ◌++◌, ◌∷◌, [], true, false, length, take, drop, nat_le, ◌&&◌, ℕ, List};
ghost use Rattle.rx_lex.specs.Letters.{IsBegun, Letter, letters_at};
ghost use Rattle.rx_lex.specs.Pieces.{Raw, all_at_front, behind_all, behind_text, is_delimiter, raw, raw_prefix};
ghost use Rattle.rx_lex.specs.Directives.{contains};
ghost use Rattle.rx_lex.specs.Line.{any};
ghost use Rattle.rx_lex.specs.Raw.{IsClosed, IsDelimited, IsPrefix};

use crate::letters::{begins, is_blank, is_split, letter, skip_to};
use crate::literal::literal_end;

/// The longest delimiter ([lex.string] 5).
const LONGEST_DELIMITER: usize = 16;

/// A raw literal whose prefix and quote were passed.
#[derive(Clone, Copy)]
pub(crate) struct RawEnd {
    /// It has a good delimiter and an end.
    pub(crate) whole: bool,
    pub(crate) end: usize,
    /// How many letters a whole one has behind its quote.
    pub(crate) letters: usize,
}

/// The place behind the prefix and the quote of a raw literal, and how many letters were passed behind the first one.
#[inline(always)]
pub(crate) fn raw_prefix(text: &[u8], first: u8, next: usize) -> Option<(usize, usize)>
    requires { next ≤ length text.now }
    ensures { IsPrefix text.now first next result }
{
    if first == b'R' {
        if let Some(end) = begins(text, next, b"\"") {
            return Some((end, 1));
        }
        return None;
    }
    if first == b'L' || first == b'u' || first == b'U' {
        if let Some(end) = begins(text, next, b"R\"") {
            return Some((end, 2));
        }
        if first == b'u' {
            if let Some(end) = begins(text, next, b"8R\"") {
                return Some((end, 3));
            }
        }
    }
    None
}

fn is_delimiter(byte: u8) -> bool
    ensures { result ≡ is_delimiter byte }
{
    !(is_blank(byte) || byte == b'\n' || byte == b'(' || byte == b')' || byte == b'\\')
}

/// A delimiter, and the place behind it.
#[derive(Clone, Copy)]
struct Delimiter {
    bytes: [u8; LONGEST_DELIMITER],
    len: usize,
    end: usize,
}

/// The delimiter of a raw literal whose quote was passed; None if it is too long.
fn read_delimiter(text: &[u8], from: usize) -> Option<Delimiter>
    requires { from ≤ length text.now }
    ensures { IsDelimited text.now from result }
{
    let mut bytes = [0u8; LONGEST_DELIMITER];
    let mut len: usize = 0;
    let mut at = from;
    while let Some((byte, next)) = letter(text, at) {
        if !is_delimiter(byte) {
            return Some(Delimiter {
                bytes,
                len,
                end: at,
            });
        }
        if LONGEST_DELIMITER <= len {
            return None;
        }
        bytes[len] = byte;
        len += 1;
        at = next;
    }
    Some(Delimiter {
        bytes,
        len,
        end: at,
    })
}

/// The next place from which the end is the same.
#[inline(always)]
fn near_close(text: &[u8], at: usize) -> usize
    requires { at ≤ length text.now }
    ensures same { (name : List ℕ) → behind_text (41 ∷ name) (letters_at text.now at) ≡
        behind_text (41 ∷ name) (letters_at text.now result) }
    ensures count { (result + length (letters_at text.now result)) ≡
        (at + length (letters_at text.now at)) }
    ensures on { at ≤ result }
    ensures within { result ≤ length text.now }
{
    skip_to(text, at, b')')
}

/// The place behind the delimiter and the quote.
fn behind_delimiter(text: &[u8], from: usize, delimiter: &[u8]) -> Option<usize>
    requires { from ≤ length text.now }
    ensures { IsBegun text.now from (delimiter.now ++ 34 ∷ []) result }
{
    match begins(text, from, delimiter) {
        Some(quote) => begins(text, quote, b"\""),
        None => None,
    }
}

/// Behind `)`, the delimiter and the quote: the place, and how many letters were passed.
fn raw_close(text: &[u8], from: usize, delimiter: &[u8]) -> Option<(usize, usize)>
    requires room { from ≤ length text.now }
    requires short { length delimiter.now ≤ 16 }
    ensures { IsClosed text.now from delimiter.now result }
{
    let mut at = from;
    let mut passed: usize = 0;
    loop {
        let near = near_close(text, at);
        passed += near - at;
        at = near;
        let Some((byte, next)) = letter(text, at) else {
            return None;
        };
        if byte == b')' {
            if let Some(end) = behind_delimiter(text, next, delimiter) {
                return Some((end, passed + delimiter.len() + 2));
            }
        }
        passed += 1;
        at = next;
    }
}

/// The end of a raw literal whose prefix and quote were passed. With a bad delimiter it ends as another literal does.
pub(crate) fn raw_end(text: &[u8], from: usize) -> RawEnd
    requires { from ≤ length text.now }
    ensures value { raw (letters_at text.now from) ≡
        (record { kind = Raw; whole = result.whole; rest = letters_at text.now result.end }) }
    ensures count { result.whole ≡ true →
        result.letters + length (letters_at text.now result.end)
        ≡ length (letters_at text.now from) }
    ensures on { from + result.letters ≤ result.end }
    ensures within { result.end ≤ length text.now }
{
    if let Some(delimiter) = read_delimiter(text, from) {
        if let Some(body) = begins(text, delimiter.end, b"(") {
            return match raw_close(text, body, &delimiter.bytes[..delimiter.len]) {
                Some((end, passed)) => RawEnd {
                    whole: true,
                    end,
                    letters: delimiter.len + 1 + passed,
                },
                None => RawEnd {
                    whole: false,
                    end: text.len(),
                    letters: 0,
                },
            };
        }
    }
    let (_, end) = literal_end(text, from, b'"');
    RawEnd {
        whole: false,
        end,
        letters: 0,
    }
}

/// Whether a splice stands behind one of so many letters.
pub(crate) fn is_split_within(text: &[u8], from: usize, count: usize) -> bool
    requires { from ≤ length text.now }
    ensures { result ≡ any (λ (l : Letter). l.split) (take count (letters_at text.now from)) }
{
    let mut at = from;
    let mut left = count;
    while 0 < left {
        let Some((_, next)) = letter(text, at) else {
            return false;
        };
        if is_split(text, next) {
            return true;
        }
        at = next;
        left -= 1;
    }
    false
}

/// Whether one of so many letters is a LF.
pub(crate) fn has_line_end(text: &[u8], from: usize, count: usize) -> bool
    requires { from ≤ length text.now }
    ensures { result ≡ contains (10 ∷ []) (take count (letters_at text.now from)) }
{
    let mut at = from;
    let mut left = count;
    while 0 < left {
        let Some((byte, next)) = letter(text, at) else {
            return false;
        };
        if byte == b'\n' {
            return true;
        }
        at = next;
        left -= 1;
    }
    false
}
