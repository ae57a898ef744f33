//! Classes of bytes, and runs of them.
ghost use Rattle.std.specs.Prelude.{◌≡◌, ◌≤◌, length};
ghost use Rattle.rx_lex.specs.Letters.{Reaches, letters_at};
ghost use Rattle.rx_lex.specs.Pieces.{begins_digit, begins_name, behind_all, is_digit, is_name};
ghost use Rattle.rx_lex.specs.Class.{is_in};

use crate::letters::{is_blank, letter};

#[derive(Clone, Copy)]
pub(crate) enum Class {
    /// Space, tab, vertical tab, form feed or CR.
    Blank,
    /// What a word may have: a letter, a digit or `_`.
    Name,
}

#[inline(always)]
pub(crate) fn is_digit(byte: u8) -> bool
    ensures { result ≡ is_digit byte }
{
    b'0' <= byte && byte <= b'9'
}

#[inline(always)]
pub(crate) fn is_name(byte: u8) -> bool
    ensures { result ≡ is_name byte }
{
    is_digit(byte)
        || (b'A' <= byte && byte <= b'Z')
        || (b'a' <= byte && byte <= b'z')
        || byte == b'_'
}

/// Whether the byte is of the class.
#[inline(always)]
fn is_in(class: Class, byte: u8) -> bool
    ensures { result ≡ is_in class byte }
{
    match class {
        Class::Blank => is_blank(byte),
        Class::Name => is_name(byte),
    }
}

/// The end of a run of letters of the class.
#[inline(always)]
pub(crate) fn run_end(text: &[u8], from: usize, class: Class) -> usize
    requires { from ≤ length text.now }
    ensures { Reaches text.now from result (behind_all (is_in class) (letters_at text.now from)) }
{
    let mut at = from;
    while let Some((byte, next)) = letter(text, at) {
        if !is_in(class, byte) {
            return at;
        }
        at = next;
    }
    at
}

/// Whether the next letter may stand in a word.
pub(crate) fn next_is_name(text: &[u8], at: usize) -> bool
    requires { at ≤ length text.now }
    ensures { result ≡ begins_name (letters_at text.now at) }
{
    match letter(text, at) {
        Some((byte, _)) => is_name(byte),
        None => false,
    }
}

pub(crate) fn next_is_digit(text: &[u8], at: usize) -> bool
    requires { at ≤ length text.now }
    ensures { result ≡ begins_digit (letters_at text.now at) }
{
    match letter(text, at) {
        Some((byte, _)) => is_digit(byte),
        None => false,
    }
}
