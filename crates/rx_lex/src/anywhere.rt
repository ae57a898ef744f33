//! What makes a file hard wherever it stands.
ghost use Rattle.std.specs.Prelude.{◌≡◌, ◌≤◌, ◌||◌, length};
ghost use Rattle.rx_lex.specs.Letters.{ReadsSame, letters_at};
ghost use Rattle.rx_lex.specs.Directives.{has_lone_return, is_hard_anywhere};
ghost use Rattle.rx_lex.specs.Anywhere.{has_word, word_here};

use crate::letters::{begins, letter, skip_to};
use memchr::memchr3;

/// Whether a trigraph of `#` or of the backslash, or `.incbin`, begins with this byte, before `next`.
#[inline(always)]
fn is_word_here(text: &[u8], byte: u8, next: usize) -> bool
    requires { next ≤ length text.now }
    ensures { result ≡ word_here byte (letters_at text.now next) }
{
    (byte == b'.' && begins(text, next, b"incbin").is_some())
        || (byte == b'?'
            && (begins(text, next, b"?=").is_some() || begins(text, next, b"?/").is_some()))
}

/// A place from which the same of these words are found.
#[inline(always)]
fn near_word(text: &[u8], at: usize) -> usize
    requires { at ≤ length text.now }
    ensures { ReadsSame has_word text.now at result }
{
    match memchr3(b'?', b'.', b'\\', &text[at..]) {
        Some(found) => at + found,
        None => text.len(),
    }
}

fn has_word(text: &[u8], from: usize) -> bool
    requires { from ≤ length text.now }
    ensures { result ≡ has_word (letters_at text.now from) }
{
    let mut at = from;
    loop {
        at = near_word(text, at);
        match letter(text, at) {
            None => return false,
            Some((byte, next)) => {
                if is_word_here(text, byte, next) {
                    return true;
                }
                at = next;
            }
        }
    }
}

/// A place from which the same CRs are found.
#[inline(always)]
fn near_return(text: &[u8], at: usize) -> usize
    requires { at ≤ length text.now }
    ensures { ReadsSame has_lone_return text.now at result }
{
    skip_to(text, at, b'\r')
}

/// Whether a CR stands before anything but LF.
fn has_lone_return(text: &[u8], from: usize) -> bool
    requires { from ≤ length text.now }
    ensures { result ≡ has_lone_return (letters_at text.now from) }
{
    let mut at = from;
    loop {
        at = near_return(text, at);
        match letter(text, at) {
            None => return false,
            Some((byte, next)) => {
                if byte == b'\r' && begins(text, next, b"\n").is_none() {
                    return true;
                }
                at = next;
            }
        }
    }
}

/// Whether something from `from` on makes the file hard wherever it stands.
pub(crate) fn is_hard_anywhere(text: &[u8], from: usize) -> bool
    requires { from ≤ length text.now }
    ensures { result ≡ is_hard_anywhere (letters_at text.now from) }
{
    has_word(text, from) || has_lone_return(text, from)
}
