//! Numbers ([lex.ppnumber]).
ghost use Rattle.std.specs.Prelude.{◌≡◌, ◌≤◌, ◌<◌, ◌&&◌, ◌||◌, ◌==◌, length, IfSome, MatchOption};
ghost use Rattle.rx_lex.specs.Letters.{Reaches, letters_at};
ghost use Rattle.rx_lex.specs.Number.{StepsTo};
ghost use Rattle.rx_lex.specs.Pieces.{begins_digit, behind_number, is_digit, is_double_step, is_exponent, is_single_step, number_at};
ghost use Rattle.rx_lex.specs.Cut.{Fits, seen};

use crate::class::{is_digit, is_name, next_is_digit};
use crate::cut::{Cut, Kind, plain};
use crate::letters::letter;

fn is_exponent(byte: u8) -> bool
    ensures { result ≡ is_exponent byte }
{
    byte == b'e' || byte == b'E' || byte == b'p' || byte == b'P'
}

/// Whether a number goes on with both bytes in one step.
fn is_double_step(byte: u8, second: u8) -> bool
    ensures { result ≡ is_double_step byte second }
{
    (byte == b'\'' && is_name(second)) || (is_exponent(byte) && (second == b'+' || second == b'-'))
}

/// Whether a number goes on with this byte alone.
fn is_single_step(byte: u8) -> bool
    ensures { result ≡ is_single_step byte }
{
    is_name(byte) || byte == b'.'
}

/// The place behind the step that a number takes at `at`, or `None` where it ends there.
fn step_end(text: &[u8], at: usize) -> Option<usize>
    requires { at ≤ length text.now }
    ensures { StepsTo text.now at result }
{
    let Some((byte, next)) = letter(text, at) else {
        return None;
    };
    if let Some((second, end)) = letter(text, next) {
        if is_double_step(byte, second) {
            return Some(end);
        }
    }
    if is_single_step(byte) {
        return Some(next);
    }
    None
}

/// The end of a number whose first byte was passed.
fn number_end(text: &[u8], from: usize) -> usize
    requires { from ≤ length text.now }
    ensures { Reaches text.now from result (behind_number (letters_at text.now from)) }
{
    let mut at = from;
    while let Some(next) = step_end(text, at) {
        at = next;
    }
    at
}

#[inline(always)]
fn begins_number(text: &[u8], first: u8, next: usize) -> bool
    requires { next ≤ length text.now }
    ensures { result ≡
        (is_digit first || (first == 46 && begins_digit (letters_at text.now next))) }
{
    is_digit(first) || (first == b'.' && next_is_digit(text, next))
}

#[inline(always)]
#[tactic(auto, unfolding(crate::specs::Pieces::number_at))]
pub(crate) fn number_cut(text: &[u8], first: u8, next: usize) -> Option<Cut>
    requires { next ≤ length text.now }
    ensures value { number_at first (letters_at text.now next) ≡ seen text.now result }
    ensures fits { IfSome result (λ cut. Fits text.now first next cut) }
{
    if begins_number(text, first, next) {
        return Some(plain(Kind::Number, number_end(text, next)));
    }
    None
}
