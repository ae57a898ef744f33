//! Comments ([lex.comment]).
ghost use Rattle.std.specs.Prelude.{◌≡◌, ◌≤◌, length, IfSome};
ghost use Rattle.rx_lex.specs.Letters.{MaybeReaches, Reaches, ReadsSame, letters_at};
ghost use Rattle.rx_lex.specs.Pieces.{Comment, behind_block, behind_line, comment_at, unless_open};
ghost use Rattle.rx_lex.specs.Cut.{Fits, front_view, seen};

use crate::cut::{Cut, Kind, plain};
use crate::letters::{letter, skip_to};

/// A place from which the line's end is the same.
#[inline(always)]
fn near_line_end(text: &[u8], at: usize) -> usize
    requires { at ≤ length text.now }
    ensures { ReadsSame behind_line text.now at result }
{
    skip_to(text, at, b'\n')
}

/// A place from which the comment's end is the same.
#[inline(always)]
fn near_block_end(text: &[u8], at: usize) -> usize
    requires { at ≤ length text.now }
    ensures { ReadsSame behind_block text.now at result }
{
    skip_to(text, at, b'*')
}

/// The end of a comment by `//`.
fn line_end(text: &[u8], from: usize) -> usize
    requires { from ≤ length text.now }
    ensures { Reaches text.now from result (behind_line (letters_at text.now from)) }
{
    let mut at = from;
    loop {
        at = near_line_end(text, at);
        match letter(text, at) {
            None => return at,
            Some((byte, next)) => {
                if byte == b'\n' {
                    return at;
                }
                at = next;
            }
        }
    }
}

/// The end of a comment by `/*`, if it has one.
fn block_end(text: &[u8], from: usize) -> Option<usize>
    requires { from ≤ length text.now }
    ensures { MaybeReaches text.now from result (behind_block (letters_at text.now from)) }
{
    let mut at = from;
    loop {
        at = near_block_end(text, at);
        match letter(text, at) {
            None => return None,
            Some((byte, next)) => {
                if byte == b'*' {
                    match letter(text, next) {
                        None => return None,
                        Some((second, end)) => {
                            if second == b'/' {
                                return Some(end);
                            }
                        }
                    }
                }
                at = next;
            }
        }
    }
}

/// A comment by `/*`, which ends behind `from`.
fn block_cut(text: &[u8], next: usize, from: usize) -> Cut
    requires on { next ≤ from }
    requires within { from ≤ length text.now }
    ensures value { unless_open Comment (behind_block (letters_at text.now from)) ≡
        front_view text.now result }
    ensures fits { Fits text.now 47 next result }
{
    match block_end(text, from) {
        Some(end) => plain(Kind::Comment, end),
        None => Cut {
            kind: Kind::Comment,
            whole: false,
            hard: true,
            end: text.len(),
        },
    }
}

#[inline(always)]
#[tactic(auto, unfolding(crate::specs::Pieces::comment_at))]
pub(crate) fn comment_cut(text: &[u8], first: u8, next: usize) -> Option<Cut>
    requires { next ≤ length text.now }
    ensures value { comment_at first (letters_at text.now next) ≡ seen text.now result }
    ensures fits { IfSome result (λ cut. Fits text.now first next cut) }
{
    if first != b'/' {
        return None;
    }
    let Some((second, behind)) = letter(text, next) else {
        return None;
    };
    if second == b'*' {
        return Some(block_cut(text, next, behind));
    }
    if second == b'/' {
        return Some(plain(Kind::Comment, line_end(text, behind)));
    }
    None
}
