//! The piece at a place: its kind, its end, and what it makes of the file by itself. The line that it stands on
//! matters only for header names.
ghost use Rattle.std.specs.Prelude.{◌≡◌, ◌≤◌, length, IfSome};
ghost use Rattle.rx_lex.specs.Letters.{letters_at};
ghost use Rattle.rx_lex.specs.Pieces.{front, plain_front, space_at, word_at};
ghost use Rattle.rx_lex.specs.Angled.{IsBarren};
ghost use Rattle.rx_lex.specs.Cut.{Fits, front_view, seen};

use crate::class::{Class, is_name, run_end};
use crate::comment::comment_cut;
use crate::cut::{Cut, Kind, plain};
use crate::header::header_cut;
use crate::letters::is_blank;
use crate::literal::literal_cut;
use crate::mark::mark_cut;
use crate::number::number_cut;
use crate::raw_cut::raw_cut;

#[inline(always)]
#[tactic(auto, unfolding(crate::specs::Pieces::space_at))]
fn space_cut(text: &[u8], first: u8, next: usize) -> Option<Cut>
    requires { next ≤ length text.now }
    ensures value { space_at first (letters_at text.now next) ≡ seen text.now result }
    ensures fits { IfSome result (λ cut. Fits text.now first next cut) }
{
    if first == b'\n' {
        return Some(plain(Kind::LineEnd, next));
    }
    if is_blank(first) {
        return Some(plain(Kind::Blank, run_end(text, next, Class::Blank)));
    }
    None
}

#[inline(always)]
#[tactic(auto, unfolding(crate::specs::Pieces::word_at))]
fn word_cut(text: &[u8], first: u8, next: usize) -> Option<Cut>
    requires { next ≤ length text.now }
    ensures value { word_at first (letters_at text.now next) ≡ seen text.now result }
    ensures fits { IfSome result (λ cut. Fits text.now first next cut) }
{
    if is_name(first) {
        return Some(plain(Kind::Word, run_end(text, next, Class::Name)));
    }
    None
}

/// The piece whose first letter is `first`, before `next`, where no header name stands.
#[inline(always)]
#[tactic(auto, unfolding(crate::specs::Pieces::plain_front))]
fn plain_cut(text: &[u8], first: u8, next: usize) -> Cut
    requires { next ≤ length text.now }
    ensures value { plain_front first (letters_at text.now next) ≡ front_view text.now result }
    ensures fits { Fits text.now first next result }
{
    if let Some(cut) = space_cut(text, first, next) {
        return cut;
    }
    if let Some(cut) = comment_cut(text, first, next) {
        return cut;
    }
    if let Some(cut) = raw_cut(text, first, next) {
        return cut;
    }
    if let Some(cut) = literal_cut(text, first, next) {
        return cut;
    }
    if let Some(cut) = number_cut(text, first, next) {
        return cut;
    }
    if let Some(cut) = word_cut(text, first, next) {
        return cut;
    }
    mark_cut(text, first, next)
}

/// The piece whose first letter is `first`, before `next`, and a place before which no header name by `<` ends.
#[inline(always)]
#[tactic(auto, unfolding(crate::specs::Pieces::front))]
pub(crate) fn next_cut(
    text: &[u8],
    wanted: bool,
    first: u8,
    next: usize,
    barren: usize,
) -> (Cut, usize)
    requires room { next ≤ length text.now }
    requires known { IsBarren text.now next barren }
    ensures value { front wanted first (letters_at text.now next) ≡ front_view text.now result.0 }
    ensures fits { Fits text.now first next result.0 }
    ensures known { IsBarren text.now next result.1 }
{
    let (header, barren) = header_cut(text, wanted, first, next, barren);
    if let Some(cut) = header {
        return (cut, barren);
    }
    (plain_cut(text, first, next), barren)
}
