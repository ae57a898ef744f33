//! Marks ([lex.operators]): what is no other piece.
ghost use Rattle.std.specs.Prelude.{◌≡◌, ◌≤◌, length};
ghost use Rattle.rx_lex.specs.Letters.{letters_at};
ghost use Rattle.rx_lex.specs.Pieces.{mark_at};
ghost use Rattle.rx_lex.specs.Cut.{Fits, front_view};

use crate::cut::{Cut, Kind, plain};
use crate::letters::begins;

/// A mark that begins with `%`.
#[tactic(auto, unfolding(crate::specs::Pieces::mark_at))]
fn percent_cut(text: &[u8], next: usize) -> Cut
    requires { next ≤ length text.now }
    ensures value { mark_at 37 (letters_at text.now next) ≡ front_view text.now result }
    ensures fits { Fits text.now 37 next result }
{
    if let Some(end) = begins(text, next, b":%:") {
        return plain(Kind::Mark, end);
    }
    if let Some(end) = begins(text, next, b":") {
        return plain(Kind::Hash, end);
    }
    plain(Kind::Mark, next)
}

/// A mark that begins with `#`.
#[tactic(auto, unfolding(crate::specs::Pieces::mark_at))]
fn hash_cut(text: &[u8], next: usize) -> Cut
    requires { next ≤ length text.now }
    ensures value { mark_at 35 (letters_at text.now next) ≡ front_view text.now result }
    ensures fits { Fits text.now 35 next result }
{
    if let Some(end) = begins(text, next, b"#") {
        return plain(Kind::Mark, end);
    }
    plain(Kind::Hash, next)
}

#[inline(always)]
#[tactic(auto, unfolding(crate::specs::Pieces::mark_at))]
pub(crate) fn mark_cut(text: &[u8], first: u8, next: usize) -> Cut
    requires { next ≤ length text.now }
    ensures value { mark_at first (letters_at text.now next) ≡ front_view text.now result }
    ensures fits { Fits text.now first next result }
{
    match first {
        b'%' => percent_cut(text, next),
        b'#' => hash_cut(text, next),
        b'(' => plain(Kind::Open, next),
        _ => plain(Kind::Mark, next),
    }
}
