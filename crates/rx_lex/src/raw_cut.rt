//! A raw literal as a piece: whether a splice stands in it, and whether it goes over lines.
ghost use Rattle.std.specs.Prelude.{◌≡◌, ◌≤◌, ◌||◌, ◌-◌, ◌+◌, ◌<◌, length, take, IfSome, true};
ghost use Rattle.rx_lex.specs.Letters.{is_split_at, letters_at};
ghost use Rattle.rx_lex.specs.Pieces.{Raw, raw_at};
ghost use Rattle.rx_lex.specs.Cut.{Fits, IsRawStart, front_view, seen, split_in};

use crate::cut::{Cut, Kind};
use crate::letters::is_split;
use crate::raw::{RawEnd, has_line_end, is_split_within, raw_end, raw_prefix};

/// Whether a splice stands inside of so many letters and the one before them.
fn is_split_behind(text: &[u8], next: usize, letters: usize) -> bool
    requires on { next ≤ length text.now }
    requires some { 0 < letters }
    ensures { result ≡
        (is_split_at text.now next || split_in (take (letters - 1) (letters_at text.now next))) }
{
    is_split(text, next) || is_split_within(text, next, letters - 1)
}

/// A raw literal whose prefix has so many letters behind the first one.
fn raw_body_cut(text: &[u8], first: u8, next: usize, skipped: usize, body: RawEnd) -> Cut
    requires begun { IsRawStart first }
    requires skips { 0 < skipped }
    requires on { next ≤ body.end }
    requires within { body.end ≤ length text.now }
    requires counted { body.whole ≡ true → skipped + body.letters
        + length (letters_at text.now body.end) ≡ length (letters_at text.now next) }
    requires fitting { skipped + body.letters ≤ length text.now }
    ensures value { front_view text.now result ≡
        (record { kind = Raw; whole = body.whole; rest = letters_at text.now body.end }) }
    ensures fits { Fits text.now first next result }
{
    if !body.whole {
        return Cut {
            kind: Kind::Raw(false),
            whole: false,
            hard: true,
            end: body.end,
        };
    }
    let letters = skipped + body.letters;
    if is_split_behind(text, next, letters) {
        return Cut {
            kind: Kind::Raw(false),
            whole: true,
            hard: true,
            end: body.end,
        };
    }
    let over_lines = has_line_end(text, next, letters);
    Cut {
        kind: Kind::Raw(over_lines),
        whole: true,
        hard: false,
        end: body.end,
    }
}

#[inline(always)]
pub(crate) fn raw_cut(text: &[u8], first: u8, next: usize) -> Option<Cut>
    requires { next ≤ length text.now }
    ensures value { raw_at first (letters_at text.now next) ≡ seen text.now result }
    ensures fits { IfSome result (λ cut. Fits text.now first next cut) }
{
    let Some((behind, skipped)) = raw_prefix(text, first, next) else {
        return None;
    };
    let body = raw_end(text, behind);
    Some(raw_body_cut(text, first, next, skipped, body))
}
