//! String and character literals that aren't raw ([lex.string], [lex.ccon]).
ghost use Rattle.std.specs.Prelude.{◌≡◌, ◌≤◌, length, IfSome, false, [], ◌∷◌};
ghost use Rattle.rx_lex.specs.Letters.{letters_at};
ghost use Rattle.rx_lex.specs.Pieces.{Literal, literal, literal_at};
ghost use Rattle.rx_lex.specs.Directives.{contains};
ghost use Rattle.rx_lex.specs.Cut.{Fits, seen};
ghost use Rattle.rx_lex.specs.Literal.{line_front};

use crate::cut::{Cut, Kind, plain};
use crate::letters::{begins, letter};

/// Whether a literal is closed whose first quote was passed, and its end.
pub(crate) fn literal_end(text: &[u8], from: usize, quote: u8) -> (bool, usize)
    requires { from ≤ length text.now }
    ensures value { literal quote false (letters_at text.now from) ≡
        (record { kind = Literal; whole = result.0; rest = letters_at text.now result.1 }) }
    ensures on { from ≤ result.1 }
    ensures within { result.1 ≤ length text.now }
{
    let mut at = from;
    let mut escaped = false;
    while let Some((byte, next)) = letter(text, at) {
        if byte == b'\n' {
            return (false, at);
        }
        if byte == quote && !escaped {
            return (true, next);
        }
        escaped = byte == b'\\' && !escaped;
        at = next;
    }
    (false, at)
}

/// Whether a comment by `/*` would begin before the line's end.
fn has_comment(text: &[u8], from: usize) -> bool
    requires { from ≤ length text.now }
    ensures { result ≡ contains (47 ∷ 42 ∷ []) (line_front (letters_at text.now from)) }
{
    let mut at = from;
    while let Some((byte, next)) = letter(text, at) {
        if byte == b'\n' {
            return false;
        }
        if byte == b'/' && begins(text, next, b"*").is_some() {
            return true;
        }
        at = next;
    }
    false
}

#[inline(always)]
#[tactic(auto, unfolding(crate::specs::Pieces::literal_at))]
pub(crate) fn literal_cut(text: &[u8], first: u8, next: usize) -> Option<Cut>
    requires { next ≤ length text.now }
    ensures value { literal_at first (letters_at text.now next) ≡ seen text.now result }
    ensures fits { IfSome result (λ cut. Fits text.now first next cut) }
{
    if first != b'"' && first != b'\'' {
        return None;
    }
    let (whole, end) = literal_end(text, next, first);
    if whole {
        return Some(plain(Kind::Literal, end));
    }
    let hard = has_comment(text, next);
    Some(Cut {
        kind: Kind::Literal,
        whole: false,
        hard,
        end,
    })
}
