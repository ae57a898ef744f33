//! Where header names by `<` end. A line may want many of them and close none, as in `#if __has_include(<a __has_include(<b`,
//! so a search that found nothing tells the next ones how far they need not look.
ghost use Rattle.std.specs.Prelude.{◌≡◌, ◌<◌, ◌≤◌, ◌+◌, drop, length};
ghost use Rattle.rx_lex.specs.Letters.{MaybeReaches, letters_at, splice_at};
ghost use Rattle.rx_lex.specs.Pieces.{behind_header};
ghost use Rattle.rx_lex.specs.Angled.{IsBarren};

use crate::letters::splice_len;

/// The place behind the splice that begins at `at`, or else behind the byte there.
#[inline(always)]
fn step_over(text: &[u8], at: usize) -> usize
    requires { at < length text.now }
    ensures value { result ≡ at + 1 + splice_at (drop at text.now) }
    ensures within { result ≤ length text.now }
{
    if text[at] == b'\\' {
        return at + 1 + splice_len(text, at + 1);
    }
    at + 1
}

/// The end of a header name whose `<` was passed, if it ends on its line, and a place before which no such name ends;
/// `barren` is such a place that is known already.
pub(crate) fn angled_end(text: &[u8], from: usize, barren: usize) -> (Option<usize>, usize)
    requires room { from ≤ length text.now }
    requires known { IsBarren text.now from barren }
    ensures value { MaybeReaches text.now from result.0
        (behind_header 62 (letters_at text.now from)) }
    ensures known { IsBarren text.now from result.1 }
{
    if from < barren {
        return (None, barren);
    }
    let mut at = from;
    while at < text.len() {
        let byte = text[at];
        if byte == b'\n' {
            return (None, at);
        }
        if byte == b'>' {
            return (Some(at + 1), barren);
        }
        at = step_over(text, at);
    }
    (None, at)
}
