//! Header names ([lex.header]).
ghost use Rattle.std.specs.Prelude.{◌≡◌, ◌≤◌, length, IfOk, IfSome, ◌++◌};
ghost use Rattle.rx_lex.specs.Letters.{MaybeReaches, letters_at};
ghost use Rattle.rx_lex.specs.Pieces.{behind_header, header_at};
ghost use Rattle.rx_lex.specs.Angled.{IsBarren};
ghost use Rattle.rx_lex.specs.Cut.{Fits, seen};
ghost use Rattle.rx_lex.specs.Header.{header_bytes};

use crate::angled::angled_end;
use crate::cut::{Cut, Kind, plain};
use crate::letters::letter;
use std::alloc::{AllocError, Global};

/// The end of a header name whose first mark was passed, if it ends on its line.
fn header_end(text: &[u8], from: usize, close: u8) -> Option<usize>
    requires { from ≤ length text.now }
    ensures { MaybeReaches text.now from result (behind_header close (letters_at text.now from)) }
{
    let mut at = from;
    while let Some((byte, next)) = letter(text, at) {
        if byte == b'\n' {
            return None;
        }
        if byte == close {
            return Some(next);
        }
        at = next;
    }
    None
}

/// The bytes before `close`.
pub(crate) fn header_bytes(
    alloc: Global,
    text: &[u8],
    from: usize,
    close: u8,
) -> Result<Vec<u8>, AllocError>
    requires { from ≤ length text.now }
    ensures { IfOk result (λ name. name.items ≡ header_bytes close (letters_at text.now from)) }
{
    let mut name = Vec::new(alloc);
    let mut at = from;
    while let Some((byte, next)) = letter(text, at) {
        if byte == close {
            return Ok(name);
        }
        name.push(byte)?;
        at = next;
    }
    Ok(name)
}

/// A header name, where one has to stand, and a place before which none by `<` ends.
#[inline(always)]
#[tactic(auto, unfolding(crate::specs::Pieces::header_at))]
pub(crate) fn header_cut(
    text: &[u8],
    wanted: bool,
    first: u8,
    next: usize,
    barren: usize,
) -> (Option<Cut>, usize)
    requires room { next ≤ length text.now }
    requires known { IsBarren text.now next barren }
    ensures value { header_at wanted first (letters_at text.now next) ≡ seen text.now result.0 }
    ensures fits { IfSome result.0 (λ cut. Fits text.now first next cut) }
    ensures known { IsBarren text.now next result.1 }
{
    if !wanted {
        return (None, barren);
    }
    if first == b'<' {
        let (end, barren) = angled_end(text, next, barren);
        if let Some(end) = end {
            return (Some(plain(Kind::Header, end)), barren);
        }
        return (None, barren);
    }
    if first == b'"' {
        if let Some(end) = header_end(text, next, b'"') {
            return (Some(plain(Kind::Header, end)), barren);
        }
    }
    (None, barren)
}
