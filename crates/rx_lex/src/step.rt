//! One piece of a text, and what it adds to what was found.
ghost use Rattle.std.specs.Prelude.{◌≡◌, ◌≤◌, ◌||◌, ◌==◌, length, IfOk, true, if◌then◌else◌, [], ◌∷◌};
ghost use Rattle.rx_lex.specs.Letters.{letters_at};
ghost use Rattle.rx_lex.specs.Directives.{is_header, is_raw};
ghost use Rattle.rx_lex.specs.Found.{name_view};
ghost use Rattle.rx_lex.specs.Header.{closing, header_bytes};
ghost use Rattle.rx_lex.specs.Angled.{IsBarren};
ghost use Rattle.rx_lex.specs.Cut.{kind_view};
ghost use Rattle.rx_lex.specs.Step.{Steps, names_in};

use crate::cut::Kind;
use crate::found::{Include, NoMemory};
use crate::header::header_bytes;
use crate::line::{Line, behind, is_hard_behind};
use crate::piece::next_cut;
use std::alloc::Global;

#[derive(Drop)]
pub(crate) struct Step {
    /// the place behind the piece
    pub(crate) end: usize,
    /// its line behind it
    pub(crate) line: Line,
    /// whether it makes the file hard
    pub(crate) hard: bool,
    /// whether it is a raw literal
    pub(crate) raw: bool,
    /// a place before which no header name by `<` ends
    pub(crate) barren: usize,
    /// the name in it, if it is a header name
    pub(crate) name: Option<Include>,
}

/// The name in a header name.
fn header_name(alloc: Global, text: &[u8], first: u8, next: usize) -> Result<Include, NoMemory>
    requires { next ≤ length text.now }
    ensures { IfOk result (λ name. name_view name ≡ (record {
      angled = first == 60;
      name =
          header_bytes (closing first) (letters_at text.now next);
    })) }
{
    if first == b'<' {
        return Ok(Include::Angled(header_bytes(alloc, text, next, b'>')?));
    }
    Ok(Include::Quoted(header_bytes(alloc, text, next, b'"')?))
}

/// The name in a piece, if it has one.
fn name_in(
    alloc: Global,
    text: &[u8],
    first: u8,
    next: usize,
    kind: Kind,
) -> Result<Option<Include>, NoMemory>
    requires { next ≤ length text.now }
    ensures { IfOk result (λ name. names_in name ≡ (if is_header (kind_view kind)
        then (record {
          angled = first == 60;
          name = header_bytes (closing first) (letters_at text.now next);
        }) ∷ [] else [])) }
{
    match kind {
        Kind::Header => {
            let name = header_name(alloc, text, first, next)?;
            Ok(Some(name))
        }
        _ => Ok(None),
    }
}

fn is_raw(kind: Kind) -> bool
    ensures { result ≡ is_raw (kind_view kind) }
{
    match kind {
        Kind::Raw(_) => true,
        _ => false,
    }
}

/// What the piece adds whose first letter is `first`, before `next`.
#[inline(always)]
pub(crate) fn read_piece(
    alloc: Global,
    text: &[u8],
    line: Line,
    first: u8,
    next: usize,
    barren: usize,
) -> Result<Step, NoMemory>
    requires room { next ≤ length text.now }
    requires known { IsBarren text.now next barren }
    ensures { IfOk result (λ step. Steps text.now line first next step) }
{
    let (cut, barren) = next_cut(text, line.wanted, first, next, barren);
    let name = name_in(alloc, text, first, next, cut.kind)?;
    let hard = is_hard_behind(text, line, first, next, cut.kind);
    Ok(Step {
        end: cut.end,
        line: behind(text, line, first, next, cut.kind),
        hard: cut.hard | hard,
        raw: is_raw(cut.kind),
        barren,
        name,
    })
}
