//! One walk over the pieces of a text.
ghost use Rattle.std.specs.Prelude.{◌≡◌, ◌++◌, map, IfOk, OnOk};
ghost use Rattle.rx_lex.specs.Directives.{directives_of};
ghost use Rattle.rx_lex.specs.Found.{found_view, name_view};
ghost use Rattle.rx_lex.specs.Step.{names_in};

use crate::anywhere::is_hard_anywhere;
use crate::found::{Directives, Include, NoMemory};
use crate::letters::{letter, text_start};
use crate::line::start;
use crate::quiet::{nothing_ahead, skip_lines};
use crate::step::read_piece;
use std::alloc::Global;

/// Adds the name at the end, if there is one.
#[inline(always)]
fn keep(list: &mut Vec<Include>, name: Option<Include>) -> Result<(), NoMemory>
    ensures { OnOk result
        (map name_view list.new.items ≡ map name_view list.old.items ++ names_in name) }
{
    match name {
        Some(name) => {
            list.push(name)?;
            Ok(())
        }
        None => Ok(()),
    }
}

/// What a C or C++ text includes, whichever branches of its conditionals are taken. The text is read as bytes, by the first four
/// phases of translation ([lex.phases]) without macros: a byte-order mark and the splices are dropped, then comments,
/// literals and header names are found from left to right, then directives are read line by line. The time is linear in the
/// text. The only error is want of memory.
pub fn directives(alloc: Global, text: &[u8]) -> Result<Directives, NoMemory>
    ensures { IfOk result (λ found. found_view found ≡ directives_of text.now) }
{
    let from = text_start(text);
    let mut list = Vec::new(alloc);
    let mut hard = is_hard_anywhere(text, from);
    let mut raw = false;
    let mut line = start();
    let mut at = from;
    let mut barren = from;
    let mut ahead = nothing_ahead();
    while let Some((first, next)) = letter(text, at) {
        let piece = read_piece(alloc, text, line, first, next, barren)?;
        hard |= piece.hard;
        raw |= piece.raw;
        let (place, seen) = skip_lines(text, piece.line, piece.end, ahead);
        line = place.line;
        at = place.at;
        ahead = seen;
        barren = piece.barren;
        keep(&mut list, piece.name)?;
    }
    hard |= line.wanted;
    Ok(Directives { list, hard, raw })
}
