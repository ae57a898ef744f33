//! Which words of a command aren't compile words.

ghost use Rattle.std.specs.Prelude.{◌≡◌, option_map};
ghost use Rattle.rx_base.specs.SortedPaths.{AreSorted};
ghost use Rattle.rx_cppflags.specs.Outside.{first_outside, is_in_table, is_sure_beside};

use crate::found::has_meaning;
use crate::made::is_sure;
use crate::meanings::Meaning;
use crate::pieces::Piece;
use crate::searches::is_apart;
use crate::values::takes_value;
use rx_base::RelPath;

/// The word of the first of these pieces that is no compile word, beside all pieces and among these
/// sorted outputs.
pub(crate) fn first_outside<'a>(
    all: &[Piece],
    outputs: &[RelPath],
    pieces: &[Piece<'a>],
) -> Option<&'a str>
    requires { AreSorted outputs.now }
    ensures { option_map (λ word. word.now) result
        ≡ first_outside all.now outputs.now pieces.now }
{
    for piece in pieces {
        if !is_in_table(all, outputs, piece) {
            return Some(piece.word);
        }
    }
    None
}

/// Whether a piece is a compile word.
fn is_in_table(all: &[Piece], outputs: &[RelPath], piece: &Piece) -> bool
    requires { AreSorted outputs.now }
    ensures { result ≡ is_in_table all.now outputs.now piece.now }
{
    if piece.meaning.names_output() {
        match &piece.path {
            Some(path) => is_apart(path, outputs),
            None => false,
        }
    } else if piece.meaning.names_path() {
        piece.path.is_some()
    } else {
        takes_value(piece.meaning, piece.text) && is_sure_beside(all, piece.meaning)
    }
}

/// Whether what a compiler makes by a word of this meaning is sure beside the others.
fn is_sure_beside(all: &[Piece], meaning: Meaning) -> bool
    ensures { result ≡ is_sure_beside all.now meaning }
{
    if meaning.names_side() {
        is_sure(all, meaning)
    } else if meaning.is(Meaning::WrittenDependencies) {
        !has_meaning(all, Meaning::DependencyFile)
    } else if meaning.is(Meaning::Bitcode) {
        has_meaning(all, Meaning::Output)
    } else {
        true
    }
}
