//! What all words of a command together name.

ghost use Rattle.std.specs.Prelude.{◌≡◌, ◌++◌, IfOk, option_map};
ghost use Rattle.rx_cppflags.specs.Found.{has_meaning, has_meaning_again, is_c, outputs_of, path_for, paths_of, sources_of, texts_of, walked_for, walked_of};

use crate::endings::directory_of;
use crate::meanings::Meaning;
use crate::pieces::Piece;
use rx_base::{Items, NoMemory, RelPath, Text, TryClone};
use std::alloc::Global;

/// Whether something of this meaning is said.
pub(crate) fn has_meaning(pieces: &[Piece], meaning: Meaning) -> bool
    ensures { result ≡ has_meaning meaning pieces.now }
{
    pieces.iter().any(|piece| piece.meaning.is(meaning))
}

/// Whether the source is C: by its name, or by a word for its language.
pub(crate) fn is_c(pieces: &[Piece]) -> bool
    ensures { result ≡ is_c pieces.now }
{
    pieces.iter().any(|piece| {
        piece.meaning.is(Meaning::CSource)
            || (piece.meaning.is(Meaning::Language) && piece.text == "c")
    })
}

/// The paths of this meaning.
pub(crate) fn paths_of(
    alloc: Global,
    pieces: &[Piece],
    meaning: Meaning,
    mut paths: Items<RelPath>,
) -> Result<Items<RelPath>, NoMemory>
    ensures { IfOk result (λ all. all ≡ paths ++ paths_of meaning pieces.now) }
{
    for piece in pieces {
        if let Some(path) = path_for(piece, meaning) {
            paths.push(path.try_clone(alloc)?)?;
        }
    }
    Ok(paths)
}

/// The path that a piece names, if it has this meaning.
fn path_for<'a>(piece: &'a Piece, meaning: Meaning) -> Option<&'a RelPath>
    ensures { option_map (λ path. path.now) result ≡ path_for meaning piece.now }
{
    if piece.meaning.is(meaning) {
        piece.path.as_ref()
    } else {
        None
    }
}

/// The texts of this meaning.
pub(crate) fn texts_of(
    alloc: Global,
    pieces: &[Piece],
    meaning: Meaning,
) -> Result<Items<Text>, NoMemory>
    ensures { IfOk result (λ texts. texts ≡ texts_of meaning pieces.now) }
{
    let mut texts = Items::new(alloc);
    for piece in pieces {
        if piece.meaning.is(meaning) {
            texts.push(Text::copy_of(alloc, piece.text)?)?;
        }
    }
    Ok(texts)
}

/// The sources that are named.
pub(crate) fn sources_of(alloc: Global, pieces: &[Piece]) -> Result<Items<RelPath>, NoMemory>
    ensures { IfOk result (λ paths. paths ≡ sources_of pieces.now) }
{
    let paths = paths_of(alloc, pieces, Meaning::CSource, Items::new(alloc))?;
    paths_of(alloc, pieces, Meaning::CppSource, paths)
}

/// Paths, and behind them what is made.
pub(crate) fn outputs_of(
    alloc: Global,
    pieces: &[Piece],
    paths: Items<RelPath>,
) -> Result<Items<RelPath>, NoMemory>
    ensures { IfOk result (λ all. all ≡ paths ++ outputs_of pieces.now) }
{
    let paths = paths_of(alloc, pieces, Meaning::Output, paths)?;
    paths_of(alloc, pieces, Meaning::Made, paths)
}

/// Whether more words than one have this meaning.
pub(crate) fn has_meaning_again(pieces: &[Piece], meaning: Meaning) -> bool
    ensures { result ≡ has_meaning_again meaning pieces.now }
{
    pieces
        .iter()
        .filter(|piece| piece.meaning.is(meaning))
        .count()
        > 1
}

/// The texts whose ways are walked: a directory's or a file's own, and of what is written its
/// directory's.
pub(crate) fn walked_of(alloc: Global, pieces: &[Piece]) -> Result<Items<Text>, NoMemory>
    ensures { IfOk result (λ texts. texts ≡ walked_of pieces.now) }
{
    let mut texts = Items::new(alloc);
    for piece in pieces {
        if let Some(text) = walked_for(piece) {
            texts.push(Text::copy_of(alloc, text)?)?;
        }
    }
    Ok(texts)
}

/// The text whose way is walked for a piece.
fn walked_for<'a>(piece: &Piece<'a>) -> Option<&'a str>
    ensures { option_map (λ text. text.now) result ≡ walked_for piece.now }
{
    if piece.meaning.names_output() {
        directory_of(piece.text)
    } else if piece.meaning.names_path() {
        Some(piece.text)
    } else {
        None
    }
}
