//! What the words of a command say, one after the other.

ghost use Rattle.std.specs.Prelude.{◌≡◌, ◌++◌, ◌∷◌, [], IfOk, option_map};
ghost use Rattle.rx_base.specs.SortedPaths.{AreSorted};
ghost use Rattle.rx_cppflags.specs.Pieces.{outside, said_by, saying, sayings, sayings_after, uses_next};
ghost use Rattle.rx_cppflags.specs.Rows.{row_of};

use crate::meanings::Meaning;
use crate::places::path_of;
use crate::rows::{Row, own_value, row_for, takes_next};
use rx_base::{NoMemory, RelPath, Text};
use std::alloc::Global;
use std::marker::Model;

/// What a word says with its value.
#[derive(Debug, Drop)]
pub(crate) struct Piece<'a> {
    pub meaning: Meaning,
    /// The word that is told where this is refused: the value's own word.
    pub word: &'a str,
    /// The value as text.
    pub text: &'a str,
    /// The path that the value names, if it is to name one and does.
    pub path: Option<RelPath>,
}

impl<'a> Model for Piece<'a> {
    ghost use Rattle.rx_cppflags.specs.Pieces.{Saying};

    ghost Value = { Saying };

    ghost view = { λ p.
        record { meaning = p.meaning; word = p.word.now; text = p.text.now; path = p.path } };
}

/// Where a command's paths go on from, and its declared inputs, sorted.
#[derive(Clone, Copy)]
pub(crate) struct Site<'a> {
    pub directory: &'a RelPath,
    pub inputs: &'a [RelPath],
}

/// What these words say.
pub(crate) fn cut<'a>(
    alloc: Global,
    site: Site,
    words: &'a [Text],
    pieces: &mut Vec<Piece<'a>>,
) -> Result<(), NoMemory>
    requires { AreSorted site.inputs.now }
    ensures { IfOk result (λ _. pieces.new.items
        ≡ pieces.old.items ++ sayings site.entry.directory.now site.entry.inputs.now words.now) }
{
    let mut rest = words;
    let mut is_value = false;
    while let Some((word, others)) = rest.split_first() {
        if is_value {
            is_value = false;
        } else {
            let row = row_for(word.as_str());
            say(alloc, site, row, word, others, pieces)?;
            is_value = uses_next(row, word);
        }
        rest = others;
    }
    Ok(())
}

/// What a word says by its row, before other words.
fn say<'a>(
    alloc: Global,
    site: Site,
    row: Option<Row>,
    word: &'a Text,
    others: &'a [Text],
    pieces: &mut Vec<Piece<'a>>,
) -> Result<(), NoMemory>
    requires { AreSorted site.inputs.now }
    ensures { IfOk result (λ _. pieces.new.items ≡ pieces.old.items
        ++ said_by site.entry.directory.now site.entry.inputs.now
        (option_map row_of row.entry) word.now others.now ∷ []) }
{
    let Some(row) = row else {
        return refuse(word, pieces);
    };
    if !takes_next(row, word.as_str()) {
        let text = own_value(row, word.as_str());
        return say_value(alloc, site, row.2, text, word.as_str(), pieces);
    }
    match others.first() {
        Some(next) => say_value(alloc, site, row.2, next.as_str(), next.as_str(), pieces),
        None => refuse(word, pieces),
    }
}

/// A value of this meaning, and the word that it comes from.
pub(crate) fn say_value<'a>(
    alloc: Global,
    site: Site,
    meaning: Meaning,
    text: &'a str,
    word: &'a str,
    pieces: &mut Vec<Piece<'a>>,
) -> Result<(), NoMemory>
    requires { AreSorted site.inputs.now }
    ensures { IfOk result (λ _. pieces.new.items ≡ pieces.old.items
        ++ saying site.entry.directory.now site.entry.inputs.now meaning text.now word.now ∷ []) }
{
    let path = path_of(alloc, site.directory, site.inputs, meaning, text)?;
    pieces.push(Piece {
        meaning,
        word,
        text,
        path,
    })?;
    Ok(())
}

/// A word that is no compile word.
fn refuse<'a>(word: &'a Text, pieces: &mut Vec<Piece<'a>>) -> Result<(), NoMemory>
    ensures { IfOk result (λ _. pieces.new.items ≡ pieces.old.items ++ outside word.now ∷ []) }
{
    pieces.push(Piece {
        meaning: Meaning::Refused,
        word: word.as_str(),
        text: word.as_str(),
        path: None,
    })?;
    Ok(())
}

/// Whether the word after one with this row is its value.
fn uses_next(row: Option<Row>, word: &Text) -> bool
    ensures { result ≡ uses_next (option_map row_of row.entry) word.now }
{
    match row {
        Some(row) => takes_next(row, word.as_str()),
        None => false,
    }
}
