//! The files that a compiler makes, by what words say.

ghost use Rattle.std.specs.Prelude.{◌≡◌, ◌++◌, IfOk, filter, map};
ghost use Rattle.std.specs.List.{list_any};
ghost use Rattle.rx_base.specs.SortedPaths.{AreSorted};
ghost use Rattle.rx_cppflags.specs.Made.{dependency_texts, ending_for, is_debug, is_sure, last_of, made_texts, may_miss, object_of, object_texts, sides_for, source_objects, unnamed_objects};
ghost use Rattle.rx_cppflags.specs.Meanings.{names_source};
ghost use Rattle.rx_cppflags.specs.Pieces.{saying};
ghost use Rattle.rx_cppflags.specs.declared.meanings.Meaning.TheVariants.{Made};

use crate::endings::{last_name, with_ending, with_endings};
use crate::found::{has_meaning, texts_of};
use crate::meanings::Meaning;
use crate::pieces::{Piece, Site, say_value};
use rx_base::{Items, NoMemory, Text, TryClone};
use std::alloc::Global;

/// What is made besides the objects that words name, as texts.
pub(crate) fn made_texts(alloc: Global, pieces: &[Piece]) -> Result<Items<Text>, NoMemory>
    ensures { IfOk result (λ texts. texts ≡ made_texts pieces.now) }
{
    let objects = object_texts(alloc, pieces)?;
    let made = unnamed_objects(alloc, pieces)?;
    let made = add_dependencies(alloc, pieces, objects.as_slice(), made)?;
    let made = add_sides(alloc, pieces, Meaning::SplitDebug, objects.as_slice(), made)?;
    let made = add_sides(alloc, pieces, Meaning::StackUsage, objects.as_slice(), made)?;
    add_sides(alloc, pieces, Meaning::TimeTrace, objects.as_slice(), made)
}

/// The objects: each `-o`; without one, each source's own.
fn object_texts(alloc: Global, pieces: &[Piece]) -> Result<Items<Text>, NoMemory>
    ensures { IfOk result (λ texts. texts ≡ object_texts pieces.now) }
{
    if has_meaning(pieces, Meaning::Output) {
        return texts_of(alloc, pieces, Meaning::Output);
    }
    source_objects(alloc, pieces)
}

/// The objects that no word names.
fn unnamed_objects(alloc: Global, pieces: &[Piece]) -> Result<Items<Text>, NoMemory>
    ensures { IfOk result (λ texts. texts ≡ unnamed_objects pieces.now) }
{
    if has_meaning(pieces, Meaning::Output) {
        return Ok(Items::new(alloc));
    }
    source_objects(alloc, pieces)
}

/// Where sources are compiled and not linked, each source's own object.
fn source_objects(alloc: Global, pieces: &[Piece]) -> Result<Items<Text>, NoMemory>
    ensures { IfOk result (λ texts. texts ≡ source_objects pieces.now) }
{
    if has_meaning(pieces, Meaning::CompileOnly) {
        return objects_of(alloc, pieces);
    }
    Ok(Items::new(alloc))
}

/// The object of each source, in the working directory.
fn objects_of(alloc: Global, pieces: &[Piece]) -> Result<Items<Text>, NoMemory>
    ensures { IfOk result (λ texts. texts ≡ map object_of
        (filter (λ piece. names_source piece.meaning) pieces.now)) }
{
    let mut texts = Items::new(alloc);
    for piece in pieces {
        if piece.meaning.names_source() {
            texts.push(with_ending(alloc, ".o", last_name(piece.text))?)?;
        }
    }
    Ok(texts)
}

/// Texts, and behind them the files of dependencies of a command that makes these objects.
fn add_dependencies(
    alloc: Global,
    pieces: &[Piece],
    objects: &[Text],
    made: Items<Text>,
) -> Result<Items<Text>, NoMemory>
    requires { objects.now ≡ object_texts pieces.now }
    ensures { IfOk result (λ all. all ≡ made ++ dependency_texts pieces.now) }
{
    if has_meaning(pieces, Meaning::WrittenDependencies) {
        let texts = texts_of(alloc, pieces, Meaning::WrittenDependencies)?;
        return add_last(alloc, texts.as_slice(), made);
    }
    if has_meaning(pieces, Meaning::DependencyFile) {
        let texts = texts_of(alloc, pieces, Meaning::DependencyFile)?;
        return add_last(alloc, texts.as_slice(), made);
    }
    if has_meaning(pieces, Meaning::Dependencies) {
        return with_endings(alloc, ".d", objects, made);
    }
    with_endings(alloc, ".d", &[], made)
}

/// Texts, and behind them the last of others.
fn add_last(alloc: Global, texts: &[Text], made: Items<Text>) -> Result<Items<Text>, NoMemory>
    ensures { IfOk result (λ all. all ≡ made ++ last_of texts.now) }
{
    with_texts(alloc, &texts[texts.len().saturating_sub(1)..], made)
}

/// Texts, and behind them copies of others.
fn with_texts(alloc: Global, texts: &[Text], mut made: Items<Text>) -> Result<Items<Text>, NoMemory>
    ensures { IfOk result (λ all. all ≡ made ++ texts.now) }
{
    for text in texts {
        made.push(text.try_clone(alloc)?)?;
    }
    Ok(made)
}

/// Texts, and behind them the files of this meaning that are surely made beside these objects.
fn add_sides(
    alloc: Global,
    pieces: &[Piece],
    meaning: Meaning,
    objects: &[Text],
    made: Items<Text>,
) -> Result<Items<Text>, NoMemory>
    requires { objects.now ≡ object_texts pieces.now }
    ensures { IfOk result (λ all. all ≡ made ++ sides_for meaning pieces.now) }
{
    if has_meaning(pieces, meaning) && is_sure(pieces, meaning) {
        return with_endings(alloc, ending_for(meaning), objects, made);
    }
    with_endings(alloc, "", &[], made)
}

/// How a file of this meaning ends that is made beside an object.
fn ending_for(meaning: Meaning) -> &'static str
    ensures { result.now ≡ ending_for meaning }
{
    if meaning.is(Meaning::SplitDebug) {
        ".dwo"
    } else if meaning.is(Meaning::StackUsage) {
        ".su"
    } else {
        ".json"
    }
}

/// Whether the file that a word of this meaning asks for is surely made.
pub(crate) fn is_sure(pieces: &[Piece], meaning: Meaning) -> bool
    ensures { result ≡ is_sure meaning pieces.now }
{
    !misses(pieces) && (!meaning.is(Meaning::SplitDebug) || makes_debug(pieces))
}

/// Whether beside one of the words such a file may not be made.
fn misses(pieces: &[Piece]) -> bool
    ensures { result ≡ list_any (λ s. may_miss s.word) pieces.now }
{
    pieces.iter().any(|piece| may_miss(piece.word))
}

/// Whether a word makes debug information.
fn makes_debug(pieces: &[Piece]) -> bool
    ensures { result ≡ list_any (λ s. is_debug s.word) pieces.now }
{
    pieces.iter().any(|piece| is_debug(piece.word))
}

/// Whether this word makes debug information.
fn is_debug(word: &str) -> bool
    ensures { result ≡ is_debug word.now }
{
    matches!(word, "-g" | "-g2" | "-g3" | "-ggdb" | "-ggdb2" | "-ggdb3")
        || word.as_bytes().starts_with(b"-gdwarf-")
}

/// Whether beside this word such a file may not be made.
fn may_miss(word: &str) -> bool
    ensures { result ≡ may_miss word.now }
{
    let word = word.as_bytes();
    word.starts_with(b"-flto")
        || word.starts_with(b"-g0")
        || word.starts_with(b"-ggdb0")
        || word.starts_with(b"-gno-split")
        || word.starts_with(b"-fno-stack-usage")
}

/// Adds what is made besides to what words say.
pub(crate) fn add_made<'a>(
    alloc: Global,
    site: Site,
    texts: &'a [Text],
    pieces: &mut Vec<Piece<'a>>,
) -> Result<(), NoMemory>
    requires { AreSorted site.inputs.now }
    ensures { IfOk result (λ _. pieces.new.items ≡ pieces.old.items
        ++ map (λ text. saying site.entry.directory.now site.entry.inputs.now Made text text)
        texts.now) }
{
    for text in texts {
        say_value(
            alloc,
            site,
            Meaning::Made,
            text.as_str(),
            text.as_str(),
            pieces,
        )?;
    }
    Ok(())
}
