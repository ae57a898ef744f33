//! How a compile command is read: as one whose includes can be followed, or as one that only the
//! machine itself can run.

ghost use Rattle.std.specs.Prelude.{◌≡◌, ◌++◌, IfOk, drop, option_map};
ghost use Rattle.rx_base.specs.SortedPaths.{AreSorted};
ghost use Rattle.rx_cppflags.specs.Found.{sources_of};
ghost use Rattle.rx_cppflags.specs.LocalOutputs.{local_outputs};
ghost use Rattle.rx_cppflags.specs.Outside.{outside_of};
ghost use Rattle.rx_cppflags.specs.Readings.{HasSafeOutputs, compile_from, compile_of, first_word, has_one_object, only_path, reading_from, reading_of};

use crate::found::{
    has_meaning, has_meaning_again, is_c, outputs_of, paths_of, sources_of, texts_of, walked_of,
};
use crate::local_outputs::local_outputs;
use crate::made::{add_made, made_texts};
use crate::meanings::Meaning;
use crate::outside::first_outside;
use crate::pieces::{Piece, Site, cut};
use crate::searches::{are_sorted, copy_paths};
use crate::variables::first_variable;
use rx_base::{Items, NoMemory, RelPath, Text, TryClone, sort_paths};
use rx_world::Command;
use std::alloc::Global;

/// How a compile command is read. Paths are relative to the root.
#[derive(Debug, Drop)]
pub enum Reading {
    /// Each word is a compile word, and the files that the compiler opens can be found by a scan.
    Compile {
        /// The one source.
        source: RelPath,
        /// The directories of `-iquote`, for quoted names alone, in the order of the words.
        quote_dirs: Items<RelPath>,
        /// The directories of `-I`, then of `-isystem`, then of `-idirafter`, each in the order of
        /// the words.
        dirs: Items<RelPath>,
        /// The files of `-include` and `-imacros` as they are written, in the order of the words.
        forced: Items<Text>,
        /// The texts whose ways from the working directory lead to what the words name, in their order: a
        /// directory's or a file's own, and the directory's of what is made, where it has a slash: first of
        /// `-o`, and behind all words of what is made besides.
        walked: Items<Text>,
        /// The system roots, in which no name is sought.
        sysroots: Items<RelPath>,
        /// What is made, sorted by bytes, each once: the object, the file of dependencies, and the `.dwo`,
        /// `.su` and `.json` beside the object.
        outputs: Items<RelPath>,
        /// Whether the source is C.
        is_c: bool,
    },
    /// The command is more than that, by this word or this name of an environment variable.
    LocalOnly {
        word: Text,
        /// The same, as far as the words are understood, and of each `-o` and each source. One that isn't
        /// below the working directory, or is in the way of another or of a declared input, is left out.
        outputs: Items<RelPath>,
    },
}

/// Reads the words of a compile command with these declared inputs.
///
/// The first word is the compiler. `LocalOnly` names the first other word that is no compile word:
/// that of a flag that the table doesn't have or whose next word is missing; the path's own word
/// where the path is absolute, leaves the root or begins with `=` or `$`; a value's that the table
/// doesn't have; an object's that isn't below the working directory, is above a declared input, or
/// above or below another output, also one of the command's own; `-gsplit-dwarf`, `-fstack-usage` and
/// `-ftime-trace` where it isn't sure that their file is made beside the object; a file of dependencies
/// by `-Wp,` beside a `-MF`; and `-emit-llvm` without `-o`. Behind all words stand the paths of what is
/// made besides. Next it names the compiler where there is no `-c`, not one source, or more than one
/// `-o`. Last it names the first variable of the environment that adds directories of includes.
pub fn read_command(
    alloc: Global,
    command: &Command,
    inputs: &[RelPath],
) -> Result<Reading, NoMemory>
    ensures exact { IfOk result (λ reading. reading ≡ reading_of command.now inputs.now) }
    ensures safe { IfOk result (λ reading. HasSafeOutputs command.now inputs.now reading) }
{
    read(alloc, command, inputs)
}

fn read(alloc: Global, command: &Command, inputs: &[RelPath]) -> Result<Reading, NoMemory>
    ensures { IfOk result (λ reading. reading ≡ reading_of command.now inputs.now) }
{
    if are_sorted(inputs) {
        return read_sorted(alloc, command, inputs);
    }
    let inputs = sort_paths(copy_paths(alloc, inputs)?)?;
    read_sorted(alloc, command, inputs.as_slice())
}

/// The reading of a command with these sorted declared inputs.
#[tactic(auto, unfolding(crate::specs::Readings::reading_of))]
fn read_sorted(alloc: Global, command: &Command, inputs: &[RelPath]) -> Result<Reading, NoMemory>
    requires { AreSorted inputs.now }
    ensures { IfOk result (λ reading. reading ≡ reading_of command.now inputs.now) }
{
    let site = Site {
        directory: &command.working_directory,
        inputs,
    };
    let words = arguments(command.words.as_slice());
    let mut named = Vec::new(alloc);
    cut(alloc, site, words, &mut named)?;
    let made = made_texts(alloc, &named)?;
    let mut pieces = named;
    add_made(alloc, site, made.as_slice(), &mut pieces)?;
    read_pieces(alloc, command, &pieces)
}

/// The words behind the compiler.
fn arguments(words: &[Text]) -> &[Text]
    ensures { result.now ≡ drop 1 words.now }
{
    match words {
        [] => words,
        [_, others @ ..] => others,
    }
}

/// The reading of a command whose words say this.
fn read_pieces(alloc: Global, command: &Command, pieces: &[Piece]) -> Result<Reading, NoMemory>
    ensures { IfOk result (λ reading. reading ≡ reading_from command.now pieces.now) }
{
    match outside_of(alloc, &command.outputs, pieces)? {
        Some(word) => local_only(alloc, command, pieces, word.as_str()),
        None => count(alloc, command, pieces),
    }
}

/// The first word that is no compile word, in a command that has these outputs besides those that
/// its words make.
fn outside_of(
    alloc: Global,
    outputs: &Items<RelPath>,
    pieces: &[Piece],
) -> Result<Option<Text>, NoMemory>
    ensures { IfOk result (λ word. word ≡ outside_of outputs.now pieces.now) }
{
    let outputs = sort_paths(outputs_of(alloc, pieces, outputs.try_clone(alloc)?)?)?;
    match first_outside(pieces, outputs.as_slice(), pieces) {
        Some(word) => Ok(Some(Text::copy_of(alloc, word)?)),
        None => Ok(None),
    }
}

/// The reading of compile words.
fn count(alloc: Global, command: &Command, pieces: &[Piece]) -> Result<Reading, NoMemory>
    ensures { IfOk result (λ reading. reading
        ≡ compile_from command.now (local_outputs command.now pieces.now) pieces.now
        (only_path (sources_of pieces.now))) }
{
    let compiler = first_word(command.words.as_slice());
    let Some(source) = only_path(sources_of(alloc, pieces)?) else {
        return local_only(alloc, command, pieces, compiler);
    };
    if !has_one_object(pieces) {
        return local_only(alloc, command, pieces, compiler);
    }
    match first_variable(command.environment.as_slice()) {
        Some(name) => local_only(alloc, command, pieces, name.as_str()),
        None => compile(alloc, pieces, source),
    }
}

/// Whether the words say that it compiles, and name one object at most.
fn has_one_object(pieces: &[Piece]) -> bool
    ensures { result ≡ has_one_object pieces.now }
{
    has_meaning(pieces, Meaning::CompileOnly) && !has_meaning_again(pieces, Meaning::Output)
}

/// The reading of a compile command with this source.
fn compile(alloc: Global, pieces: &[Piece], source: RelPath) -> Result<Reading, NoMemory>
    ensures { IfOk result (λ reading. reading ≡ compile_of pieces.now source) }
{
    let dirs = paths_of(alloc, pieces, Meaning::Dir, Items::new(alloc))?;
    let dirs = paths_of(alloc, pieces, Meaning::SystemDir, dirs)?;
    Ok(Reading::Compile {
        source,
        quote_dirs: paths_of(alloc, pieces, Meaning::QuoteDir, Items::new(alloc))?,
        dirs: paths_of(alloc, pieces, Meaning::AfterDir, dirs)?,
        forced: texts_of(alloc, pieces, Meaning::Forced)?,
        walked: walked_of(alloc, pieces)?,
        sysroots: paths_of(alloc, pieces, Meaning::Sysroot, Items::new(alloc))?,
        outputs: sort_paths(outputs_of(alloc, pieces, Items::new(alloc))?)?,
        is_c: is_c(pieces),
    })
}

/// The reading of a command that only the machine itself can run, by this word or name.
fn local_only(
    alloc: Global,
    command: &Command,
    pieces: &[Piece],
    word: &str,
) -> Result<Reading, NoMemory>
    ensures { IfOk result (λ reading. reading
        ≡ Reading.LocalOnly word.now (local_outputs command.now pieces.now)) }
{
    Ok(Reading::LocalOnly {
        word: Text::copy_of(alloc, word)?,
        outputs: local_outputs(alloc, command, pieces)?,
    })
}

/// The one path of a list that has one.
fn only_path(paths: Items<RelPath>) -> Option<RelPath>
    ensures { result ≡ only_path paths }
{
    let mut paths = paths.into_vec();
    let last = paths.pop();
    if paths.is_empty() { last } else { None }
}

/// The compiler; a command without words has the empty text for it.
fn first_word(words: &[Text]) -> &str
    ensures { result.now ≡ first_word words.now }
{
    match words.first() {
        Some(word) => word.as_str(),
        None => "",
    }
}
