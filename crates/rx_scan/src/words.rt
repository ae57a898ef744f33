//! What the words of a command say, as far as gathering needs it, and the command with all its outputs.

ghost use Rattle.std.specs.Prelude.{◌≡◌, [], IfOk, None, Some};
ghost use Rattle.std.specs.List.{AllByRecursion};
ghost use Rattle.rx_cppflags.specs.Readings.{IsSafeOutput, reading_of};
ghost use Rattle.rx_scan.specs.Words.{reading_for, meaning_of, with_outputs};

use crate::path_lists::with_paths;
use rx_base::{Items, NoMemory, RelPath, Text, TryClone, sort_paths};
use rx_cppflags::{Reading, read_command};
use rx_reach::Search;
use rx_world::{Command, Kind};
use std::alloc::Global;

/// What the words of a command say. Those of a tool say nothing.
#[derive(Debug, Drop)]
pub(crate) struct WordMeaning {
    /// Where its includes are sought, of a command whose includes can be followed.
    pub search: Option<Search>,
    /// The system roots, whose files are declared inputs too.
    pub roots: Items<RelPath>,
    /// The outputs that the words name.
    pub outputs: Items<RelPath>,
    /// The word that keeps the command on this machine.
    pub word: Option<Text>,
}

/// The word that keeps the command on this machine. The rest of the meaning is let go here, in one
/// place, and not in each way out of the caller.
pub(crate) fn word_of(meaning: WordMeaning) -> Option<Text>
    ensures { result ≡ meaning.word }
{
    meaning.word
}

/// Reads the words of a compile command; a tool's aren't read.
pub(crate) fn read_words(
    alloc: Global,
    command: &Command,
    kind: Kind,
    inputs: &[RelPath],
) -> Result<WordMeaning, NoMemory>
    ensures meaning { IfOk result
        (λ meaning. meaning ≡ meaning_of command.now (reading_for kind command.now inputs.now)) }
    ensures safe { IfOk result (λ meaning.
        AllByRecursion (IsSafeOutput command.now inputs.now meaning.outputs) meaning.outputs) }
{
    match kind {
        Kind::Tool => Ok(no_meaning(alloc)),
        Kind::Compile => read_compile(alloc, command, inputs),
    }
}

fn no_meaning(alloc: Global) -> WordMeaning
    ensures { result ≡ record { search = None; roots = []; outputs = []; word = None } }
{
    WordMeaning {
        search: None,
        roots: Items::new(alloc),
        outputs: Items::new(alloc),
        word: None,
    }
}

fn read_compile(
    alloc: Global,
    command: &Command,
    inputs: &[RelPath],
) -> Result<WordMeaning, NoMemory>
    ensures meaning { IfOk result
        (λ meaning. meaning ≡ meaning_of command.now (Some (reading_of command.now inputs.now))) }
    ensures safe { IfOk result (λ meaning.
        AllByRecursion (IsSafeOutput command.now inputs.now meaning.outputs) meaning.outputs) }
{
    let reading = read_command(alloc, command, inputs)?;
    let meaning = meaning_of(alloc, command, reading)?;
    Ok(meaning)
}

/// What a reading says.
fn meaning_of(alloc: Global, command: &Command, reading: Reading) -> Result<WordMeaning, NoMemory>
    ensures { IfOk result (λ meaning. meaning ≡ meaning_of command.now (Some reading)) }
{
    match reading {
        Reading::Compile {
            source,
            quote_dirs,
            dirs,
            forced,
            walked,
            sysroots,
            outputs,
            is_c,
        } => Ok(WordMeaning {
            search: Some(Search {
                working_directory: command.working_directory.try_clone(alloc)?,
                source,
                quote_dirs,
                dirs,
                forced,
                walked,
                is_c,
            }),
            roots: sysroots,
            outputs,
            word: None,
        }),
        Reading::LocalOnly { word, outputs } => Ok(WordMeaning {
            search: None,
            roots: Items::new(alloc),
            outputs,
            word: Some(word),
        }),
    }
}

/// A copy of the command, with these outputs besides its own, in order.
#[tactic(auto, using(crate::proofs::PathSteps::map_same))]
pub(crate) fn with_outputs(
    alloc: Global,
    command: &Command,
    outputs: &[RelPath],
) -> Result<Command, NoMemory>
    ensures { IfOk result (λ copy. copy ≡ with_outputs command.now outputs.now) }
{
    let all = with_paths(alloc, command.outputs.try_clone(alloc)?, outputs)?;
    Ok(Command {
        words: command.words.try_clone(alloc)?,
        environment: command.environment.try_clone(alloc)?,
        working_directory: command.working_directory.try_clone(alloc)?,
        outputs: sort_paths(all)?,
        platform: command.platform.try_clone(alloc)?,
        timeout_seconds: command.timeout_seconds,
    })
}
