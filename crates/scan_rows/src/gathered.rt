//! What is gathered, or why not, in words.

use crate::readings::show_paths;
use rx_base::{Digest, NoMemory, RelPath};
use rx_digest_cache::CacheFault;
use rx_row_values::{write_changed, write_digest, write_look};
use rx_rows::Answer;
use rx_scan::{GatherFault, Gathered};
use rx_world::{ChangedInput, LocalCause, Look, Plan};
use std::alloc::Global;

/// A word and a path.
fn show_path(answer: &mut Answer, word: &str, path: &RelPath) -> Result<(), NoMemory> {
    answer.word(word)?;
    answer.word(path.as_str())
}

/// A path that changed, with both values.
fn show_changed(alloc: Global, answer: &mut Answer, input: &ChangedInput) -> Result<(), NoMemory> {
    show_path(answer, "changed", &input.path)?;
    write_changed(alloc, answer, input)
}

fn plan_word(plan: Plan) -> &'static str {
    match plan {
        Plan::LocalOnly => "local",
        Plan::RemoteOnly => "remote",
        Plan::Fallback => "fallback",
        Plan::Both => "both",
    }
}

/// What was gathered: the plan, the files and the directories.
pub(crate) fn show_gathered(answer: &mut Answer, gathered: &Gathered) -> Result<(), NoMemory> {
    answer.word(plan_word(gathered.plan))?;
    answer.word("|")?;
    for file in gathered.files.as_slice() {
        answer.word(file.path.as_str())?;
    }
    show_paths(answer, gathered.dirs.as_slice())
}

/// The digests of the files that were gathered.
pub(crate) fn show_digests(
    alloc: Global,
    answer: &mut Answer,
    gathered: &Gathered,
) -> Result<(), NoMemory> {
    for file in gathered.files.as_slice() {
        answer.word(file.path.as_str())?;
        write_digest(alloc, answer, &file.digest)?;
    }
    Ok(())
}

/// Why the files of a command can't be gathered.
pub(crate) fn show_fault(
    alloc: Global,
    answer: &mut Answer,
    fault: &GatherFault,
) -> Result<(), NoMemory> {
    match fault {
        GatherFault::InputMissing { path } => show_path(answer, "missing", path),
        GatherFault::SourceFault { path } => show_path(answer, "fault", path),
        GatherFault::TooLarge { limit, n, path } => {
            answer.value(limit)?;
            answer.number(*n)?;
            answer.word(path.as_ref().map_or("alone", |path| path.as_str()))
        }
        GatherFault::InputChanged(input) => show_changed(alloc, answer, input),
        GatherFault::NotRemotable { cause } => match cause {
            LocalCause::Word { word } => {
                answer.word("word")?;
                answer.word(word.as_str())
            }
            LocalCause::Path { path } => show_path(answer, "path", path),
        },
        GatherFault::Blocked { path } => show_path(answer, "blocked", path),
        GatherFault::NoMemory => answer.word("no-memory"),
    }
}

/// A digest with the look that it belongs to, or why there is none.
pub(crate) fn show_found(
    alloc: Global,
    answer: &mut Answer,
    found: &Result<(Look, Digest), CacheFault>,
) -> Result<(), NoMemory> {
    match found {
        Ok((look, digest)) => {
            write_look(alloc, answer, *look)?;
            write_digest(alloc, answer, digest)
        }
        Err(CacheFault::NotFile { look }) => {
            answer.word("not-file")?;
            write_look(alloc, answer, *look)
        }
        Err(CacheFault::SourceFault) => answer.word("fault"),
        Err(CacheFault::NoMemory) => answer.word("no-memory"),
    }
}
