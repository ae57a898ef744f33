//! What is left behind a run, in words.

use crate::desks::MemoryDesk;
use crate::replies::{show_number, show_reply};
use rx_base::NoMemory;
use rx_board::Entry;
use rx_engine::Transcript;
use rx_farm_values::write_asks;
use rx_row_values::write_digest;
use rx_rows::Answer;
use rx_world::{FileOut, Listed};
use std::alloc::Global;

/// How a session ended, how many bytes it read, what it replied and where it published.
pub(crate) fn show_session(
    alloc: Global,
    answer: &mut Answer,
    transcript: &Transcript,
) -> Result<(), NoMemory> {
    answer.value(&transcript.ending)?;
    show_number(answer, "read", transcript.read.len() as u64)?;
    match &transcript.reply {
        None => answer.word("no-reply")?,
        Some(reply) => show_reply(alloc, answer, reply)?,
    }
    match transcript.receipt {
        None => Ok(()),
        Some(receipt) => show_number(answer, "published", receipt.number),
    }
}

/// An entry of the journal: its number, its session, how many files were placed, and each file that was
/// to be placed, by its path, its digest and its mark.
pub(crate) fn show_entry(
    alloc: Global,
    answer: &mut Answer,
    entry: &Entry,
) -> Result<(), NoMemory> {
    show_number(answer, "number", entry.number)?;
    show_number(answer, "session", u64::from(entry.session))?;
    show_number(answer, "placed", entry.placed)?;
    show_listed(alloc, answer, entry.files.as_slice())
}

/// Files by their paths, digests and marks.
pub(crate) fn show_listed(
    alloc: Global,
    answer: &mut Answer,
    files: &[Listed],
) -> Result<(), NoMemory> {
    for file in files {
        answer.text(file.path.as_str().as_bytes())?;
        write_digest(alloc, answer, &file.digest)?;
        show_mark(answer, file.executable)?;
    }
    Ok(())
}

fn show_mark(answer: &mut Answer, executable: bool) -> Result<(), NoMemory> {
    if executable {
        return answer.word("executable");
    }
    answer.word("plain")
}

/// The files of a place: each by its path, its text and its mark.
pub(crate) fn show_files(answer: &mut Answer, files: &[FileOut]) -> Result<(), NoMemory> {
    if files.is_empty() {
        return answer.word("empty");
    }
    for file in files {
        answer.text(file.path.as_str().as_bytes())?;
        answer.text(file.bytes.as_slice())?;
        show_mark(answer, file.executable)?;
    }
    Ok(())
}

/// How many benches were asked for, how many came back, and how many runs were made on these.
pub(crate) fn show_benches(answer: &mut Answer, desk: &MemoryDesk) -> Result<(), NoMemory> {
    show_number(answer, "asked", desk.benches.script.calls)?;
    let Some(benches) = &desk.benches.returned else {
        return answer.word("lost");
    };
    let mut runs = 0usize;
    for bench in benches.as_slice() {
        runs = runs.saturating_add(bench.runs.len());
    }
    show_number(answer, "returned", benches.len() as u64)?;
    show_number(answer, "runs", runs as u64)
}

/// How many reads the source trees of the gathering and of the local attempt answered.
pub(crate) fn show_reads(answer: &mut Answer, desk: &MemoryDesk) -> Result<(), NoMemory> {
    show_number(answer, "tree", desk.tree.reads() as u64)?;
    show_number(answer, "local", desk.tree_local.reads() as u64)
}

/// What the farm's client was asked, how many of these calls failed, and how many reads the source tree
/// of the remote attempt answered.
pub(crate) fn show_farm(
    alloc: Global,
    answer: &mut Answer,
    desk: &MemoryDesk,
) -> Result<(), NoMemory> {
    write_asks(alloc, desk.farm.asks(), answer)?;
    show_number(answer, "faults", desk.farm.faults())?;
    show_number(answer, "reads", desk.tree_remote.reads() as u64)
}
