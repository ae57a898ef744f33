//! What rows ask of a run that ended, by their first words.

use crate::desks::MemoryDesk;
use crate::ends::{show_ends, show_passes};
use crate::outcomes::{show_benches, show_entry, show_farm, show_files, show_reads, show_session};
use crate::runs::Finished;
use rx_base::NoMemory;
use rx_engine::Transcript;
use rx_rows::{Answer, Row, RowFault};
use std::alloc::Global;

/// The item of a number from 1 on.
fn nth<T>(items: &[T], number: u64) -> Result<&T, RowFault> {
    if number == 0 {
        return Err(RowFault::BadCall);
    }
    match items.get((number - 1) as usize) {
        Some(item) => Ok(item),
        None => Err(RowFault::BadCall),
    }
}

/// The number of the session that published as the one of this turn, from 1 on.
fn by_turn(run: &Finished, turn: u64) -> Result<u64, RowFault> {
    for i in 0..run.order.len() {
        if turn > 0 && run.order[i] == turn - 1 {
            return Ok(i as u64 + 1);
        }
    }
    Err(RowFault::BadCall)
}

/// What is left behind a run: of the place, or of the session or entry whose number is the next word; of `turn` and `turn-frame`, of
/// the session that published as that one.
pub(crate) fn show_after(
    alloc: Global,
    run: &Finished,
    word: &str,
    row: &mut Row<'_>,
    answer: &mut Answer,
) -> Result<(), RowFault> {
    if word == "place" {
        show_files(answer, run.place.files.as_slice())?;
        return Ok(());
    }
    let number = row.number()?;
    match word {
        "entry" => show_entry(alloc, answer, nth(&run.journal, number)?)?,
        "turn" => {
            let transcript = nth(&run.transcripts, by_turn(run, number)?)?;
            show_session(alloc, answer, transcript)?
        }
        "turn-frame" => {
            let desk = nth(&run.desks, by_turn(run, number)?)?;
            show_desk(alloc, "frame", desk, answer)?
        }
        "session" | "ends" | "passes" => {
            show_transcript(alloc, word, nth(&run.transcripts, number)?, answer)?
        }
        _ => show_desk(alloc, word, nth(&run.desks, number)?, answer)?,
    }
    Ok(())
}

/// What is left behind of a session.
fn show_transcript(
    alloc: Global,
    word: &str,
    transcript: &Transcript,
    answer: &mut Answer,
) -> Result<(), NoMemory> {
    match word {
        "session" => show_session(alloc, answer, transcript),
        "ends" => show_ends(alloc, answer, &transcript.ends),
        _ => show_passes(answer, transcript.passes),
    }
}

/// What is left behind of a desk.
fn show_desk(
    alloc: Global,
    word: &str,
    desk: &MemoryDesk,
    answer: &mut Answer,
) -> Result<(), NoMemory> {
    match word {
        "frame" => answer.bytes(desk.output.bytes.as_slice()),
        "reads" => show_reads(answer, desk),
        "calls" => show_farm(alloc, answer, desk),
        _ => show_benches(answer, desk),
    }
}
