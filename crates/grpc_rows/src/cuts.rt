//! `cuts BYTES STATUS`: answers whose bytes are cut in two at each place.

use crate::events::{bytes_event, list_event};
use crate::headers::list_of;
use rx_base::NoMemory;
use rx_grpc::{Answer, Answers};
use rx_rows::{RowFault, Turn};
use std::alloc::Global;

/// Writes the answer of a call that expects one message, or `none`.
pub(crate) fn write_answer(heard: &Option<Answer>, turn: &mut Turn<'_, '_>) {
    match heard {
        Some(answer) => write_heard(answer, turn),
        None => turn.write_word("none"),
    }
}

/// Writes the answer of a call that expects one message.
pub(crate) fn write_heard(answer: &Answer, turn: &mut Turn<'_, '_>) {
    match answer {
        Answer::Message(message) => {
            turn.write_word("Message");
            turn.write_bytes(message.as_slice());
        }
        Answer::Status(code) => turn.write_named("Status", u64::from(*code)),
        other => turn.write_value(other),
    }
}

/// A reader of an answer with HTTP status 200, these two pieces, and this status.
fn heard(alloc: Global, front: &[u8], back: &[u8], status: &[u8]) -> Result<Answers, NoMemory> {
    let mut answers = Answers::new(alloc);
    hear(alloc, &mut answers, front, back)?;
    answers.add(list_event(list_of(alloc, b"grpc-status", status)?, true))?;
    Ok(answers)
}

fn hear(alloc: Global, answers: &mut Answers, front: &[u8], back: &[u8]) -> Result<(), NoMemory> {
    answers.add(list_event(list_of(alloc, b":status", b"200")?, false))?;
    answers.add(bytes_event(Vec::from_slice(alloc, front)?, false))?;
    answers.add(bytes_event(Vec::from_slice(alloc, back)?, false))
}

/// The answer of each cut in turn.
pub(crate) fn call(turn: &mut Turn<'_, '_>) {
    let bytes = turn.read_bytes();
    let status = turn.read_text();
    for at in 0..bytes.len() + 1 {
        let (front, back) = bytes.split_at(at);
        write_cut(front, back, &status, turn);
    }
}

fn write_cut(front: &[u8], back: &[u8], status: &[u8], turn: &mut Turn<'_, '_>) {
    match heard(turn.alloc(), front, back, status) {
        Ok(mut answers) => write_answer(&answers.unary(false), turn),
        Err(_) => turn.refuse(RowFault::NoMemory),
    }
}
