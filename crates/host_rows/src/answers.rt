//! What calls of the outside answered, in words.

use rx_rows::{Answer, RowFault};
use rx_world::{Failed, Refused};
use std::alloc::AllocError;

/// The longest output that is written as it is.
const MOST_SHOWN: usize = 100;

/// `ok`, or `failed`.
pub(crate) fn write_done<E: Drop>(
    done: Result<(), E>,
    answer: &mut Answer,
) -> Result<(), RowFault> {
    let word = if done.is_ok() { "ok" } else { "failed" };
    answer.word(word)?;
    Ok(())
}

/// How many bytes a call read or wrote, or `failed`.
pub(crate) fn write_count(
    count: Result<usize, Failed>,
    answer: &mut Answer,
) -> Result<(), AllocError> {
    match count {
        Ok(count) => answer.number(count as u64),
        Err(_) => answer.word("failed"),
    }
}

/// `failed`. `NoMemory` where memory ran out.
pub(crate) fn write_refused(refused: Refused, answer: &mut Answer) -> Result<(), RowFault> {
    match refused {
        Refused::Failed => answer.word("failed")?,
        Refused::NoMemory => return Err(RowFault::NoMemory),
    }
    Ok(())
}

/// An output's text, or how long it is.
pub(crate) fn write_output(output: &[u8], answer: &mut Answer) -> Result<(), AllocError> {
    if output.len() <= MOST_SHOWN {
        return answer.text(output);
    }
    answer.number(output.len() as u64)?;
    answer.word("bytes")
}
