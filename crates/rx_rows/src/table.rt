//! A whole table: its rows are read, answered and written.

use crate::answer::Answer;
use crate::fault::{RowFault, TableFault};
use crate::row::Row;
use std::alloc::Global;
use std::io::{BufRead, Write};

/// The calls that a program's rows name.
pub trait Calls {
    /// Makes the call that the row's first word names, with the arguments that follow, and writes its answer. All words are
    /// read, or the row is refused.
    fn call(&mut self, row: &mut Row<'_>, answer: &mut Answer) -> Result<(), RowFault>;
}

/// Answers the rows of the input one by one, and writes each with its answer. What isn't a row is written as it is.
///
/// Errors: `Row` with the line of the first row that is refused, and `Io`. What was written before stays.
pub fn answer_rows<R: BufRead + Drop, W: Write, C: Calls>(
    alloc: Global,
    input: R,
    output: &mut W,
    calls: &mut C,
) -> Result<(), TableFault> {
    let mut line = 0u64;
    for text in input.lines(alloc) {
        let text = text?;
        line = line.saturating_add(1);
        match answer_line(alloc, text.as_bytes(), calls) {
            Ok(written) => output.write_all(&written)?,
            Err(fault) => return Err(TableFault::Row { line, fault }),
        }
    }
    output.flush()?;
    Ok(())
}

/// What is written for a line, with its line's end.
fn answer_line<C: Calls>(alloc: Global, line: &[u8], calls: &mut C) -> Result<Vec<u8>, RowFault> {
    let mut written = Vec::from_slice(alloc, line)?;
    if is_row(line) {
        let answer = answer_row(alloc, line, calls)?;
        written.extend_from_slice(b" => ")?;
        written.extend_from_slice(answer.as_bytes())?;
    }
    written.push(b'\n')?;
    Ok(written)
}

/// Whether the line is a row, and neither empty nor a heading.
fn is_row(line: &[u8]) -> bool {
    match line {
        [] | [b'#', ..] => false,
        _ => true,
    }
}

/// The answer to a row, the last one where the call is repeated.
fn answer_row<C: Calls>(alloc: Global, line: &[u8], calls: &mut C) -> Result<Answer, RowFault> {
    let mut row = Row::new(line);
    if row.word()? != "repeat" {
        return make_call(alloc, Row::new(line), calls);
    }
    let count = row.number()?;
    let mut last = Answer::new(alloc);
    for _ in 0..count {
        last = make_call(alloc, row.again(), calls)?;
    }
    Ok(last)
}

/// The answer to a call.
fn make_call<C: Calls>(alloc: Global, row: Row<'_>, calls: &mut C) -> Result<Answer, RowFault> {
    let mut row = row;
    let mut answer = Answer::new(alloc);
    calls.call(&mut row, &mut answer)?;
    row.end()?;
    Ok(answer)
}
