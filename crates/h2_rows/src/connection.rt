//! Rows of a connection: `conn new`, and then a call of `Conn` each.

use crate::frames::{number_32, read_frame};
use crate::headers::{read_headers, write_headers};
use crate::session::Session;
use rx_h2conn::{ConnEvent, ConnFault};
use rx_rows::{Answer, Row, RowFault};
use std::alloc::{AllocError, Global};

/// The connection of the rows since the last `conn new`.
#[derive(Drop)]
pub(crate) struct Connection {
    alloc: Global,
    session: Session,
}

/// Reads whether this side of the stream ends.
fn read_last(row: &mut Row<'_>) -> Result<bool, RowFault> {
    match row.word()? {
        "last" => Ok(true),
        "more" => Ok(false),
        _ => Err(RowFault::BadCall),
    }
}

/// Writes `last` or `more`.
fn write_last(last: bool, answer: &mut Answer) -> Result<(), AllocError> {
    answer.word(if last { "last" } else { "more" })
}

/// Writes `ok`, or why a call is refused.
fn write_done(done: Result<(), ConnFault>, answer: &mut Answer) -> Result<(), AllocError> {
    match done {
        Ok(()) => answer.word("ok"),
        Err(fault) => answer.value(&fault),
    }
}

impl Connection {
    pub(crate) fn new(alloc: Global) -> Result<Connection, AllocError> {
        Ok(Connection {
            alloc,
            session: Session::new(alloc)?,
        })
    }

    pub(crate) fn call(&mut self, row: &mut Row<'_>, answer: &mut Answer) -> Result<(), RowFault> {
        match row.word()? {
            "new" => {
                self.session = Session::new(self.alloc)?;
                Ok(answer.word("ok")?)
            }
            "open" => self.open(row, answer),
            "send" => self.send(row, answer),
            "reset" => self.reset(row, answer),
            "feed" => self.feed(row, answer),
            "frame" => self.frame(row, answer),
            "next" => self.next(answer),
            "output" => Ok(answer.bytes(&self.session.take_output()?)?),
            "written" => Ok(answer.number(self.session.take_output()?.len() as u64)?),
            _ => Err(RowFault::NoCall),
        }
    }

    /// `open last|more HEADER ..`: the stream's number.
    fn open(&mut self, row: &mut Row<'_>, answer: &mut Answer) -> Result<(), RowFault> {
        let last = read_last(row)?;
        let headers = read_headers(self.alloc, row)?;
        match self.session.open(&headers, last) {
            Ok(id) => answer.number(id as u64)?,
            Err(fault) => answer.value(&fault)?,
        }
        Ok(())
    }

    /// `send STREAM last|more BYTES`: how many bytes were taken.
    fn send(&mut self, row: &mut Row<'_>, answer: &mut Answer) -> Result<(), RowFault> {
        let id = number_32(row)?;
        let last = read_last(row)?;
        let piece = row.bytes(self.alloc)?;
        match self.session.send(id, &piece, last)? {
            Ok(count) => answer.number(count as u64)?,
            Err(fault) => answer.value(&fault)?,
        }
        Ok(())
    }

    /// `reset STREAM CODE`.
    fn reset(&mut self, row: &mut Row<'_>, answer: &mut Answer) -> Result<(), RowFault> {
        let id = number_32(row)?;
        let code = number_32(row)?;
        Ok(write_done(self.session.reset(id, code)?, answer)?)
    }

    /// `feed BYTES`, in one piece.
    fn feed(&mut self, row: &mut Row<'_>, answer: &mut Answer) -> Result<(), RowFault> {
        let piece = row.bytes(self.alloc)?;
        Ok(write_done(self.session.feed(&piece), answer)?)
    }

    /// `frame KIND FLAGS STREAM BYTES`, in one piece.
    fn frame(&mut self, row: &mut Row<'_>, answer: &mut Answer) -> Result<(), RowFault> {
        let piece = read_frame(self.alloc, row)?;
        Ok(write_done(self.session.feed(&piece), answer)?)
    }

    /// `next`: the event that is handed out, or `none`.
    fn next(&mut self, answer: &mut Answer) -> Result<(), RowFault> {
        match self.session.next_event() {
            Some(event) => self.write_event(&event, answer)?,
            None => answer.word("none")?,
        }
        Ok(())
    }

    fn write_event(&self, event: &ConnEvent, answer: &mut Answer) -> Result<(), AllocError> {
        match event {
            ConnEvent::Headers { stream, list, last } => {
                answer.word("Headers")?;
                answer.number(*stream as u64)?;
                write_last(*last, answer)?;
                write_headers(self.alloc, list, answer)
            }
            ConnEvent::Bytes {
                stream,
                bytes,
                last,
            } => {
                answer.word("Bytes")?;
                answer.number(*stream as u64)?;
                write_last(*last, answer)?;
                answer.bytes(bytes)
            }
            ConnEvent::Reset { stream, code } => {
                answer.word("Reset")?;
                answer.number(*stream as u64)?;
                answer.number(*code as u64)
            }
            ConnEvent::Gone { last } => {
                answer.word("Gone")?;
                answer.number(*last as u64)
            }
        }
    }
}
