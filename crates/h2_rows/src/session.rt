//! A connection with the stream that was opened last. `send` and `reset` may only be called on a stream that is held, so the
//! number is kept beside the connection; after a refusal none is.

ghost use Rattle.std.specs.List.{All};
ghost use Rattle.rx_hpack.specs.Encoder.{IsWritable};

use rx_h2conn::{Conn, ConnEvent, ConnFault};
use rx_hpack::Header;
use rx_rows::RowFault;
use std::alloc::{AllocError, Global};
use std::marker::Model;

/// A stream that the connection holds.
#[derive(Clone, Copy)]
pub(crate) struct Held {
    pub(crate) id: u32,
    /// This side of it has ended.
    pub(crate) ended: bool,
}

/// A connection, and the stream that was opened last.
#[derive(Drop)]
pub(crate) struct Session {
    conn: Conn,
    held: Option<Held>,
}

impl Model for Session {
    ghost use Rattle.rx_h2conn.specs.Session.{Reading};
    ghost use Rattle.h2_rows.specs.Held.{IsHeldBy};

    ghost Value = { Reading };

    ghost view = { λ s. s.conn };

    ghost invariant = { λ s. IsHeldBy s.conn.state s.held };
}

impl Session {
    pub(crate) fn new(alloc: Global) -> Result<Session, AllocError> {
        Ok(Session {
            conn: Conn::new(alloc)?,
            held: None,
        })
    }

    pub(crate) fn open(&mut self, headers: &[Header], last: bool) -> Result<u32, ConnFault>
        requires { All IsWritable headers.now }
    {
        self.held = None;
        let id = self.conn.open_stream(headers, last)?;
        self.held = Some(Held { id, ended: last });
        Ok(id)
    }

    /// `BadCall` where the stream isn't held, or has ended.
    pub(crate) fn send(
        &mut self,
        id: u32,
        piece: &[u8],
        last: bool,
    ) -> Result<Result<usize, ConnFault>, RowFault> {
        let Some(
            Held {
                id: held,
                ended: false,
            },
        ) = self.held
        else {
            return Err(RowFault::BadCall);
        };
        if held != id {
            return Err(RowFault::BadCall);
        }
        self.held = None;
        let taken = self.conn.send(id, piece, last);
        if let Ok(count) = taken {
            self.held = Some(Held {
                id,
                ended: last && count == piece.len(),
            });
        }
        Ok(taken)
    }

    /// `BadCall` where the stream isn't held.
    pub(crate) fn reset(&mut self, id: u32, code: u32) -> Result<Result<(), ConnFault>, RowFault> {
        let Some(Held { id: held, .. }) = self.held else {
            return Err(RowFault::BadCall);
        };
        if held != id {
            return Err(RowFault::BadCall);
        }
        self.held = None;
        Ok(self.conn.reset(id, code))
    }

    pub(crate) fn feed(&mut self, piece: &[u8]) -> Result<(), ConnFault> {
        let held = self.held;
        self.held = None;
        self.conn.feed(piece)?;
        self.held = held;
        Ok(())
    }

    pub(crate) fn next_event(&mut self) -> Option<ConnEvent> {
        let held = self.held;
        self.held = None;
        let event = self.conn.next_event();
        self.held = held;
        event
    }

    pub(crate) fn take_output(&mut self) -> Result<Vec<u8>, AllocError> {
        let held = self.held;
        self.held = None;
        let output = self.conn.take_output();
        self.held = held;
        output
    }
}
