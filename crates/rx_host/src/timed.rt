//! A connection over TCP whose reads and writes fail once nobody has the patience for its silence.

ghost use Rattle.std.specs.Prelude.{◌≡◌, [], IfOk};
ghost use Rattle.std.specs.Io.{ReadsAtMost, WritesAtMost};

use crate::patience::{Patience, tick};
use crate::upkeep::is_upkeep;
use rx_streams::{read_some, write_some};
use std::io;
use std::io::{Error, ErrorKind};
use std::net::TcpStream;
use std::time::Duration;

/// How often a silence is borne at most, which is for some years.
const MOST_TICKS: u32 = 1_000_000_000;

/// How many bytes are looked at, at most.
const FRONT: usize = 512;

/// What is on a connection that nobody reads.
#[derive(Clone, Copy, Debug, PartialEq, Eq)]
pub(crate) enum Unread {
    /// Nothing, or what the next call reads in passing.
    Nothing,
    /// The farm sent something else.
    Bytes,
    /// The farm closed it, or it is broken.
    End,
}

/// A connection. The system ends each read and each write after a tick.
#[derive(Drop)]
pub(crate) struct TimedStream {
    stream: TcpStream,
}

impl TimedStream {
    /// What is sent leaves at once (no algorithm of Nagle, RFC 9293 3.7.4).
    pub(crate) fn new(stream: TcpStream) -> io::Result<TimedStream> {
        stream.set_nodelay(true)?;
        stream.set_read_timeout(Some(tick()))?;
        stream.set_write_timeout(Some(tick()))?;
        Ok(TimedStream { stream })
    }

    /// The connection.
    pub(crate) fn stream(&self) -> &TcpStream {
        &self.stream
    }

    /// Reads what came next.
    pub(crate) fn read(&mut self, patience: &impl Patience, into: &mut [u8]) -> io::Result<usize>
        ensures { ReadsAtMost result into.new }
    {
        read_patiently(&mut self.stream, patience, into)
    }

    /// Writes a front of the piece.
    pub(crate) fn write(&mut self, patience: &impl Patience, piece: &[u8]) -> io::Result<usize>
        ensures bound { WritesAtMost result piece.now }
        ensures some { IfOk result (λ count. count ≡ 0 → piece.now ≡ []) }
    {
        write_patiently(&mut self.stream, patience, piece)
    }

    /// What is there, without taking it.
    pub(crate) fn unread(&self) -> Unread {
        let mut front = [0; FRONT];
        if self.stream.set_nonblocking(true).is_err() {
            return Unread::End;
        }
        let seen = self.stream.peek(&mut front);
        if self.stream.set_nonblocking(false).is_err() {
            return Unread::End;
        }
        match seen {
            Ok(0) => Unread::End,
            Ok(count) if is_upkeep(front.get(..count).unwrap_or(&[])) => Unread::Nothing,
            Ok(_) => Unread::Bytes,
            Err(error) if is_silence(error.kind()) => Unread::Nothing,
            Err(_) => Unread::End,
        }
    }
}

fn read_patiently(
    stream: &mut TcpStream,
    patience: &impl Patience,
    into: &mut [u8],
) -> io::Result<usize>
    ensures { ReadsAtMost result into.new }
{
    let mut silence = Duration::ZERO;
    for _ in 0..MOST_TICKS {
        let Some(borne) = patience.bear(silence) else {
            break;
        };
        match read_some(stream, into) {
            Err(error) if is_silence(error.kind()) => silence = borne.saturating_add(tick()),
            answer => return answer,
        }
    }
    Err(Error::from(ErrorKind::TimedOut))
}

fn write_patiently(
    stream: &mut TcpStream,
    patience: &impl Patience,
    piece: &[u8],
) -> io::Result<usize>
    ensures bound { WritesAtMost result piece.now }
    ensures some { IfOk result (λ count. count ≡ 0 → piece.now ≡ []) }
{
    let mut silence = Duration::ZERO;
    for _ in 0..MOST_TICKS {
        let Some(borne) = patience.bear(silence) else {
            break;
        };
        match write_some(stream, piece) {
            Err(error) if is_silence(error.kind()) => silence = borne.saturating_add(tick()),
            answer => return answer,
        }
    }
    Err(Error::from(ErrorKind::TimedOut))
}

/// Whether a read or a write failed since its time was over, for which systems have two words.
fn is_silence(kind: ErrorKind) -> bool {
    kind == ErrorKind::TimedOut || kind == ErrorKind::WouldBlock
}
