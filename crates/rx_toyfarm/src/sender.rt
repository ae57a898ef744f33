//! What is sent to the client: frames in a queue, and how many bytes the client's windows let (RFC 9113 5.2).

ghost use Rattle.std.specs.Prelude.{IfOk};
ghost use Rattle.std.specs.List.{All};
ghost use Rattle.rx_hpack.specs.Encoder.{IsWritable};

use crate::farm_fault::Broken;
use rx_h2frame::{ACK, END_HEADERS, END_STREAM, FrameOut, Kind, write_frame};
use rx_hpack::{Encoder, Header};
use std::alloc::Global;
use std::mem::replace;

/// No frame that is sent has a larger payload: each client takes that much (RFC 9113 4.2).
const LARGEST_FRAME: usize = 16_384;

/// A window is at most so large (RFC 9113 6.9.1).
const LARGEST_WINDOW: i64 = 2_147_483_647;

/// The window of the connection and that of each stream, until the client says otherwise (RFC 9113 6.9.2).
const FIRST_WINDOW: i64 = 65_535;

/// The ids of streams, and the increments of windows, have 31 bits (RFC 9113 4.1, 6.9).
const STREAMS: u32 = 1 << 31;

/// The most bytes of a header's name or value.
const LARGEST_TEXT: usize = 65_536;

/// The frames that are to be sent, and the windows.
#[derive(Drop)]
pub(crate) struct Sender {
    alloc: Global,
    output: Vec<u8>,
    /// The window of the connection.
    window: i64,
    /// The window with which each stream begins.
    initial: i64,
}

/// A header field.
fn header(alloc: Global, name: &[u8], value: &[u8]) -> Result<Header, Broken>
    ensures { IfOk result IsWritable }
{
    if name.len() > LARGEST_TEXT || value.len() > LARGEST_TEXT {
        return Err(Broken::BadCall);
    }
    Ok(Header {
        name: Vec::from_slice(alloc, name)?,
        value: Vec::from_slice(alloc, value)?,
    })
}

/// A window that a client has widened.
fn widened(window: i64, by: u32) -> i64 {
    window.saturating_add(i64::from(by))
}

impl Sender {
    /// Nothing but the server's SETTINGS, which ask for nothing.
    pub(crate) fn new(alloc: Global) -> Result<Sender, Broken> {
        let mut sender = Sender {
            alloc,
            output: Vec::new(alloc),
            window: FIRST_WINDOW,
            initial: FIRST_WINDOW,
        };
        sender.put(Kind::Settings, 0, 0, &[])?;
        Ok(sender)
    }

    /// What is to be sent, which is taken out of the queue.
    pub(crate) fn take_output(&mut self) -> Vec<u8> {
        replace(&mut self.output, Vec::new(self.alloc))
    }

    /// Puts a frame into the queue.
    fn put(&mut self, kind: Kind, flags: u8, stream: u32, payload: &[u8]) -> Result<(), Broken> {
        if stream >= STREAMS || payload.len() > LARGEST_FRAME {
            return Err(Broken::BadCall);
        }
        let frame = FrameOut {
            kind,
            flags,
            stream,
            payload,
        };
        write_frame(&frame, &mut self.output)?;
        Ok(())
    }

    /// Acknowledges SETTINGS.
    pub(crate) fn acknowledge(&mut self) -> Result<(), Broken> {
        self.put(Kind::Settings, ACK, 0, &[])
    }

    /// Answers a PING.
    pub(crate) fn pong(&mut self, body: &[u8]) -> Result<(), Broken> {
        self.put(Kind::Ping, ACK, 0, body)
    }

    /// Lets the client send so many bytes more on a stream, or on the connection, which is 0.
    pub(crate) fn credit(&mut self, stream: u32, size: usize) -> Result<(), Broken> {
        let Ok(size) = u32::try_from(size) else {
            return Err(Broken::BadCall);
        };
        if size == 0 {
            return Ok(());
        }
        self.put(Kind::WindowUpdate, 0, stream, &size.to_be_bytes())
    }

    /// Puts headers into the queue, in one frame.
    fn put_headers(&mut self, stream: u32, flags: u8, headers: &[Header]) -> Result<(), Broken>
        requires { All IsWritable headers.now }
    {
        let block = Encoder::new().block(self.alloc, headers)?;
        self.put(Kind::Headers, flags, stream, &block)
    }

    /// Begins an answer.
    pub(crate) fn begin(&mut self, stream: u32) -> Result<(), Broken> {
        let mut headers = Vec::new(self.alloc);
        headers.push(header(self.alloc, b":status", b"200")?)?;
        headers.push(header(self.alloc, b"content-type", b"application/grpc")?)?;
        self.put_headers(stream, END_HEADERS, &headers)
    }

    /// Ends an answer with its status.
    pub(crate) fn end(&mut self, stream: u32, code: u32) -> Result<(), Broken> {
        let status = format!(in self.alloc; "{code}")?;
        let mut headers = Vec::new(self.alloc);
        headers.push(header(self.alloc, b"grpc-status", status.as_bytes())?)?;
        self.put_headers(stream, END_HEADERS + END_STREAM, &headers)
    }

    /// How many bytes may be sent at once on a stream whose window has changed by so much since it began.
    fn room(&self, change: i64) -> usize {
        let window = self.window.min(self.initial.saturating_add(change));
        match usize::try_from(window) {
            Ok(room) => room.min(LARGEST_FRAME),
            Err(_) => 0,
        }
    }

    /// So many bytes are sent on a stream.
    fn spend(&mut self, count: usize, change: &mut i64) {
        let count = i64::try_from(count).unwrap_or(i64::MAX);
        self.window = self.window.saturating_sub(count);
        *change = change.saturating_sub(count);
    }

    /// Puts as much of these bytes into the queue as the windows let, and answers how much that was.
    pub(crate) fn put_data(
        &mut self,
        stream: u32,
        change: &mut i64,
        bytes: &[u8],
    ) -> Result<usize, Broken> {
        let mut sent = 0usize;
        let mut left = bytes;
        while !left.is_empty() {
            let count = self.room(*change).min(left.len());
            if count == 0 {
                break;
            }
            let (piece, behind) = left.split_at(count);
            self.put(Kind::Data, 0, stream, piece)?;
            self.spend(count, change);
            sent = sent.saturating_add(count);
            left = behind;
        }
        Ok(sent)
    }

    /// The client sets the window with which streams begin; it shifts those of open ones too (RFC 9113 6.9.2).
    pub(crate) fn set_initial(&mut self, size: u32) -> Result<(), Broken> {
        if i64::from(size) > LARGEST_WINDOW {
            return Err(Broken::BadCall);
        }
        self.initial = i64::from(size);
        Ok(())
    }

    /// The client widens the window of the connection.
    pub(crate) fn widen(&mut self, by: u32) -> Result<(), Broken> {
        self.window = widened(self.window, by);
        if self.window > LARGEST_WINDOW {
            return Err(Broken::BadCall);
        }
        Ok(())
    }

    /// The client widens the window of a stream, which has changed by so much since it began.
    pub(crate) fn widen_stream(&self, change: &mut i64, by: u32) -> Result<(), Broken> {
        *change = widened(*change, by);
        if self.initial.saturating_add(*change) > LARGEST_WINDOW {
            return Err(Broken::BadCall);
        }
        Ok(())
    }
}
