//! What is sent: bytes and resets of streams, and the credit that is due.
//!
//! A byte that is sent is copied once, into the queue.

ghost use Rattle.std.specs.Prelude.{◌≡◌, ℕ, List, true, None, ◌&&◌, ◌||◌, ◌==◌, ◌+◌, ◌*◌, ◌<◌, ◌≤◌, ◌^◌, ◌++◌, length, OnOk, OnErr, IfOk};
ghost use Rattle.rx_h2frame.specs.Write.{four, out_bytes};
ghost use Rattle.rx_h2conn.specs.Emitted.{bytes_of};
ghost use Rattle.rx_h2conn.specs.Output.{framed, end_stream, allowed, ends, charged, send_frames, credit_frames, stream_credits, output, emptied, sent, reset, reset_frame, Sends, Resets};
ghost use Rattle.rx_h2conn.specs.State.{state_of};
ghost use Rattle.rx_h2conn.specs.Streams.{is_open, stream_at};
ghost use Rattle.rx_h2conn.specs.Window.{room};
ghost use Rattle.rx_h2conn.specs.Sound.{IsWithin};

use crate::fault::ConnFault;
use crate::machine::Machine;
use crate::stream::Stream;
use crate::streams::Streams;
use rx_h2frame::{END_STREAM, FrameOut, Kind, write_frame};
use std::alloc::AllocError;
use std::mem;

/// No frame that is sent has a larger payload: the server takes that much whatever its settings (RFC 9113 4.2).
const LARGEST_FRAME: usize = 16_384;

/// How bytes are put into frames.
#[derive(Clone, Copy)]
pub struct Framing {
    pub first: Kind,
    /// The kind of all frames but the first.
    pub later: Kind,
    /// The flags of the first.
    pub flags: u8,
    /// The flags that the last one has besides.
    pub ending: u8,
    pub stream: u32,
}

/// Writes the bytes in frames, of which a front is left where memory runs out.
fn write_frames(framing: Framing, bytes: &[u8], out: &mut Vec<u8>) -> Result<(), AllocError>
    requires stream { framing.stream < 2 ^ 31 }
    requires flags { framing.flags + framing.ending < 256 }
    ensures ok { OnOk result
        (out.new.items ≡ out.old.items ++ bytes_of (framed framing bytes.now)) }
    ensures front { (more : List ℕ) × (out.new.items ≡ out.old.items ++ more) }
{
    let mut kind = framing.first;
    let mut flags = framing.flags;
    let mut left = bytes;
    while LARGEST_FRAME < left.len() {
        let (front, back) = left.split_at(LARGEST_FRAME);
        let frame = FrameOut {
            kind,
            flags,
            stream: framing.stream,
            payload: front,
        };
        write_frame(&frame, out)?;
        kind = framing.later;
        flags = 0;
        left = back;
    }
    let frame = FrameOut {
        kind,
        flags: flags + framing.ending,
        stream: framing.stream,
        payload: left,
    };
    write_frame(&frame, out)?;
    Ok(())
}

/// Writes the bytes in frames, or nothing.
pub fn put_frames(framing: Framing, bytes: &[u8], out: &mut Vec<u8>) -> Result<(), AllocError>
    requires stream { framing.stream < 2 ^ 31 }
    requires flags { framing.flags + framing.ending < 256 }
    ensures ok { OnOk result
        (out.new.items ≡ out.old.items ++ bytes_of (framed framing bytes.now)) }
    ensures err { OnErr result (out.new.items ≡ out.old.items) }
{
    let kept = out.len();
    if write_frames(framing, bytes, out).is_err() {
        out.truncate(kept);
        return Err(AllocError);
    }
    Ok(())
}

/// A number of 32 bits, the highest byte first.
fn four(number: u32) -> [u8; 4]
    ensures { result ≡ four number }
{
    [
        (number / 16777216) as u8,
        (number / 65536 % 256) as u8,
        (number / 256 % 256) as u8,
        (number % 256) as u8,
    ]
}

/// The flags of a frame that is a stream's last, or isn't.
pub fn end_stream(last: bool) -> u8
    ensures { result ≡ end_stream last }
{
    if last { END_STREAM } else { 0 }
}

/// Writes a WINDOW_UPDATE (RFC 9113 6.9), where there is any credit.
fn write_credit(id: u32, size: u32, out: &mut Vec<u8>) -> Result<(), AllocError>
    requires { id < 2 ^ 31 }
    ensures ok { OnOk result (out.new.items ≡ out.old.items ++ bytes_of (credit_frames id size)) }
    ensures err { OnErr result (out.new.items ≡ out.old.items) }
{
    if size == 0 {
        return Ok(());
    }
    let frame = FrameOut {
        kind: Kind::WindowUpdate,
        flags: 0,
        stream: id,
        payload: &four(size),
    };
    write_frame(&frame, out)
}

/// Writes a RST_STREAM (RFC 9113 6.4).
fn put_reset(id: u32, code: u32, out: &mut Vec<u8>) -> Result<(), AllocError>
    requires { id < 2 ^ 31 }
    ensures ok { OnOk result (out.new.items ≡ out.old.items ++ out_bytes (reset_frame id code)) }
    ensures err { OnErr result (out.new.items ≡ out.old.items) }
{
    let frame = FrameOut {
        kind: Kind::ResetStream,
        flags: 0,
        stream: id,
        payload: &four(code),
    };
    write_frame(&frame, out)
}

/// Writes the credit of streams behind so many others.
fn write_credits(before: usize, streams: &[Stream], out: &mut Vec<u8>) -> Result<(), AllocError>
    requires { before + length streams.now ≤ 1073741824 }
    ensures ok { OnOk result (out.new.items
        ≡ out.old.items ++ bytes_of (stream_credits (before * 2 + 1) streams.now)) }
    ensures front { (more : List ℕ) × (out.new.items ≡ out.old.items ++ more) }
{
    let mut id = before as u32 * 2 + 1;
    for stream in streams {
        write_credit(id, stream.due(), out)?;
        id += 2;
    }
    Ok(())
}

/// Writes all credit that is due, or nothing.
fn put_credits(due: u32, streams: &Streams, out: &mut Vec<u8>) -> Result<(), AllocError>
    requires { length streams.now ≤ 1073741824 }
    ensures ok { OnOk result (out.new.items
        ≡ out.old.items ++ bytes_of (credit_frames 0 due ++ stream_credits 1 streams.now)) }
    ensures err { OnErr result (out.new.items ≡ out.old.items) }
{
    let kept = out.len();
    let (before, behind) = streams.due();
    write_credit(0, due, out)?;
    if write_credits(before, behind, out).is_err() {
        out.truncate(kept);
        return Err(AllocError);
    }
    Ok(())
}

impl Machine {
    /// Gives all that is to be sent, with the credit that is due, or changes nothing.
    pub fn take_output(&mut self) -> Result<Vec<u8>, AllocError>
        requires within { IsWithin (state_of self.old) }
        ensures ok { IfOk result (λ bytes. bytes.items ≡ output (state_of self.old)) }
        ensures after { OnOk result (state_of self.new ≡ emptied (state_of self.old)) }
        ensures err { OnErr result (state_of self.new ≡ state_of self.old) }
    {
        let due = self.due();
        put_credits(due, &self.streams, &mut self.queued)?;
        self.receive += due;
        self.owed -= due;
        self.acks = 0;
        self.streams.tell();
        let empty = Vec::new(self.alloc);
        Ok(mem::replace(&mut self.queued, empty))
    }

    /// How many of so many bytes both windows allow.
    fn allowed(&self, id: u32, size: usize) -> u32
        requires { is_open (state_of self.now) id ≡ true }
        ensures is { result ≡ allowed (state_of self.now) id size }
        ensures few { result ≤ self.now.send }
        ensures room { result ≤ room self.now.initial (stream_at (state_of self.now) id).send }
    {
        let room = self.stream_at(id).send.room(self.initial);
        (size as u64).min((self.send as u64).min(room)) as u32
    }

    /// Whether the stream ends with these bytes, which it does once all of them are taken.
    fn ends(&self, id: u32, size: usize, last: bool) -> bool
        requires { is_open (state_of self.now) id ≡ true }
        ensures { result ≡ ends (state_of self.now) id size last }
    {
        last && self.allowed(id, size) as usize == size
    }

    /// How many bytes both windows are charged with: none for a stream that the server has reset.
    fn charged(&self, id: u32, size: usize) -> u32
        requires { is_open (state_of self.now) id ≡ true }
        ensures is { result ≡ charged (state_of self.now) id size }
        ensures few { result ≤ self.now.send }
        ensures room { result ≤ room self.now.initial (stream_at (state_of self.now) id).send }
    {
        if self.stream_at(id).server_reset {
            0
        } else {
            self.allowed(id, size)
        }
    }

    /// Queues what is sent of the piece, or nothing.
    fn put_data(&mut self, id: u32, piece: &[u8], last: bool) -> Result<(), AllocError>
        requires open { is_open (state_of self.old) id ≡ true }
        requires id { id < 2 ^ 31 }
        ensures ok { OnOk result (state_of self.new ≡ record (state_of self.old) {
          queued = self.old.queued.items
              ++ bytes_of (send_frames (state_of self.old) id piece.now last);
        }) }
        ensures err { OnErr result (state_of self.new ≡ state_of self.old) }
    {
        let count = self.allowed(id, piece.len());
        let ends = self.ends(id, piece.len(), last);
        if self.stream_at(id).server_reset || count == 0 && !ends {
            return Ok(());
        }
        let (front, _) = piece.split_at(count as usize);
        let framing = Framing {
            first: Kind::Data,
            later: Kind::Data,
            flags: 0,
            ending: end_stream(ends),
            stream: id,
        };
        put_frames(framing, front, &mut self.queued)
    }

    /// Takes as many bytes as both windows allow, or changes nothing.
    #[tactic(auto, unfolding(crate::specs::Output::sent))]
    fn send_piece(&mut self, id: u32, piece: &[u8], last: bool) -> Result<usize, AllocError>
        requires open { is_open (state_of self.old) id ≡ true }
        requires id { id < 2 ^ 31 }
        ensures ok { OnOk result (state_of self.new ≡ sent (state_of self.old) id piece.now last) }
        ensures count { IfOk result (λ n. n ≡ allowed (state_of self.old) id (length piece.now)) }
        ensures err { OnErr result (state_of self.new ≡ state_of self.old) }
    {
        let count = self.allowed(id, piece.len());
        let ends = self.ends(id, piece.len(), last);
        let charged = self.charged(id, piece.len());
        self.put_data(id, piece, last)?;
        let stream = self.stream_at(id);
        let sending = Stream {
            send: stream.send.spent(self.initial, charged),
            client_done: stream.client_done || ends,
            ..stream
        };
        self.set_stream(id, sending);
        self.send -= charged;
        Ok(count as usize)
    }

    /// Takes as many bytes as both windows allow.
    pub fn send(&mut self, id: u32, piece: &[u8], last: bool) -> Result<usize, ConnFault>
        requires open { self.old.fault ≡ None → is_open (state_of self.old) id ≡ true }
        requires id { self.old.fault ≡ None → id < 2 ^ 31 }
        ensures { Sends (state_of self.old) id piece.now last (state_of self.new) result }
    {
        if let Some(fault) = self.fault {
            return Err(fault);
        }
        match self.send_piece(id, piece, last) {
            Ok(count) => Ok(count),
            Err(_) => Err(ConnFault::NoMemory),
        }
    }

    /// Gives a stream up (RFC 9113 6.4), or changes nothing. It is owed no credit from then on (RFC 9113 5.1).
    #[tactic(auto, unfolding(crate::specs::Output::reset))]
    fn give_up(&mut self, id: u32, code: u32) -> Result<(), AllocError>
        requires open { is_open (state_of self.old) id ≡ true }
        requires id { id < 2 ^ 31 }
        ensures ok { OnOk result (state_of self.new ≡ reset (state_of self.old) id code) }
        ensures err { OnErr result (state_of self.new ≡ state_of self.old) }
    {
        put_reset(id, code, &mut self.queued)?;
        let given_up = Stream {
            client_reset: true,
            owed: 0,
            ..self.stream_at(id)
        };
        self.set_stream(id, given_up);
        Ok(())
    }

    /// Gives a stream up.
    pub fn reset(&mut self, id: u32, code: u32) -> Result<(), ConnFault>
        requires open { self.old.fault ≡ None → is_open (state_of self.old) id ≡ true }
        requires id { self.old.fault ≡ None → id < 2 ^ 31 }
        ensures { Resets (state_of self.old) id code (state_of self.new) result }
    {
        if let Some(fault) = self.fault {
            return Err(fault);
        }
        match self.give_up(id, code) {
            Ok(()) => Ok(()),
            Err(_) => Err(ConnFault::NoMemory),
        }
    }
}
