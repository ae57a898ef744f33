//! A connection as its user sees it.

ghost use Rattle.std.specs.Prelude.{◌≡◌, ◌+◌, ◌≤◌, ◌++◌, ◌∷◌, [], ◌&&◌, ◌==◌, true, false, List, ℕ, length, None, IfOk, OnOk, OnErr};
ghost use Rattle.std.specs.List.{All};
ghost use Rattle.rx_hpack.specs.Header.{views};
ghost use Rattle.rx_hpack.specs.Encoder.{IsWritable};
ghost use Rattle.rx_h2conn.specs.Conn.{started};
ghost use Rattle.rx_h2conn.specs.Emitted.{bytes_of};
ghost use Rattle.rx_h2conn.specs.Event.{Hands};
ghost use Rattle.rx_h2conn.specs.History.{Call, run, bytewise, SameRuns, all_given, emitted, all_emitted};
ghost use Rattle.rx_h2conn.specs.Open.{Opens};
ghost use Rattle.rx_h2conn.specs.Output.{Sends, Resets, output, emptied};
ghost use Rattle.rx_h2conn.specs.Parts.{part_of, all_parts};
ghost use Rattle.rx_h2conn.specs.Blocks.{WritesEachBlock};
ghost use Rattle.rx_h2conn.specs.Carried.{bytes_on, all_written, bytes_in};
ghost use Rattle.rx_h2conn.specs.Granted.{all_granted, window_left, AllSendHeld};
ghost use Rattle.rx_h2conn.specs.Heard.{Hears};
ghost use Rattle.rx_h2conn.specs.Paced.{Restores, FitsNext};
ghost use Rattle.rx_h2conn.specs.State.{UnlessStarved};
ghost use Rattle.rx_h2conn.specs.Steps.{Feeds, first, after_event};
ghost use Rattle.rx_h2conn.specs.Streams.{is_open, stream_at, IsHeld, KeepsHeld};

use crate::credit::WINDOW;
use crate::event::ConnEvent;
use crate::fault::ConnFault;
use crate::machine::Machine;
use crate::reader::Reader;
use crate::settings::SizeUpdate;
use crate::streams::Streams;
use rx_h2frame::{FrameOut, HEADER_SIZE, Kind, write_frame};
use rx_hpack::{Decoder, Header};
use std::alloc::{AllocError, Global};
use std::collections::VecDeque;
use std::marker::Model;

/// What a client sends first (RFC 9113 3.4).
const PREFACE: &[u8; 24] = b"PRI * HTTP/2.0\r\n\r\nSM\r\n\r\n";

/// SETTINGS_ENABLE_PUSH 0, SETTINGS_INITIAL_WINDOW_SIZE 1,048,576 and SETTINGS_MAX_HEADER_LIST_SIZE 65,536
/// (RFC 9113 6.5.2).
const FIRST_SETTINGS: &[u8; 18] = b"\0\x02\0\0\0\0\0\x04\0\x10\0\0\0\x06\0\x01\0\0";

/// The windows of the connection at first, and of streams until the server says otherwise (RFC 9113 6.9.2).
const FIRST_WINDOW: u32 = 65_535;

/// The client's side of a connection.
///
/// The user feeds what the server sent, in any pieces, takes the events and what is to be sent, and does the reading and
/// writing itself. After a fault of the server, or where memory ran out in `feed`, the calls that answer a [`ConnFault`]
/// answer that one for good; the events from before can still be handed out and the output taken.
#[derive(Drop)]
pub struct Conn {
    reader: Reader,
}

impl Model for Conn {
    ghost use Rattle.rx_h2conn.specs.Session.{Reading};

    ghost Value = { Reading };

    ghost use Rattle.rx_h2conn.specs.Reader.{reading_of, IsConn};

    ghost view = { λ c. reading_of c.reader };

    ghost invariant = { λ c. IsConn (reading_of c.reader) c.reader.lacking };
}

/// The preface and the settings.
fn first_output(alloc: Global) -> Result<Vec<u8>, AllocError>
    ensures { IfOk result (λ bytes. bytes.items ≡ started.state.queued) }
{
    let mut out = Vec::new(alloc);
    out.extend_from_slice(PREFACE)?;
    let settings = FrameOut {
        kind: Kind::Settings,
        flags: 0,
        stream: 0,
        payload: FIRST_SETTINGS,
    };
    write_frame(&settings, &mut out)?;
    Ok(out)
}

/// A connection with its first output.
fn start(alloc: Global) -> Result<Conn, AllocError>
    ensures { IfOk result (λ conn. conn ≡ started) }
{
    let queued = first_output(alloc)?;
    let machine = Machine {
        alloc,
        fault: None,
        streams: Streams::new(alloc),
        send: FIRST_WINDOW,
        initial: FIRST_WINDOW,
        receive: FIRST_WINDOW,
        owed: WINDOW - FIRST_WINDOW,
        acks: 0,
        gone: None,
        size_update: SizeUpdate::NotAsked,
        decoder: Decoder::new(alloc),
        sequence: None,
        events: VecDeque::new(alloc),
        queued,
    };
    let reader = Reader {
        machine,
        rest: Vec::new(alloc),
        lacking: HEADER_SIZE,
    };
    Ok(Conn { reader })
}

impl Conn {
    /// A connection that has queued the preface and its settings.
    pub fn new(alloc: Global) -> Result<Conn, AllocError>
        ensures is { IfOk result (λ conn. conn ≡ started) }

        // However the received bytes are cut, with each other call at the same place of them, the answers are the same.
        ensures any_cutting { IfOk result (λ conn. (a b : List Call) →
            bytewise a ≡ bytewise b → SameRuns conn a b) }

        // What was given out, with what is still queued, is what was queued first and the frames of the calls.
        ensures output { IfOk result (λ conn. (calls : List Call) →
            all_given conn calls ++ (run conn calls).state.queued
            ≡ conn.state.queued ++ bytes_of (all_emitted conn calls)) }

        // Of these, the frames of a stream are its headers, then what `send` took with the end, and its reset.
        ensures streams { IfOk result (λ conn. (id : ℕ) (calls : List Call) →
            part_of id (all_emitted conn calls) ≡ all_parts conn id calls) }

        // The header block of a stream is that of the call that opened it, whatever calls stand before and after.
        ensures blocks { IfOk result WritesEachBlock }

        // The bytes of a stream are those that `send` took and wrote, in their order.
        ensures bytes { IfOk result (λ conn. (id : ℕ) (calls : List Call) →
            bytes_on id (all_emitted conn calls) ≡ all_written conn id calls) }

        // Those of all streams never pass the window of the connection: what it is at first, and what the server allowed more.
        ensures window { IfOk result (λ conn. (calls : List Call) →
            length (bytes_in (all_emitted conn calls))
            ≤ conn.state.send + all_granted conn 0 calls) }

        // What a call writes of a stream never passes what the stream's own window then lets through, in each run whose
        // calls of `send` are on streams that are held.
        ensures stream_window { IfOk result (λ conn. (id : ℕ) (calls : List Call) (last : Call) →
            AllSendHeld conn (calls ++ last ∷ []) →
            length (bytes_on id (emitted (run conn calls) last)) ≤ window_left conn id calls) }

        // What is told of a stream that the client holds is its part of the received bytes, whatever calls stand between.
        ensures heard { IfOk result (λ conn. (calls : List Call) → Hears conn calls) }

        // Once no event waits and the output was taken, all credit was told but less than a quarter of a window, and no
        // acknowledgement waits.
        ensures restores { IfOk result (λ conn. (calls : List Call) → Restores conn calls) }

        // Then a piece of at most 8,192 bytes passes no window, and asks for few acknowledgements.
        ensures fits { IfOk result (λ conn. (calls : List Call) → FitsNext conn calls) }
    {
        start(alloc)
    }

    /// Opens a stream by a header list, and ends this side of it where `last` says that nothing follows.
    ///
    /// Errors: the connection's fault; `GoneAway` once the server sent GOAWAY; `StreamsSpent` once the stream 2^31 - 1
    /// was opened; `NoMemory`, and then nothing has changed.
    pub fn open_stream(&mut self, headers: &[Header], last: bool) -> Result<u32, ConnFault>
        requires { All IsWritable headers.now }
        ensures answers { Opens self.old.state (views headers.now) last self.new.state result }
        ensures rest { self.new.rest ≡ self.old.rest }
        ensures held { IfOk result (λ id. IsHeld self.new.state id last) }
    {
        self.reader.open_stream(headers, last)
    }

    /// Takes as many bytes of the piece as the windows of the connection and of the stream allow, and tells how many; the
    /// end of this side of the stream, where `last` asks for it, once all of them are taken. Bytes for a stream that the
    /// server has reset are taken and not sent.
    ///
    /// Errors: the connection's fault; `NoMemory`, and then nothing has changed.
    pub fn send(&mut self, stream: u32, piece: &[u8], last: bool) -> Result<usize, ConnFault>
        requires { self.old.state.fault ≡ None → IsHeld self.old.state stream false }
        ensures answers { Sends self.old.state stream piece.now last self.new.state result }
        ensures rest { self.new.rest ≡ self.old.rest }
        ensures held { IfOk result (λ n.
            IsHeld self.new.state stream (last && (n == length piece.now))) }
    {
        self.reader.send(stream, piece, last)
    }

    /// Gives a stream up by an error code of RFC 9113 7: what the server still sends on it is dropped, and the events that
    /// wait are still handed out.
    ///
    /// Errors: the connection's fault; `NoMemory`, and then nothing has changed.
    pub fn reset(&mut self, stream: u32, code: u32) -> Result<(), ConnFault>
        requires opened { self.old.state.fault ≡ None → is_open self.old.state stream ≡ true }
        requires kept { self.old.state.fault ≡ None →
            (stream_at self.old.state stream).client_reset ≡ false }
        ensures answers { Resets self.old.state stream code self.new.state result }
        ensures rest { self.new.rest ≡ self.old.rest }
    {
        self.reader.reset(stream, code)
    }

    /// Takes the bytes that the server sent next, in whatever piece they came. A byte of DATA is copied twice.
    ///
    /// Of bytes of streams no more than 16,777,216 wait as events, since the credit for them is owed once they are handed out.
    /// Header lists and GOAWAY have no window, and no number of them is refused: any number of interim answers may come, and
    /// a list may count 65,536 bytes where its block has few. So a user takes all events before it feeds more, and then
    /// keeps of these no more than one piece brings.
    ///
    /// Errors: `Protocol` with the code of the rule that the server broke, where several are broken by one frame the first
    /// of 6, 3, 9, 11 and 1; `NoMemory`, and then none of the piece counts.
    pub fn feed(&mut self, piece: &[u8]) -> Result<(), ConnFault>
        ensures feeds { Feeds self.old piece.now self.new result }
        ensures held { UnlessStarved result (KeepsHeld self.old.state self.new.state) }
    {
        self.reader.feed(piece)
    }

    /// Hands out the next event. It takes no memory.
    pub fn next_event(&mut self) -> Option<ConnEvent>
        ensures event { Hands (first self.old.state.events) result }
        ensures after { self.new ≡ after_event self.old }
        ensures held { KeepsHeld self.old.state self.new.state }
    {
        self.reader.next_event()
    }

    /// All that is to be sent: what was queued, and the credit that is due, in one WINDOW_UPDATE for the connection and
    /// one for each stream. That is due which makes a window one of 16,777,216 bytes: the connection's with the first
    /// stream, and each stream's as it is opened; then what was used of it, once that is a quarter. Where there is no
    /// memory nothing changes.
    pub fn take_output(&mut self) -> Result<Vec<u8>, AllocError>
        ensures ok { IfOk result (λ bytes. bytes.items ≡ output self.old.state) }
        ensures after { OnOk result (self.new.state ≡ emptied self.old.state) }
        ensures err { OnErr result (self.new.state ≡ self.old.state) }
        ensures rest { self.new.rest ≡ self.old.rest }
        ensures held { KeepsHeld self.old.state self.new.state }
    {
        self.reader.take_output()
    }
}
