//! Header blocks that come in, in one frame or several (RFC 9113 4.3, 6.2, 6.10).

ghost use Rattle.std.specs.Prelude.{◌≡◌, ◌+◌, None};
ghost use Rattle.rx_hpack.specs.Header.{views};
ghost use Rattle.rx_h2conn.specs.State.{DoesBy};
ghost use Rattle.rx_h2conn.specs.Headers.{told_headers, ended, on_headers, continued, on_continuation};
ghost use Rattle.rx_h2frame.specs.Seen.{frame_view};

use crate::event::{ConnEvent, Waiting};
use crate::fault::ConnFault;
use crate::machine::{COMPRESSION_ERROR, ENHANCE_YOUR_CALM, Machine, PROTOCOL_ERROR};
use crate::stream::Stream;
use rx_h2frame::{END_HEADERS, END_STREAM, Frame, is_set};
use rx_hpack::{Header, HpackFault};
use std::marker::Model;

/// A header block may have at most so many bytes.
const LARGEST_BLOCK: usize = 65_536;

/// A header block may go on in at most so many CONTINUATION frames.
const MOST_CONTINUATIONS: u32 = 1024;

/// The front of a header block.
#[derive(Drop)]
pub struct Sequence {
    pub stream: u32,
    /// Nothing follows on the stream.
    pub last: bool,
    pub block: Vec<u8>,
    /// The CONTINUATION frames so far.
    pub count: u32,
}

impl Model for Sequence {
    ghost use Rattle.rx_h2conn.specs.Session.{Block};

    ghost Value = { Block };

    ghost view = { λ s. record {
      stream = s.stream;
      last = s.last;
      block = s.block.items;
      count = s.count;
    } };
}

impl Machine {
    /// Tells a header list of a stream, unless what comes on it is dropped.
    #[tactic(auto, unfolding(crate::specs::Headers::told_headers))]
    fn tell_headers(&mut self, id: u32, list: Vec<Header>, last: bool) -> Result<(), ConnFault>
        requires none { self.old.fault ≡ None }
        ensures { DoesBy (λ s. told_headers s id (views list.items) last) self.old self.new result }
    {
        if !self.is_open(id) {
            return self.fail(PROTOCOL_ERROR);
        }
        let stream = self.stream_at(id);
        if stream.is_dropped() {
            return Ok(());
        }
        let event = ConnEvent::Headers {
            stream: id,
            list,
            last,
        };
        self.events.push_back(Waiting {
            event,
            stream: id,
            credit: 0,
        })?;
        let heard = Stream {
            server_done: stream.server_done || last,
            ..stream
        };
        self.set_stream(id, heard);
        Ok(())
    }

    /// Takes a whole header block: it is decoded before it is judged, since each block changes the decoder.
    #[tactic(auto, unfolding(crate::specs::Headers::ended))]
    fn end_block(&mut self, id: u32, block: &[u8], last: bool) -> Result<(), ConnFault>
        requires none { self.old.fault ≡ None }
        ensures { DoesBy (λ s. ended s id block.now last) self.old self.new result }
    {
        match self.decoder.block(self.alloc, block) {
            Ok(list) => self.tell_headers(id, list, last),
            Err(HpackFault::NoMemory) => Err(ConnFault::NoMemory),
            Err(HpackFault::ListTooLarge) => self.fail(ENHANCE_YOUR_CALM),
            Err(_) => self.fail(COMPRESSION_ERROR),
        }
    }

    /// HEADERS: a whole header block, or the front of one.
    #[tactic(auto, unfolding(crate::specs::Headers::on_headers))]
    pub fn on_headers(&mut self, f: &Frame) -> Result<(), ConnFault>
        requires none { self.old.fault ≡ None }
        ensures { DoesBy (λ s. on_headers s (frame_view f.now)) self.old self.new result }
    {
        if self.is_interrupted() {
            return self.fail(PROTOCOL_ERROR);
        }
        let last = is_set(f.flags, END_STREAM);
        if is_set(f.flags, END_HEADERS) {
            return self.end_block(f.stream, f.body, last);
        }
        if !self.is_open(f.stream) {
            return self.fail(PROTOCOL_ERROR);
        }
        let block = Vec::from_slice(self.alloc, f.body)?;
        self.sequence = Some(Sequence {
            stream: f.stream,
            last,
            block,
            count: 0,
        });
        Ok(())
    }

    /// The next part of a header block, unless it is another stream's, or too much.
    #[tactic(auto, unfolding(crate::specs::Headers::continued))]
    fn go_on(&mut self, sequence: Sequence, f: &Frame) -> Result<(), ConnFault>
        requires none { self.old.fault ≡ None }
        requires taken { self.old.sequence ≡ None }
        ensures { DoesBy (λ s. continued sequence s (frame_view f.now)) self.old self.new result }
    {
        let Sequence {
            stream,
            last,
            mut block,
            count,
        } = sequence;
        if stream != f.stream {
            return self.fail(PROTOCOL_ERROR);
        }
        if LARGEST_BLOCK < block.len() + f.body.len() || MOST_CONTINUATIONS <= count {
            return self.fail(ENHANCE_YOUR_CALM);
        }
        block.extend_from_slice(f.body)?;
        if is_set(f.flags, END_HEADERS) {
            return self.end_block(stream, &block, last);
        }
        self.sequence = Some(Sequence {
            stream,
            last,
            block,
            count: count + 1,
        });
        Ok(())
    }

    /// CONTINUATION: the next part of a header block.
    #[tactic(auto, unfolding(crate::specs::Headers::on_continuation))]
    pub fn on_continuation(&mut self, f: &Frame) -> Result<(), ConnFault>
        requires none { self.old.fault ≡ None }
        ensures { DoesBy (λ s. on_continuation s (frame_view f.now)) self.old self.new result }
    {
        match self.sequence.take() {
            Some(sequence) => self.go_on(sequence, f),
            None => self.fail(PROTOCOL_ERROR),
        }
    }
}
