//! Streams that the client opens (RFC 9113 5.1.1, 8.1).

ghost use Rattle.std.specs.Prelude.{◌≡◌, ◌<◌, length, IfOk, OnOk, OnErr};
ghost use Rattle.std.specs.List.{All};
ghost use Rattle.rx_hpack.specs.Header.{views};
ghost use Rattle.rx_hpack.specs.Encoder.{IsWritable};
ghost use Rattle.rx_h2conn.specs.Open.{refusal, header_block, told_update, next_id, opened, Opens};
ghost use Rattle.rx_h2conn.specs.State.{state_of};

use crate::fault::ConnFault;
use crate::machine::Machine;
use crate::output::{Framing, end_stream, put_frames};
use crate::settings::SizeUpdate;
use crate::stream::{OPENED, Stream};
use rx_h2frame::{END_HEADERS, Kind};
use rx_hpack::{Encoder, Header};
use std::alloc::AllocError;

/// The client has so many numbers: the odd ones below 2^31 (RFC 9113 5.1.1).
const MOST_STREAMS: usize = 1_073_741_824;

/// A dynamic table of no bytes (RFC 7541 6.3): what is sent uses none, whatever the server allows.
const EMPTY_TABLE: u8 = 0x20;

impl SizeUpdate {
    /// What is due after a header block was sent.
    fn told(self) -> SizeUpdate
        ensures { result ≡ told_update self }
    {
        match self {
            SizeUpdate::Due => SizeUpdate::Told,
            other => other,
        }
    }
}

impl Machine {
    /// Why no stream can be opened: the fault, else that the server went away, else that no number is left.
    fn refusal(&self) -> Option<ConnFault>
        ensures { result ≡ refusal (state_of self.now) }
    {
        if let Some(fault) = self.fault {
            return Some(fault);
        }
        if let Some(last) = self.gone {
            return Some(ConnFault::GoneAway(last));
        }
        if MOST_STREAMS <= self.streams.len() {
            return Some(ConnFault::StreamsSpent);
        }
        None
    }

    /// The block of a header list, behind a size update where that is due.
    fn header_block(&self, headers: &[Header]) -> Result<Vec<u8>, AllocError>
        requires { All IsWritable headers.now }
        ensures { IfOk result (λ block.
            block.items ≡ header_block self.now.size_update (views headers.now)) }
    {
        let block = Encoder::new().block(self.alloc, headers)?;
        match self.size_update {
            SizeUpdate::Due => {
                let mut whole = Vec::new(self.alloc);
                whole.push(EMPTY_TABLE)?;
                whole.extend_from_slice(&block)?;
                Ok(whole)
            }
            _ => Ok(block),
        }
    }

    /// Opens the next stream, or changes nothing.
    #[tactic(auto, unfolding(crate::specs::Open::opened))]
    fn add_stream(&mut self, headers: &[Header], last: bool) -> Result<u32, AllocError>
        requires writable { All IsWritable headers.now }
        requires room { length (state_of self.old).streams < 1073741824 }
        ensures ok { OnOk result
            (state_of self.new ≡ opened (state_of self.old) (views headers.now) last) }
        ensures id { IfOk result (λ id. id ≡ next_id (state_of self.old)) }
        ensures err { OnErr result (state_of self.new ≡ state_of self.old) }
    {
        let block = self.header_block(headers)?;
        let id = self.streams.len() as u32 * 2 + 1;
        let framing = Framing {
            first: Kind::Headers,
            later: Kind::Continuation,
            flags: end_stream(last),
            ending: END_HEADERS,
            stream: id,
        };
        let kept = self.queued.len();
        put_frames(framing, &block, &mut self.queued)?;
        let stream = Stream {
            client_done: last,
            ..OPENED
        };
        if self.streams.push(stream).is_err() {
            self.queued.truncate(kept);
            return Err(AllocError);
        }
        self.size_update = self.size_update.told();
        Ok(id)
    }

    /// Opens the next stream by a header list, and ends this side of it where nothing follows.
    pub fn open_stream(&mut self, headers: &[Header], last: bool) -> Result<u32, ConnFault>
        requires { All IsWritable headers.now }
        ensures { Opens (state_of self.old) (views headers.now) last (state_of self.new) result }
    {
        if let Some(fault) = self.refusal() {
            return Err(fault);
        }
        match self.add_stream(headers, last) {
            Ok(id) => Ok(id),
            Err(_) => Err(ConnFault::NoMemory),
        }
    }
}
