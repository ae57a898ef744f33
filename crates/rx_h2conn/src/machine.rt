//! The state of a connection, and the step from one whole frame to the next.
//! What each kind of frame does stands in a file of its own.

ghost use Rattle.std.specs.Prelude.{◌≡◌, ◌+◌, ◌<◌, ◌≤◌, ◌^◌, ◌/◌, length, slice_set, true, None};
ghost use Rattle.rx_h2conn.specs.State.{state_of, DoesBy};
ghost use Rattle.rx_h2conn.specs.Streams.{failed, number, number_31, is_open, is_interrupted, stream_at, passed};
ghost use Rattle.rx_h2conn.specs.Steps.{took};
ghost use Rattle.rx_h2conn.specs.Sound.{IsSound};
ghost use Rattle.rx_h2frame.specs.Frame.{IsSound as IsSoundFrame};
ghost use Rattle.rx_h2frame.specs.Seen.{frame_view};

use crate::event::Waiting;
use crate::fault::ConnFault;
use crate::headers::Sequence;
use crate::settings::SizeUpdate;
use crate::stream::Stream;
use crate::streams::Streams;
use rx_h2frame::{Frame, Kind};
use rx_hpack::Decoder;
use std::alloc::Global;
use std::collections::VecDeque;

/// A rule was broken that has no code of its own (RFC 9113 7, as those below).
pub const PROTOCOL_ERROR: u32 = 1;

/// More bytes came than a window allowed, or a window grew past the largest.
pub const FLOW_CONTROL_ERROR: u32 = 3;

/// A frame is of a size that it can't have.
pub const FRAME_SIZE_ERROR: u32 = 6;

/// A header block can't be decoded.
pub const COMPRESSION_ERROR: u32 = 9;

/// The server asks for more work or memory than is given.
pub const ENHANCE_YOUR_CALM: u32 = 11;

/// All that a connection knows but the bytes since the last whole frame.
#[derive(Drop)]
pub struct Machine {
    pub alloc: Global,
    pub fault: Option<ConnFault>,
    pub streams: Streams,
    /// What may still be sent on the connection.
    pub send: u32,
    /// The window of a new stream, by the server's SETTINGS_INITIAL_WINDOW_SIZE.
    pub initial: u32,
    /// What the server may still send on the connection.
    pub receive: u32,
    /// Credit on the connection that the server wasn't told yet.
    pub owed: u32,
    /// Acknowledgements that are queued.
    pub acks: u32,
    /// The last stream of the first GOAWAY.
    pub gone: Option<u32>,
    /// Whether the next header block that is sent begins with a size update.
    pub size_update: SizeUpdate,
    /// Of the header blocks that come in.
    pub decoder: Decoder,
    /// A header block that hasn't ended.
    pub sequence: Option<Sequence>,
    pub events: VecDeque<Waiting>,
    /// Bytes that wait to be sent.
    pub queued: Vec<u8>,
}

/// A number of 32 bits, the highest byte first.
pub fn number(bytes: &[u8]) -> u32
    requires { 4 ≤ length bytes.now }
    ensures { result ≡ number bytes.now }
{
    ((bytes[0] as u32 * 256 + bytes[1] as u32) * 256 + bytes[2] as u32) * 256 + bytes[3] as u32
}

/// The same where the first bit is reserved.
pub fn number_31(bytes: &[u8]) -> u32
    requires { 4 ≤ length bytes.now }
    ensures is { result ≡ number_31 bytes.now }
    ensures small { result < 2 ^ 31 }
{
    number(bytes) % 2_147_483_648
}

impl Machine {
    /// Breaks the connection off for good.
    pub fn fail(&mut self, code: u32) -> Result<(), ConnFault>
        ensures { DoesBy (λ s. failed s code) self.old self.new result }
    {
        self.fault = Some(ConnFault::Protocol(code));
        Err(ConnFault::Protocol(code))
    }

    /// Whether the client opened a stream of this number.
    pub fn is_open(&self, id: u32) -> bool
        ensures { result ≡ is_open (state_of self.now) id }
    {
        id % 2 == 1 && ((id / 2) as usize) < self.streams.len()
    }

    /// Whether a header block hasn't ended, so that only its CONTINUATION may come (RFC 9113 6.10).
    pub fn is_interrupted(&self) -> bool
        ensures { result ≡ is_interrupted (state_of self.now) }
    {
        self.sequence.is_some()
    }

    /// The stream of a number that is open.
    pub fn stream_at(&self, id: u32) -> Stream
        requires { is_open (state_of self.now) id ≡ true }
        ensures { result ≡ stream_at (state_of self.now) id }
    {
        self.streams.get((id / 2) as usize)
    }

    /// Writes the stream of a number that is open.
    pub fn set_stream(&mut self, id: u32, stream: Stream)
        requires { is_open (state_of self.old) id ≡ true }
        ensures { state_of self.new ≡ record (state_of self.old) {
          streams = slice_set (state_of self.old).streams (id / 2) stream;
        } }
    {
        self.streams.set((id / 2) as usize, stream);
    }

    /// A frame that changes nothing, but may not come into a header block.
    #[tactic(auto, unfolding(crate::specs::Streams::passed))]
    pub fn pass(&mut self) -> Result<(), ConnFault>
        requires none { self.old.fault ≡ None }
        ensures { DoesBy passed self.old self.new result }
    {
        if self.is_interrupted() {
            return self.fail(PROTOCOL_ERROR);
        }
        Ok(())
    }

    /// Takes a whole frame.
    pub fn take_frame(&mut self, f: &Frame) -> Result<(), ConnFault>
        requires none { self.old.fault ≡ None }
        requires sound { IsSound (state_of self.old) }
        requires frame { IsSoundFrame 16384 (frame_view f.now) }
        ensures { DoesBy (λ s. took s (frame_view f.now)) self.old self.new result }
    {
        match f.kind {
            Kind::Data => self.on_data(f),
            Kind::Headers => self.on_headers(f),
            Kind::Priority => self.pass(),
            Kind::ResetStream => self.on_reset(f),
            Kind::Settings => self.on_settings(f),
            Kind::PushPromise => self.fail(PROTOCOL_ERROR),
            Kind::Ping => self.on_ping(f),
            Kind::GoAway => self.on_go_away(f),
            Kind::WindowUpdate => self.on_window_update(f),
            Kind::Continuation => self.on_continuation(f),
            Kind::Unknown(_) => self.pass(),
        }
    }
}
