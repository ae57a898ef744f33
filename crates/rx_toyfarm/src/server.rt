//! The server's side of one connection (RFC 9113): frames are read, and each whole call is answered.

use crate::farm::ToyFarm;
use crate::farm_fault::Broken;
use crate::open_calls::OpenCall;
use crate::sender::Sender;
use rx_h2frame::{
    ACK, END_HEADERS, END_STREAM, Frame, HEADER_SIZE, Kind, Next, is_set, next_frame,
};
use rx_hpack::Decoder;
use std::alloc::Global;
use std::collections::BTreeMap;
use std::mem::replace;

/// What a client sends first (RFC 9113 3.4).
const PREFACE: &[u8; 24] = b"PRI * HTTP/2.0\r\n\r\nSM\r\n\r\n";

/// No payload that comes in may be larger, since the server's SETTINGS ask for nothing (RFC 9113 4.2).
const LARGEST_FRAME: u32 = 16_384;

/// The setting of the window with which streams begin, SETTINGS_INITIAL_WINDOW_SIZE (RFC 9113 6.5.2).
const INITIAL_WINDOW_SIZE: u16 = 4;

/// The front of a header block.
#[derive(Drop)]
struct Block {
    stream: u32,
    /// Nothing follows on the stream.
    is_last: bool,
    bytes: Vec<u8>,
}

/// One connection, as its server has it. Of the client's settings the initial window is followed.
#[derive(Drop)]
pub(crate) struct Server {
    alloc: Global,
    /// What came and wasn't read yet.
    rest: Vec<u8>,
    /// Whether the preface came, and the SETTINGS behind it.
    is_greeted: bool,
    is_set: bool,
    decoder: Decoder,
    /// A header block that goes on in the next frame.
    block: Option<Block>,
    calls: BTreeMap<u32, OpenCall>,
    /// The last stream that the client opened.
    last: u32,
    sender: Sender,
}

impl Server {
    /// A connection on which nothing came yet.
    pub(crate) fn new(alloc: Global) -> Result<Server, Broken> {
        Ok(Server {
            alloc,
            rest: Vec::new(alloc),
            is_greeted: false,
            is_set: false,
            decoder: Decoder::new(alloc),
            block: None,
            calls: BTreeMap::new(alloc),
            last: 0,
            sender: Sender::new(alloc)?,
        })
    }

    /// What is to be sent, each byte once.
    pub(crate) fn take_output(&mut self) -> Vec<u8> {
        self.sender.take_output()
    }

    /// The client has ended the connection. `BadCall` where that is amid a frame or a call.
    pub(crate) fn end(&self) -> Result<(), Broken> {
        if self.rest.is_empty() && self.block.is_none() && self.calls.is_empty() {
            Ok(())
        } else {
            Err(Broken::BadCall)
        }
    }

    /// Takes what came, and answers the calls that are whole.
    pub(crate) fn feed(&mut self, farm: &mut ToyFarm, piece: &[u8]) -> Result<(), Broken> {
        self.rest.extend_from_slice(piece)?;
        let bytes = replace(&mut self.rest, Vec::new(self.alloc));
        let left = self.take_preface(&bytes)?;
        let left = self.take_frames(farm, left)?;
        self.rest.extend_from_slice(left)?;
        self.push()
    }

    /// Takes the preface, once it is whole, and answers what is behind it.
    fn take_preface<'a>(&mut self, bytes: &'a [u8]) -> Result<&'a [u8], Broken> {
        if self.is_greeted {
            return Ok(bytes);
        }
        if let Some(behind) = bytes.strip_prefix(PREFACE) {
            self.is_greeted = true;
            return Ok(behind);
        }
        if PREFACE.starts_with(bytes) {
            return Ok(bytes);
        }
        Err(Broken::BadCall)
    }

    /// Takes the frames that are whole, and answers what is behind them.
    fn take_frames<'a>(&mut self, farm: &mut ToyFarm, bytes: &'a [u8]) -> Result<&'a [u8], Broken> {
        if !self.is_greeted {
            return Ok(bytes);
        }
        let mut left = bytes;
        while let Next::Frame(frame) = next_frame(left, LARGEST_FRAME)? {
            self.take_frame(farm, &frame)?;
            let (_, behind) = left.split_at(HEADER_SIZE + frame.size);
            left = behind;
        }
        Ok(left)
    }

    /// Takes a frame. A header block isn't interrupted, and SETTINGS come first.
    fn take_frame(&mut self, farm: &mut ToyFarm, frame: &Frame<'_>) -> Result<(), Broken> {
        if self.block.is_some() && frame.kind != Kind::Continuation {
            return Err(Broken::BadCall);
        }
        if !self.is_set && frame.kind != Kind::Settings {
            return Err(Broken::BadCall);
        }
        match frame.kind {
            Kind::Headers => self.begin_block(farm, frame),
            Kind::Continuation => self.go_on(farm, frame),
            Kind::Data => self.take_data(farm, frame),
            Kind::Settings => self.take_settings(frame),
            Kind::Ping => self.take_ping(frame),
            Kind::WindowUpdate => self.widen(frame),
            Kind::ResetStream => {
                let _given_up = self.calls.remove(&frame.stream);
                Ok(())
            }
            Kind::PushPromise => Err(Broken::BadCall),
            Kind::Priority | Kind::GoAway | Kind::Unknown(_) => Ok(()),
        }
    }

    /// HEADERS: a stream is opened, by an odd number above all before (RFC 9113 5.1.1).
    fn begin_block(&mut self, farm: &mut ToyFarm, frame: &Frame<'_>) -> Result<(), Broken> {
        if frame.stream % 2 == 0 || frame.stream <= self.last {
            return Err(Broken::BadCall);
        }
        self.last = frame.stream;
        let block = Block {
            stream: frame.stream,
            is_last: is_set(frame.flags, END_STREAM),
            bytes: Vec::from_slice(self.alloc, frame.body)?,
        };
        self.end_block(farm, block, is_set(frame.flags, END_HEADERS))
    }

    /// CONTINUATION.
    fn go_on(&mut self, farm: &mut ToyFarm, frame: &Frame<'_>) -> Result<(), Broken> {
        let Some(mut block) = self.block.take() else {
            return Err(Broken::BadCall);
        };
        if block.stream != frame.stream {
            return Err(Broken::BadCall);
        }
        block.bytes.extend_from_slice(frame.body)?;
        self.end_block(farm, block, is_set(frame.flags, END_HEADERS))
    }

    /// Begins the call of a header block, if that is whole.
    fn end_block(
        &mut self,
        farm: &mut ToyFarm,
        block: Block,
        is_whole: bool,
    ) -> Result<(), Broken> {
        if !is_whole {
            self.block = Some(block);
            return Ok(());
        }
        let headers = self.decoder.block(self.alloc, &block.bytes)?;
        let mut call = OpenCall::new(self.alloc, &headers)?;
        if block.is_last {
            call.make(self.alloc, farm, block.stream, &mut self.sender)?;
        }
        self.calls.insert(block.stream, call)?;
        Ok(())
    }

    /// DATA: what it took of the windows is given back.
    fn take_data(&mut self, farm: &mut ToyFarm, frame: &Frame<'_>) -> Result<(), Broken> {
        let Some(mut call) = self.calls.remove(&frame.stream) else {
            return Err(Broken::BadCall);
        };
        self.sender.credit(0, frame.size)?;
        call.extend(frame.body)?;
        if is_set(frame.flags, END_STREAM) {
            call.make(self.alloc, farm, frame.stream, &mut self.sender)?;
        } else {
            self.sender.credit(frame.stream, frame.size)?;
        }
        self.calls.insert(frame.stream, call)?;
        Ok(())
    }

    /// SETTINGS, or the acknowledgement of the server's.
    fn take_settings(&mut self, frame: &Frame<'_>) -> Result<(), Broken> {
        if is_set(frame.flags, ACK) {
            return Ok(());
        }
        self.is_set = true;
        let mut left = frame.body;
        while let [a, b, c, d, e, f, rest @ ..] = left {
            if u16::from_be_bytes([*a, *b]) == INITIAL_WINDOW_SIZE {
                let size = u32::from_be_bytes([*c, *d, *e, *f]);
                self.sender.set_initial(size)?;
            }
            left = rest;
        }
        self.sender.acknowledge()
    }

    /// PING, or the answer to one.
    fn take_ping(&mut self, frame: &Frame<'_>) -> Result<(), Broken> {
        if is_set(frame.flags, ACK) {
            return Ok(());
        }
        self.sender.pong(frame.body)
    }

    /// WINDOW_UPDATE. On a stream whose call is over it changes nothing.
    fn widen(&mut self, frame: &Frame<'_>) -> Result<(), Broken> {
        let [a, b, c, d, ..] = frame.body else {
            return Err(Broken::BadCall);
        };
        let by = u32::from_be_bytes([*a % 128, *b, *c, *d]);
        if by == 0 {
            return Err(Broken::BadCall);
        }
        if frame.stream == 0 {
            return self.sender.widen(by);
        }
        match self.calls.get_mut(&frame.stream) {
            Some(call) => self.sender.widen_stream(&mut call.change, by),
            None => Ok(()),
        }
    }

    /// Sends what the windows let of the answers. Calls that are over are let go.
    fn push(&mut self) -> Result<(), Broken> {
        let calls = replace(&mut self.calls, BTreeMap::new(self.alloc));
        for (stream, mut call) in calls {
            if !call.push(stream, &mut self.sender)? {
                self.calls.insert(stream, call)?;
            }
        }
        Ok(())
    }
}
