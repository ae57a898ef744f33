//! The bytes of a connection, however they are cut: whole frames go to the machine.
//!
//! A byte of DATA is copied twice, into the rest and from there into its event.

ghost use Rattle.std.specs.Prelude.{◌≡◌, ◌<◌, ◌≤◌, true, length, take, None, Ok, OnOk, OnErr, IfOk};
ghost use Rattle.std.specs.List.{All};
ghost use Rattle.rx_hpack.specs.Header.{views};
ghost use Rattle.rx_hpack.specs.Encoder.{IsWritable};
ghost use Rattle.rx_h2conn.specs.Open.{Opens};
ghost use Rattle.rx_h2conn.specs.Output.{Sends, Resets, output, emptied};
ghost use Rattle.rx_h2conn.specs.State.{state_of};
ghost use Rattle.rx_h2conn.specs.Streams.{is_open};
ghost use Rattle.rx_h2conn.specs.Reader.{reading_of, ReadsBy, IsReady, IsConn};
ghost use Rattle.rx_h2conn.specs.Steps.{code_of, settled, more, fed, broken, Feeds, first, after_event};
ghost use Rattle.rx_h2conn.specs.Event.{Hands};

use crate::event::{ConnEvent, Waiting};
use crate::fault::ConnFault;
use crate::machine::{FRAME_SIZE_ERROR, Machine, PROTOCOL_ERROR};
use crate::settings::SizeUpdate;
use rx_h2frame::{FrameFault, HEADER_SIZE, Next, next_frame};
use rx_hpack::{Decoder, Header};
use std::alloc::AllocError;

/// No payload that comes in may be larger: SETTINGS_MAX_FRAME_SIZE is left as it is at first (RFC 9113 4.2).
const LARGEST_FRAME: u32 = 16_384;

/// A machine, and the bytes that it hasn't taken yet.
#[derive(Drop)]
pub struct Reader {
    pub machine: Machine,
    /// The bytes fed since the last whole frame, fewer than a frame.
    pub rest: Vec<u8>,
    /// How many bytes at least the next frame lacks.
    pub lacking: usize,
}

fn code_of(fault: FrameFault) -> u32
    ensures { result ≡ code_of fault }
{
    match fault {
        FrameFault::FrameSize => FRAME_SIZE_ERROR,
        FrameFault::BadPadding | FrameFault::BadStreamId => PROTOCOL_ERROR,
    }
}

impl Reader {
    /// Takes as many bytes as are lacking, or fewer.
    #[tactic(auto, unfolding(crate::specs::Steps::settled))]
    fn take_front(&mut self, front: &[u8]) -> Result<(), ConnFault>
        requires ready { IsReady (reading_of self.old) self.old.lacking }
        requires some { 0 < length front.now }
        requires few { length front.now ≤ self.old.lacking }
        ensures reads { ReadsBy (λ r. settled (more r front.now)) self.old self.new result }
        ensures ready { OnOk result (IsReady (reading_of self.new) self.new.lacking) }
    {
        self.rest.extend_from_slice(front)?;
        match next_frame(&self.rest, LARGEST_FRAME) {
            Ok(Next::NeedMore(lacking)) => {
                self.lacking = lacking;
                Ok(())
            }
            Ok(Next::Frame(f)) => {
                let done = self.machine.take_frame(&f);
                self.rest.clear();
                self.lacking = HEADER_SIZE;
                done
            }
            Err(fault) => {
                self.rest.clear();
                self.machine.fail(code_of(fault))
            }
        }
    }

    /// Takes the next bytes that the server sent.
    fn take_piece(&mut self, piece: &[u8]) -> Result<(), ConnFault>
        requires ready { IsReady (reading_of self.old) self.old.lacking }
        ensures reads { ReadsBy (λ r. fed r piece.now) self.old self.new result }
        ensures ready { OnOk result (IsReady (reading_of self.new) self.new.lacking) }
    {
        let mut left = piece;
        while !left.is_empty() {
            let count = self.lacking.min(left.len());
            let (front, back) = left.split_at(count);
            self.take_front(front)?;
            left = back;
        }
        Ok(())
    }

    /// Forgets all but what was told and queued before.
    fn break_off(&mut self, told: usize, queued: usize)
        ensures { reading_of self.new ≡ record (broken (reading_of self.old)) {
          state = record ((broken (reading_of self.old)).state) {
            events = take told self.old.machine.events.items;
            queued = take queued self.old.machine.queued.items;
          };
        } }
    {
        self.machine.fault = Some(ConnFault::NoMemory);
        self.machine.streams.clear();
        self.machine.send = 0;
        self.machine.initial = 0;
        self.machine.receive = 0;
        self.machine.owed = 0;
        self.machine.acks = 0;
        self.machine.gone = None;
        self.machine.size_update = SizeUpdate::NotAsked;
        self.machine.decoder = Decoder::new(self.machine.alloc);
        self.machine.sequence = None;
        self.machine.events.truncate(told);
        self.machine.queued.truncate(queued);
        self.rest.clear();
    }

    /// Takes the next bytes that the server sent, or none of them.
    pub fn feed(&mut self, piece: &[u8]) -> Result<(), ConnFault>
        requires conn { IsConn (reading_of self.old) self.old.lacking }
        ensures feeds { Feeds (reading_of self.old) piece.now (reading_of self.new) result }
        ensures conn { IsConn (reading_of self.new) self.new.lacking }
    {
        if let Some(fault) = self.machine.fault {
            return Err(fault);
        }
        let told = self.machine.events.len();
        let queued = self.machine.queued.len();
        match self.take_piece(piece) {
            Err(ConnFault::NoMemory) => {
                self.break_off(told, queued);
                Err(ConnFault::NoMemory)
            }
            done => done,
        }
    }

    fn pop_event(&mut self) -> Option<ConnEvent>
        requires conn { IsConn (reading_of self.old) self.old.lacking }
        ensures event { Hands (first self.old.machine.events.items) result }
        ensures after { reading_of self.new ≡ after_event (reading_of self.old) }
        ensures lacking { self.new.lacking ≡ self.old.lacking }
    {
        let Some(waiting) = self.machine.events.pop_front() else {
            return None;
        };
        let Waiting {
            event,
            stream,
            credit,
        } = waiting;
        self.machine.owe(stream, credit);
        Some(event)
    }

    /// Hands out the next event.
    pub fn next_event(&mut self) -> Option<ConnEvent>
        requires conn { IsConn (reading_of self.old) self.old.lacking }
        ensures event { Hands (first self.old.machine.events.items) result }
        ensures after { reading_of self.new ≡ after_event (reading_of self.old) }
        ensures conn { IsConn (reading_of self.new) self.new.lacking }
    {
        self.pop_event()
    }

    /// Opens the next stream by a header list.
    pub fn open_stream(&mut self, headers: &[Header], last: bool) -> Result<u32, ConnFault>
        requires conn { IsConn (reading_of self.old) self.old.lacking }
        requires writable { All IsWritable headers.now }
        ensures answers { Opens (state_of self.old.machine) (views headers.now) last
            (state_of self.new.machine) result }
        ensures rest { self.new.rest.items ≡ self.old.rest.items }
        ensures conn { IsConn (reading_of self.new) self.new.lacking }
    {
        self.machine.open_stream(headers, last)
    }

    /// Takes as many bytes as both windows allow.
    pub fn send(&mut self, id: u32, piece: &[u8], last: bool) -> Result<usize, ConnFault>
        requires conn { IsConn (reading_of self.old) self.old.lacking }
        requires opened { self.old.machine.fault ≡ None →
            is_open (state_of self.old.machine) id ≡ true }
        ensures answers { Sends (state_of self.old.machine) id piece.now last
            (state_of self.new.machine) result }
        ensures rest { self.new.rest.items ≡ self.old.rest.items }
        ensures conn { IsConn (reading_of self.new) self.new.lacking }
    {
        self.machine.send(id, piece, last)
    }

    /// Gives a stream up.
    pub fn reset(&mut self, id: u32, code: u32) -> Result<(), ConnFault>
        requires conn { IsConn (reading_of self.old) self.old.lacking }
        requires opened { self.old.machine.fault ≡ None →
            is_open (state_of self.old.machine) id ≡ true }
        ensures answers { Resets (state_of self.old.machine) id code
            (state_of self.new.machine) result }
        ensures rest { self.new.rest.items ≡ self.old.rest.items }
        ensures conn { IsConn (reading_of self.new) self.new.lacking }
    {
        self.machine.reset(id, code)
    }

    /// Gives all that is to be sent.
    pub fn take_output(&mut self) -> Result<Vec<u8>, AllocError>
        requires conn { IsConn (reading_of self.old) self.old.lacking }
        ensures ok { IfOk result (λ bytes. bytes.items ≡ output (state_of self.old.machine)) }
        ensures after { OnOk result
            (state_of self.new.machine ≡ emptied (state_of self.old.machine)) }
        ensures err { OnErr result (state_of self.new.machine ≡ state_of self.old.machine) }
        ensures rest { self.new.rest.items ≡ self.old.rest.items }
        ensures conn { IsConn (reading_of self.new) self.new.lacking }
    {
        self.machine.take_output()
    }
}
