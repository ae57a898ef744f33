//! Bytes that come in (RFC 9113 6.1), and their credit.

ghost use Rattle.std.specs.Prelude.{◌≡◌, ◌+◌, ◌≤◌, ◌++◌, true, false, None, OnOk, OnErr, IfErr};
ghost use Rattle.rx_h2conn.specs.declared.fault.ConnFault.TheVariants.{NoMemory};
ghost use Rattle.rx_h2conn.specs.State.{state_of, DoesBy};
ghost use Rattle.rx_h2conn.specs.Streams.{is_dropped, is_open, stream_at};
ghost use Rattle.rx_h2conn.specs.Data.{passes_window, on_data, taken_data, carried, data_events, owe};
ghost use Rattle.rx_h2conn.specs.Sound.{IsSound};
ghost use Rattle.rx_h2frame.specs.Flags.{is_set};
ghost use Rattle.rx_h2frame.specs.Seen.{frame_view};

use crate::event::{ConnEvent, Waiting};
use crate::fault::ConnFault;
use crate::machine::{FLOW_CONTROL_ERROR, Machine, PROTOCOL_ERROR};
use crate::stream::Stream;
use rx_h2frame::{END_STREAM, Frame, is_set};

/// The credit that waits for the event of these bytes.
fn carried(f: &Frame) -> u32
    requires { f.now.size ≤ 16384 }
    ensures { result ≡ carried (frame_view f.now) }
{
    if f.body.is_empty() { 0 } else { f.size as u32 }
}

impl Stream {
    /// Whether what the server sends on it is dropped.
    pub fn is_dropped(self) -> bool
        ensures { result ≡ is_dropped self }
    {
        self.client_reset || self.server_done
    }
}

impl Machine {
    /// The frame is past a window that was told.
    fn passes_window(&self, f: &Frame) -> bool
        requires { f.now.size ≤ 16384 }
        ensures { result ≡ passes_window (state_of self.now) (frame_view f.now) }
    {
        let size = f.size as u32;
        if self.receive < size {
            return true;
        }
        if !self.is_open(f.stream) {
            return false;
        }
        let stream = self.stream_at(f.stream);
        !stream.is_dropped() && stream.receive < size
    }

    /// Tells the bytes, where there are any or the stream ends.
    fn tell_data(&mut self, f: &Frame, credit: u32, last: bool) -> Result<(), ConnFault>
        ensures ok { OnOk result (state_of self.new ≡ record (state_of self.old) {
          events = self.old.events.items
              ++ data_events f.now.stream f.now.body.now credit last;
        }) }
        ensures err { OnErr result (state_of self.new ≡ state_of self.old) }
        ensures none { IfErr result (λ e. e ≡ NoMemory) }
    {
        if f.body.is_empty() && !last {
            return Ok(());
        }
        let Ok(bytes) = Vec::from_slice(self.alloc, f.body) else {
            return Err(ConnFault::NoMemory);
        };
        let event = ConnEvent::Bytes {
            stream: f.stream,
            bytes,
            last,
        };
        let waiting = Waiting {
            event,
            stream: f.stream,
            credit,
        };
        if self.events.push_back(waiting).is_err() {
            return Err(ConnFault::NoMemory);
        }
        Ok(())
    }

    /// Takes bytes that are kept: both windows are charged with the whole payload.
    fn take_data(&mut self, f: &Frame) -> Result<(), ConnFault>
        requires open { is_open (state_of self.old) f.now.stream ≡ true }
        requires none { self.old.fault ≡ None }
        requires sound { IsSound (state_of self.old) }
        requires size { f.now.size ≤ 16384 }
        requires window { passes_window (state_of self.old) (frame_view f.now) ≡ false }
        requires kept { is_dropped (stream_at (state_of self.old) f.now.stream) ≡ false }
        ensures { DoesBy (λ s. taken_data s (frame_view f.now) (is_set f.now.flags 1))
            self.old self.new result }
    {
        let last = is_set(f.flags, END_STREAM);
        let size = f.size as u32;
        let credit = carried(f);
        self.tell_data(f, credit, last)?;
        self.receive -= size;
        self.owed += size - credit;
        let stream = self.stream_at(f.stream);
        let heard = Stream {
            receive: stream.receive - size,
            owed: stream.owed + (size - credit),
            server_done: stream.server_done || last,
            ..stream
        };
        self.set_stream(f.stream, heard);
        Ok(())
    }

    /// DATA (RFC 9113 6.1). Its whole payload, padding included, counts for the windows (RFC 9113 6.9.1).
    #[tactic(auto, unfolding(crate::specs::Data::on_data))]
    pub fn on_data(&mut self, f: &Frame) -> Result<(), ConnFault>
        requires none { self.old.fault ≡ None }
        requires sound { IsSound (state_of self.old) }
        requires size { f.now.size ≤ 16384 }
        ensures { DoesBy (λ s. on_data s (frame_view f.now)) self.old self.new result }
    {
        if self.passes_window(f) {
            return self.fail(FLOW_CONTROL_ERROR);
        }
        if self.is_interrupted() || !self.is_open(f.stream) {
            return self.fail(PROTOCOL_ERROR);
        }
        if self.stream_at(f.stream).is_dropped() {
            self.receive -= f.size as u32;
            self.owed += f.size as u32;
            return Ok(());
        }
        self.take_data(f)
    }

    /// The credit of an event that is handed out becomes due.
    #[tactic(auto, unfolding(crate::specs::Data::owe))]
    pub fn owe(&mut self, id: u32, credit: u32)
        requires connection { self.old.owed + credit ≤ 16777216 }
        requires stream { is_open (state_of self.old) id ≡ true →
            (stream_at (state_of self.old) id).owed + credit ≤ 16777216 }
        ensures { state_of self.new ≡ owe (state_of self.old) id credit }
    {
        self.owed += credit;
        if !self.is_open(id) {
            return;
        }
        let stream = self.stream_at(id);
        if !stream.client_reset {
            let owing = Stream {
                owed: stream.owed + credit,
                ..stream
            };
            self.set_stream(id, owing);
        }
    }
}
