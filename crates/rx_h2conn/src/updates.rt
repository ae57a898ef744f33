//! WINDOW_UPDATE (RFC 9113 6.9): more may be sent, on the connection or on a stream.

ghost use Rattle.std.specs.Prelude.{◌≡◌, ◌≤◌, ◌<◌, length, None};
ghost use Rattle.rx_h2conn.specs.State.{DoesBy};
ghost use Rattle.rx_h2conn.specs.Updates.{on_window_update, on_connection_update, on_stream_update, overflows};
ghost use Rattle.rx_h2frame.specs.Seen.{frame_view};

use crate::fault::ConnFault;
use crate::machine::{FLOW_CONTROL_ERROR, Machine, PROTOCOL_ERROR, number_31};
use crate::stream::Stream;
use crate::window::LARGEST_WINDOW;
use rx_h2frame::Frame;

impl Stream {
    /// Whether so much more makes the window too large; on a stream that was reset no window counts.
    pub fn overflows(self, initial: u32, size: u32) -> bool
        ensures { result ≡ overflows initial self size }
    {
        !self.client_reset && self.send.grows_past(initial, size)
    }
}

impl Machine {
    /// More may be sent on the connection.
    #[tactic(auto, unfolding(crate::specs::Updates::on_connection_update))]
    fn on_connection_update(&mut self, size: u32) -> Result<(), ConnFault>
        requires none { self.old.fault ≡ None }
        ensures { DoesBy (λ s. on_connection_update s size) self.old self.new result }
    {
        if (LARGEST_WINDOW as u64) < self.send as u64 + size as u64 {
            return self.fail(FLOW_CONTROL_ERROR);
        }
        if self.is_interrupted() || size == 0 {
            return self.fail(PROTOCOL_ERROR);
        }
        self.send += size;
        Ok(())
    }

    /// More may be sent on a stream.
    #[tactic(auto, unfolding(crate::specs::Updates::on_stream_update))]
    fn on_stream_update(&mut self, id: u32, size: u32) -> Result<(), ConnFault>
        requires none { self.old.fault ≡ None }
        ensures { DoesBy (λ s. on_stream_update s id size) self.old self.new result }
    {
        if !self.is_open(id) {
            return self.fail(PROTOCOL_ERROR);
        }
        let stream = self.stream_at(id);
        if stream.overflows(self.initial, size) {
            return self.fail(FLOW_CONTROL_ERROR);
        }
        if self.is_interrupted() {
            return self.fail(PROTOCOL_ERROR);
        }
        if stream.client_reset {
            return Ok(());
        }
        if size == 0 {
            return self.fail(PROTOCOL_ERROR);
        }
        let widened = Stream {
            send: stream.send.granted(size),
            ..stream
        };
        self.set_stream(id, widened);
        Ok(())
    }

    /// WINDOW_UPDATE.
    ///
    /// ```text
    /// +-+-------------------------------------------------------------+
    /// |R|                        increment (31)                       |
    /// +-+-------------------------------------------------------------+
    /// ```
    #[tactic(auto, unfolding(crate::specs::Updates::on_window_update))]
    pub fn on_window_update(&mut self, f: &Frame) -> Result<(), ConnFault>
        requires none { self.old.fault ≡ None }
        requires body { 4 ≤ length f.now.body.now }
        ensures { DoesBy (λ s. on_window_update s (frame_view f.now)) self.old self.new result }
    {
        let size = number_31(f.body);
        if f.stream == 0 {
            return self.on_connection_update(size);
        }
        self.on_stream_update(f.stream, size)
    }
}
