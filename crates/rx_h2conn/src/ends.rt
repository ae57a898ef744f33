//! The ends of streams and of the connection that the server tells (RFC 9113 6.4, 6.8).

ghost use Rattle.std.specs.Prelude.{◌≡◌, ◌≤◌, length, None};
ghost use Rattle.rx_h2conn.specs.State.{DoesBy};
ghost use Rattle.rx_h2conn.specs.Ends.{on_reset, on_go_away};
ghost use Rattle.rx_h2frame.specs.Seen.{frame_view};

use crate::event::{ConnEvent, Waiting};
use crate::fault::ConnFault;
use crate::machine::{Machine, PROTOCOL_ERROR, number, number_31};
use crate::stream::Stream;
use rx_h2frame::Frame;

impl Machine {
    /// RST_STREAM (RFC 9113 6.4).
    ///
    /// ```text
    /// +---------------------------------------------------------------+
    /// |                           code (32)                           |
    /// +---------------------------------------------------------------+
    /// ```
    #[tactic(auto, unfolding(crate::specs::Ends::on_reset))]
    pub fn on_reset(&mut self, f: &Frame) -> Result<(), ConnFault>
        requires none { self.old.fault ≡ None }
        requires body { 4 ≤ length f.now.body.now }
        ensures { DoesBy (λ s. on_reset s (frame_view f.now)) self.old self.new result }
    {
        if self.is_interrupted() || !self.is_open(f.stream) {
            return self.fail(PROTOCOL_ERROR);
        }
        let stream = self.stream_at(f.stream);
        if stream.client_reset {
            return Ok(());
        }
        if !stream.server_done {
            let event = ConnEvent::Reset {
                stream: f.stream,
                code: number(f.body),
            };
            self.events.push_back(Waiting {
                event,
                stream: f.stream,
                credit: 0,
            })?;
        }
        let ended = Stream {
            server_done: true,
            server_reset: true,
            ..stream
        };
        self.set_stream(f.stream, ended);
        Ok(())
    }

    /// GOAWAY (RFC 9113 6.8). The code and what follows it aren't looked at.
    ///
    /// ```text
    /// +-+-------------------------------------------------------------+
    /// |R|                       last stream (31)                      |
    /// +-+-------------------------------------------------------------+
    /// |                           code (32)                           |
    /// +---------------------------------------------------------------+
    /// |                        debug data (*)                         |
    /// +---------------------------------------------------------------+
    /// ```
    #[tactic(auto, unfolding(crate::specs::Ends::on_go_away))]
    pub fn on_go_away(&mut self, f: &Frame) -> Result<(), ConnFault>
        requires none { self.old.fault ≡ None }
        requires body { 4 ≤ length f.now.body.now }
        ensures { DoesBy (λ s. on_go_away s (frame_view f.now)) self.old self.new result }
    {
        if self.is_interrupted() {
            return self.fail(PROTOCOL_ERROR);
        }
        let last = number_31(f.body);
        self.events.push_back(Waiting {
            event: ConnEvent::Gone { last },
            stream: 0,
            credit: 0,
        })?;
        if self.gone.is_none() {
            self.gone = Some(last);
        }
        Ok(())
    }
}
