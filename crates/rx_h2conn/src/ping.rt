//! PING (RFC 9113 6.7): what the server asks is answered.

ghost use Rattle.std.specs.Prelude.{◌≡◌, ◌≤◌, length, None};
ghost use Rattle.rx_h2conn.specs.State.{DoesBy};
ghost use Rattle.rx_h2conn.specs.Ping.{on_ping};
ghost use Rattle.rx_h2frame.specs.Seen.{frame_view};

use crate::fault::ConnFault;
use crate::machine::{ENHANCE_YOUR_CALM, Machine, PROTOCOL_ERROR};
use rx_h2frame::{ACK, Frame, FrameOut, Kind, is_set, write_frame};

/// At most so many acknowledgements of PING and SETTINGS are queued: a server that asks for more before the output
/// is taken floods.
pub const MOST_ACKS: u32 = 1024;

impl Machine {
    /// PING: eight bytes of any kind, which the answer repeats.
    #[tactic(auto, unfolding(crate::specs::Ping::on_ping))]
    pub fn on_ping(&mut self, f: &Frame) -> Result<(), ConnFault>
        requires none { self.old.fault ≡ None }
        requires body { length f.now.body.now ≤ 16384 }
        ensures { DoesBy (λ s. on_ping s (frame_view f.now)) self.old self.new result }
    {
        let is_ack = is_set(f.flags, ACK);
        if !is_ack && MOST_ACKS <= self.acks {
            return self.fail(ENHANCE_YOUR_CALM);
        }
        if self.is_interrupted() {
            return self.fail(PROTOCOL_ERROR);
        }
        if is_ack {
            return Ok(());
        }
        let answer = FrameOut {
            kind: Kind::Ping,
            flags: ACK,
            stream: 0,
            payload: f.body,
        };
        write_frame(&answer, &mut self.queued)?;
        self.acks += 1;
        Ok(())
    }
}
