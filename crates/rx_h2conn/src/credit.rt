//! When credit is told (RFC 9113 6.9): once it is a quarter of a window, and not for each frame.

ghost use Rattle.std.specs.Prelude.{◌≡◌, ◌≤◌};
ghost use Rattle.rx_h2conn.specs.Credit.{due, connection_due, stream_due};
ghost use Rattle.rx_h2conn.specs.State.{state_of};

use crate::machine::Machine;
use crate::stream::Stream;

/// The window of the connection, once a stream was opened, and of each stream.
pub const WINDOW: u32 = 16_777_216;

/// The least credit that is told.
const STEP: u32 = WINDOW / 4;

/// What is told of so much credit: all of it or nothing.
fn due(owed: u32) -> u32
    ensures { result ≡ due owed }
{
    if owed < STEP { 0 } else { owed }
}

impl Stream {
    /// The credit that is told next, none where the server has ended the stream.
    pub fn due(self) -> u32
        ensures is { result ≡ stream_due self }
        ensures few { result ≤ self.owed }
    {
        if self.server_done { 0 } else { due(self.owed) }
    }
}

impl Machine {
    /// The credit of the connection that is told next, none before a stream was opened.
    pub fn due(&self) -> u32
        ensures is { result ≡ connection_due (state_of self.now) }
        ensures few { result ≤ self.now.owed }
    {
        if self.streams.len() == 0 {
            0
        } else {
            due(self.owed)
        }
    }
}
