//! How a command ended that was run in place.

ghost use Rattle.std.specs.Prelude.{◌≡◌};
ghost use Rattle.rx_client.specs.Answering.{ran_status};

use crate::answers::exit_status;

/// The end of a command that was run on this machine, or was to be.
#[derive(Clone, Copy, Debug, PartialEq, Eq)]
pub enum Ran {
    /// It ended with this code.
    Exited(i32),
    /// A signal of this number ended it.
    Killed(u8),
    /// There is no such program.
    NotFound,
    /// The program can't be started, or the system doesn't tell how it ended.
    NotStarted,
}

/// The status that a shell tells of such an end.
pub(crate) fn ran_status(ran: Ran) -> u8
    ensures { result ≡ ran_status ran }
{
    match ran {
        Ran::Exited(exit) => exit_status(exit),
        Ran::Killed(signal) => 128u8.saturating_add(signal),
        Ran::NotFound => 127,
        Ran::NotStarted => 126,
    }
}
