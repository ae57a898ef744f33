//! Whether sessions were asked to end their run.

ghost use Rattle.std.specs.Prelude.{◌≡◌};
ghost use Rattle.rx_daemon.specs.Proxy.{asks_to_end};
ghost use Rattle.rx_daemon.specs.Threads.{is_asked};

use crate::served::ServedDesk;
use rx_session::SHUTDOWN;

/// Whether the bytes that a session read ask for the end of the run.
pub(crate) fn asks_to_end(read: &[u8]) -> bool
    ensures { result ≡ asks_to_end read.now }
{
    read == SHUTDOWN.as_slice()
}

/// Whether a session was asked to end the run.
pub(crate) fn any_asked<D>(served: &[ServedDesk<D>]) -> bool
    ensures { result ≡ is_asked served.now }
{
    served
        .iter()
        .any(|s| asks_to_end(s.transcript.read.as_slice()))
}
