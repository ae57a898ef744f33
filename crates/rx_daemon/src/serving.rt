//! The status of a run of sessions in threads.

ghost use Rattle.std.specs.Prelude.{◌≡◌};
ghost use Rattle.rx_daemon.specs.Gates.{serving_status, serving_status_by};

use crate::gate::Left;

/// The status of a run whose journal is that of its sessions, by how the front was left, whether memory for
/// one session more was wanting, and whether one was asked to end the run.
fn serving_status_by(left: Option<Left>, starved: bool, asked: bool) -> u8
    ensures { result ≡ serving_status_by left starved asked }
{
    match left {
        Some(Left::Lost) => 3,
        _ if starved => 4,
        Some(Left::Ended) => 0,
        Some(Left::Spent) => 7,
        None if asked => 0,
        None => 4,
    }
}

/// The status, also by whether the journal is that of the sessions.
pub(crate) fn serving_status(left: Option<Left>, starved: bool, asked: bool, agreed: bool) -> u8
    ensures { result ≡ serving_status left starved asked agreed }
{
    if agreed {
        serving_status_by(left, starved, asked)
    } else {
        8
    }
}
