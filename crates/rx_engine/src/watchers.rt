//! The watcher of a session whose client may cancel: it reads on behind the request, in a thread of its own,
//! and cancels the race by whatever comes first. Nothing here publishes or replies.

ghost use Rattle.std.specs.Prelude.{◌≡◌, false, IfSome, is_some};
ghost use Rattle.rx_race.specs.declared.slips.Slip.TheVariants.{Told as told};
ghost use Rattle.rx_engine.specs.Racing.{is_cancelled};
ghost use Rattle.rx_engine.specs.Watching.{HasListened, HasWatched};

use crate::attempts::{Heard, Job};
use crate::halts::Halt;
use rx_local::Places;
use rx_race::{CancelPass, Contest, SharedRace, Ticket, Verdict};
use rx_session::{CancelReason, read_cancel};
use rx_world::{Attempt, Source};
use std::sync::Wait;

/// What a watcher takes into its thread.
#[derive(Drop)]
pub(crate) struct Watcher<K: Contest, I> {
    /// The right to cancel.
    pub pass: CancelPass<K>,
    pub input: I,
}

/// What it hands back.
#[derive(Drop)]
pub(crate) struct Watched<K: Contest, I> {
    /// What became of the right to cancel.
    pub ticket: Ticket<K>,
    pub heard: Heard,
    pub input: I,
}

/// Reads on behind the request, and cancels the race by what comes. Where there is no memory to read, nothing
/// is cancelled.
pub(crate) fn watch<K: Contest, H: Halt, N: Places, I: Source, R: Wait>(
    rt: &R,
    job: &Job<'_, H, N>,
    race: &SharedRace<K>,
    watcher: Watcher<K, I>,
) -> Watched<K, I>
    ensures { HasWatched I.Source watcher.input result.input
        result.heard result.ticket }
{
    let Watcher { pass, input } = watcher;
    let mut input = input;
    let mut bytes = Vec::new(job.alloc);
    let Ok(reason) = read_cancel(&mut input, &mut bytes) else {
        return Watched {
            ticket: pass.ticket,
            heard: Heard {
                bytes,
                cancelled: None,
            },
            input,
        };
    };
    let mark = race.cancel(rt, pass);
    let cancelled = cancelled_by(mark.verdict, reason);
    if cancelled.is_some() {
        job.halter.halt(Attempt::Local);
        job.halter.halt(Attempt::Remote);
        job.slots.wake(rt);
    }
    Watched {
        ticket: mark.ticket,
        heard: Heard { bytes, cancelled },
        input,
    }
}

/// Why a race was cancelled, by what the cancel was told.
fn cancelled_by(verdict: Verdict, reason: CancelReason) -> Option<CancelReason>
    ensures told { is_some result ≡ is_cancelled (told verdict) }
    ensures why { IfSome result (λ why. why ≡ reason) }
{
    match verdict {
        Verdict::Won => Some(reason),
        _ => None,
    }
}

/// Doesn't watch: the input is as it was, and the right to cancel isn't used.
pub(crate) fn leave_unwatched<K: Contest, H, N: Places, I: Source>(
    job: &Job<'_, H, N>,
    watcher: Watcher<K, I>,
) -> Watched<K, I>
    ensures { HasListened I.Source false watcher.input result.input result.heard result.ticket }
{
    let Watcher { pass, input } = watcher;
    Watched {
        ticket: pass.ticket,
        heard: Heard {
            bytes: Vec::new(job.alloc),
            cancelled: None,
        },
        input,
    }
}
