//! One attempt of a race from its start to its end, which it offers. Nothing here publishes or replies.

ghost use Rattle.std.specs.Prelude.{◌≡◌, Some, true};
ghost use Rattle.rx_engine.specs.Attempts.{whole, whole_end};
ghost use Rattle.rx_engine.specs.Racing.{FitsEnd};
ghost use Rattle.rx_engine.specs.RacedAttempts.{HasRacedHere, HasRacedThere, IsStart, is_due};
ghost use Rattle.rx_engine.specs.RemoteAttempts.{FitsFarm};
ghost use Rattle.rx_race.specs.declared.slips.Seat.TheVariants.{Of as of_attempt};
ghost use Rattle.rx_world.specs.declared.attempts.Attempt.TheVariants.{Local as local_attempt, Remote as remote_attempt};

use crate::attempts::Job;
use crate::entrants::{Entrant, Start};
use crate::halts::Halt;
use crate::held::Held;
use crate::here::run_here;
use crate::plans::has_both;
use crate::there::run_there;
use rx_exec_messages::Caller;
use rx_local::Places;
use rx_race::{Contest, Looking, SharedRace, Slip, Ticket, Verdict};
use rx_world::{Attempt, BenchMaker, Cause, End, RemoteCause, Sources, World};
use std::sync::Wait;

/// What an attempt of a race hands back.
#[derive(Drop)]
pub(crate) struct Finisher<K: Contest, C, A, S> {
    /// What its end was told, or that it wasn't started.
    pub ticket: Ticket<K>,
    pub end: Option<End<Held, C>>,
    pub runner: A,
    pub tree: S,
}

/// Makes the local attempt, where it was started, and offers its end.
pub(crate) fn race_here<
    W: World,
    K: Contest,
    H: Halt,
    N: Places,
    B: BenchMaker<W>,
    S: Sources<W>,
    R: Wait,
>(
    rt: &R,
    job: &Job<'_, H, N>,
    race: &SharedRace<K>,
    near: Entrant<Start<K>, B, S>,
) -> Finisher<K, Cause, B, S>
    requires { IsStart (λ live. live.attempt) (λ no_start. no_start.ticket)
        local_attempt (is_due (λ no_start. no_start.ticket) near.start) near.start }
    ensures { HasRacedHere W.World B.BenchMaker B.B.Bench S.Sources
        K.plan (is_due (λ no_start. no_start.ticket) near.start) job.now.gathered.now
        near.runner result.runner near.tree result.tree
        (whole result.end) result.ticket }
{
    let Entrant {
        start,
        runner,
        tree,
    } = near;
    let (mut runner, mut tree) = (runner, tree);
    let (ticket, end) = match start {
        Ok(live) => {
            let mut looking = Looking::new(rt, race, live);
            let end = run_here::<W, H, N, B, S, Looking<'_, K, R>>(
                job,
                &mut runner,
                &mut tree,
                &mut looking,
            );
            offer(looking, end)
        }
        Err(refused) => (refused.ticket, None),
    };
    halt_loser(rt, job, &ticket, Attempt::Remote);
    Finisher {
        ticket,
        end,
        runner,
        tree,
    }
}

/// Makes the remote attempt, where it was started, and offers its end.
pub(crate) fn race_there<
    W: World,
    K: Contest,
    H: Halt,
    N: Places,
    C: Caller<W>,
    S: Sources<W>,
    R: Wait,
>(
    rt: &R,
    job: &Job<'_, H, N>,
    race: &SharedRace<K>,
    far: Entrant<Start<K>, C, S>,
) -> Finisher<K, RemoteCause, C, S>
    requires start { IsStart (λ live. live.attempt) (λ no_start. no_start.ticket)
        remote_attempt (is_due (λ no_start. no_start.ticket) far.start) far.start }
    requires fits { FitsFarm job.now.gathered.now }
    ensures { HasRacedThere W.World C.Caller S.Sources
        K.plan (is_due (λ no_start. no_start.ticket) far.start) job.now.gathered.now
        job.now.accept_cached far.runner result.runner far.tree result.tree
        (whole result.end) result.ticket }
{
    let Entrant {
        start,
        runner,
        tree,
    } = far;
    let (mut runner, mut tree) = (runner, tree);
    let (ticket, end) = match start {
        Ok(live) => {
            let mut looking = Looking::new(rt, race, live);
            let end = run_there::<W, H, N, C, S, Looking<'_, K, R>>(
                rt,
                job,
                &mut runner,
                &mut tree,
                &mut looking,
            );
            offer(looking, end)
        }
        Err(refused) => (refused.ticket, None),
    };
    halt_loser(rt, job, &ticket, Attempt::Local);
    Finisher {
        ticket,
        end,
        runner,
        tree,
    }
}

/// Has the other attempt end soon, or its wait for a slot, where both run at once and this one won.
fn halt_loser<K: Contest, H: Halt, N: Places>(
    rt: &impl Wait,
    job: &Job<'_, H, N>,
    ticket: &Ticket<K>,
    other: Attempt,
) {
    if has_both(job.gathered.plan) && ticket.slip() == Slip::Told(Verdict::Won) {
        job.halter.halt(other);
        job.slots.wake(rt);
    }
}

/// Offers the end of an attempt, as it is held.
fn offer<K: Contest, R: Wait, C: Drop>(
    looking: Looking<'_, K, R>,
    end: End<Held, C>,
) -> (Ticket<K>, Option<End<Held, C>>)
    ensures end { whole result.1 ≡ Some (whole_end end) }
    ensures seat { result.0.seat ≡ of_attempt looking.entry.attempt }
    ensures fits { FitsEnd K.plan looking.entry.attempt true looking.entry.seen
        (whole (Some end)) result.0.slip }
{
    match end {
        End::Done {
            outcome: held,
            origin,
        } => {
            let Held { outcome, short } = held;
            let end: End<_, C> = End::Done { outcome, origin };
            let ticket = looking.offer(&end).ticket;
            let (outcome, origin) = match end {
                End::Done { outcome, origin } => (outcome, origin),
                End::Failed { cause: _cause } => unreachable!(),
            };
            let outcome = Held { outcome, short };
            (ticket, Some(End::Done { outcome, origin }))
        }
        End::Failed { cause } => {
            let end = End::Failed { cause };
            let ticket = looking.offer(&end).ticket;
            let cause = match end {
                End::Failed { cause } => cause,
                End::Done {
                    outcome: _outcome,
                    origin: _,
                } => unreachable!(),
            };
            (ticket, Some(End::Failed { cause }))
        }
    }
}
