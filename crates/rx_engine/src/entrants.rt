//! Attempts as they enter their race: which start, and which the plan leaves out. Nothing here runs.

ghost use Rattle.std.specs.Prelude.{◌≡◌, false, true};
ghost use Rattle.rx_engine.specs.Plans.{has_remote, is_due_here};
ghost use Rattle.rx_engine.specs.RacedAttempts.{IsStart};
ghost use Rattle.rx_race.specs.declared.events.Verdict.TheVariants.{Noted as noted};
ghost use Rattle.rx_race.specs.declared.slips.Seat.TheVariants.{Of as of_attempt};
ghost use Rattle.rx_race.specs.declared.slips.Slip.TheVariants.{Told as told};
ghost use Rattle.rx_race.specs.Locked.{falls_back};
ghost use Rattle.rx_race.specs.Standings.{in_plan};
ghost use Rattle.rx_world.specs.declared.attempts.Attempt.TheVariants.{Local as local_attempt, Remote as remote_attempt};

use crate::plans::has_remote;
use rx_race::{Contest, Live, Mark, NoStart, SharedRace, Slip, StartPass, Ticket, Verdict};
use rx_world::Plan;
use std::sync::Wait;

/// An attempt that was started in a race, or wasn't.
pub(crate) type Start<K> = Result<Live<K>, NoStart<K>>;

/// What an attempt of a race takes into its thread.
#[derive(Drop)]
pub(crate) struct Entrant<E, A, S> {
    /// The right to start, or what came of that.
    pub start: E,
    /// What the attempt runs by: benches, or a farm's client.
    pub runner: A,
    pub tree: S,
}

/// Starts an attempt of the plan that waits for no other one, unless the race is decided.
pub(crate) fn enter<K: Contest, A, S>(
    rt: &impl Wait,
    race: &SharedRace<K>,
    entrant: Entrant<StartPass<K>, A, S>,
) -> Entrant<Start<K>, A, S>
    requires planned { in_plan K.plan entrant.start.attempt ≡ true }
    requires first { falls_back K.plan entrant.start.attempt ≡ false }
    ensures start { IsStart (λ live. live.attempt) (λ no_start. no_start.ticket)
        entrant.start.attempt true result.start }
    ensures runner { result.runner ≡ entrant.runner }
    ensures tree { result.tree ≡ entrant.tree }
{
    let Entrant {
        start,
        runner,
        tree,
    } = entrant;
    Entrant {
        start: race.start(rt, start),
        runner,
        tree,
    }
}

/// Leaves an attempt out: its pass isn't used.
fn leave_out<K: Contest, A, S>(entrant: Entrant<StartPass<K>, A, S>) -> Entrant<Start<K>, A, S>
    ensures start { IsStart (λ live. live.attempt) (λ no_start. no_start.ticket)
        entrant.start.attempt false result.start }
    ensures runner { result.runner ≡ entrant.runner }
    ensures tree { result.tree ≡ entrant.tree }
{
    let Entrant {
        start,
        runner,
        tree,
    } = entrant;
    let StartPass { attempt, ticket } = start;
    Entrant {
        start: Err(NoStart { attempt, ticket }),
        runner,
        tree,
    }
}

/// Starts the remote attempt, where the plan has one.
pub(crate) fn enter_there<K: Contest, A, S>(
    rt: &impl Wait,
    race: &SharedRace<K>,
    plan: Plan,
    far: Entrant<StartPass<K>, A, S>,
) -> Entrant<Start<K>, A, S>
    requires plan { plan ≡ K.plan }
    requires attempt { far.start.attempt ≡ remote_attempt }
    ensures start { IsStart (λ live. live.attempt) (λ no_start. no_start.ticket)
        remote_attempt (has_remote K.plan) result.start }
    ensures runner { result.runner ≡ far.runner }
    ensures tree { result.tree ≡ far.tree }
{
    if has_remote(plan) {
        return enter(rt, race, far);
    }
    leave_out(far)
}

/// Starts the local attempt, where it is to start now that the remote one ended so or wasn't started.
/// Where it falls back, that is where the remote end was noted.
pub(crate) fn enter_here<K: Contest, A, S>(
    rt: &impl Wait,
    race: &SharedRace<K>,
    plan: Plan,
    near: Entrant<StartPass<K>, A, S>,
    remote: Ticket<K>,
) -> (Entrant<Start<K>, A, S>, Ticket<K>)
    requires plan { plan ≡ K.plan }
    requires attempt { near.start.attempt ≡ local_attempt }
    requires seat { remote.seat ≡ of_attempt remote_attempt }
    ensures start { IsStart (λ live. live.attempt) (λ no_start. no_start.ticket)
        local_attempt (is_due_here K.plan remote.slip) result.0.start }
    ensures runner { result.0.runner ≡ near.runner }
    ensures tree { result.0.tree ≡ near.tree }
    ensures remote { result.1 ≡ remote }
{
    match plan {
        Plan::LocalOnly => (enter(rt, race, near), remote),
        Plan::Both => (enter(rt, race, near), remote),
        Plan::RemoteOnly => (leave_out(near), remote),
        Plan::Fallback => match remote.slip() {
            Slip::Told(Verdict::Noted) => fall_back(rt, race, near, remote),
            _ => (leave_out(near), remote),
        },
    }
}

/// Starts the local attempt after the remote one was noted.
fn fall_back<K: Contest, A, S>(
    rt: &impl Wait,
    race: &SharedRace<K>,
    near: Entrant<StartPass<K>, A, S>,
    remote: Ticket<K>,
) -> (Entrant<Start<K>, A, S>, Ticket<K>)
    requires planned { in_plan K.plan near.start.attempt ≡ true }
    requires seat { remote.seat ≡ of_attempt remote_attempt }
    requires noted { remote.slip ≡ told noted }
    ensures start { IsStart (λ live. live.attempt) (λ no_start. no_start.ticket)
        near.start.attempt true result.0.start }
    ensures runner { result.0.runner ≡ near.runner }
    ensures tree { result.0.tree ≡ near.tree }
    ensures remote { result.1 ≡ remote }
{
    let Entrant {
        start,
        runner,
        tree,
    } = near;
    let mut mark = Mark {
        verdict: Verdict::Noted,
        ticket: remote,
    };
    let start = race.start_after(rt, start, &mut mark);
    let near = Entrant {
        start,
        runner,
        tree,
    };
    (near, mark.ticket)
}
