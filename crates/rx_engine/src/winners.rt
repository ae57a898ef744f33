//! What is kept and published of the ends of attempts. Nothing here runs or publishes.

ghost use Rattle.std.specs.Prelude.{◌≡◌, ◌≤◌, ◌++◌, [], is_some, vec_capacity};
ghost use Rattle.rx_engine.specs.Attempts.{IsMadeOf, first_won, in_order, listed, listed_local, listed_remote, unless_cancelled, won_by, won_remote, whole};
ghost use Rattle.rx_engine.specs.Racing.{first_by};

use crate::attempts::{Attempted, Heard, MOST_ATTEMPTS, Won};
use crate::ends::let_go;
use crate::held::Held;
use crate::transcripts::{Passes, Tally};
use rx_base::Items;
use rx_race::{Slip, Verdict};
use rx_world::{Attempt, Cause, End, Ended, KeptOutcome, Plan, RemoteCause};

/// Whether a remote end may be published: an outcome of code 0 may, and of any code where the plan has
/// no local attempt.
fn may_publish(plan: Plan, there: &Option<End<Held, RemoteCause>>) -> bool
    ensures { result ≡ is_some (won_remote plan (whole there.now)) }
{
    match there {
        Some(
            End::Done {
                outcome: held,
                origin: _,
            },
        ) => match plan {
            Plan::RemoteOnly => true,
            _ => held.outcome.exit.code == 0,
        },
        _ => false,
    }
}

/// What is kept and published of these ends, by what became of the passes of their race, and what was
/// heard meanwhile.
pub(crate) fn kept_and_won(
    plan: Plan,
    room: Vec<Ended>,
    passes: Passes,
    here: Option<End<Held, Cause>>,
    there: Option<End<Held, RemoteCause>>,
    heard: Heard,
) -> Attempted
    requires empty { room.items ≡ [] }
    requires room { MOST_ATTEMPTS ≤ vec_capacity room }
    ensures { IsMadeOf plan passes (whole here) (whole there) heard result }
{
    let first = first_by(passes.remote);
    let may = may_publish(plan, &there);
    let (end_here, won_here) = let_go(here);
    let (end_there, outcome_there) = let_go(there);
    let won_there = if may { outcome_there } else { None };
    Attempted {
        tally: Tally {
            ends: ends_of(room, first, end_here, end_there),
            passes,
        },
        won: unless_cancelled(passes.cancel, won_by(first, won_here, won_there)),
        heard,
    }
}

/// Of what is to be published nothing, where the race was cancelled.
fn unless_cancelled(cancel: Slip, won: Option<Won>) -> Option<Won>
    ensures { result ≡ unless_cancelled cancel won }
{
    match cancel {
        Slip::Told(Verdict::Won) => None,
        _ => won,
    }
}

/// The attempt that is published before the other, by what became of the remote one's pass.
fn first_by(remote: Slip) -> Attempt
    ensures { result ≡ first_by remote }
{
    match remote {
        Slip::Told(Verdict::Won) => Attempt::Remote,
        _ => Attempt::Local,
    }
}

/// The outcome of the first attempt, or else that of the other.
fn won_by(first: Attempt, here: Option<Won>, there: Option<Won>) -> Option<Won>
    ensures { result ≡ won_by first here there }
{
    match first {
        Attempt::Local => first_won(here, there),
        Attempt::Remote => first_won(there, here),
    }
}

fn first_won(one: Option<Won>, other: Option<Won>) -> Option<Won>
    ensures { result ≡ first_won one other }
{
    match one {
        Some(won) => Some(won),
        None => other,
    }
}

/// These ends, that of the first attempt before the other's, in the room that was taken.
fn ends_of(
    room: Vec<Ended>,
    first: Attempt,
    here: Option<End<KeptOutcome, Cause>>,
    there: Option<End<KeptOutcome, RemoteCause>>,
) -> Items<Ended>
    requires empty { room.items ≡ [] }
    requires room { MOST_ATTEMPTS ≤ vec_capacity room }
    ensures { result ≡ in_order first (listed_local here) (listed_remote there) }
{
    let (here, there) = (ended_here(here), ended_there(there));
    match first {
        Attempt::Local => both_of(room, here, there),
        Attempt::Remote => both_of(room, there, here),
    }
}

fn ended_here(end: Option<End<KeptOutcome, Cause>>) -> Option<Ended>
    ensures { listed result ≡ listed_local end }
{
    match end {
        Some(end) => Some(Ended::Local { end }),
        None => None,
    }
}

fn ended_there(end: Option<End<KeptOutcome, RemoteCause>>) -> Option<Ended>
    ensures { listed result ≡ listed_remote end }
{
    match end {
        Some(end) => Some(Ended::Remote { end }),
        None => None,
    }
}

/// One end before the other, where there are any.
fn both_of(room: Vec<Ended>, one: Option<Ended>, other: Option<Ended>) -> Items<Ended>
    requires empty { room.items ≡ [] }
    requires room { MOST_ATTEMPTS ≤ vec_capacity room }
    ensures { result ≡ listed one ++ listed other }
{
    let mut ends = room;
    if let Some(end) = one {
        ends.push(end).unwrap();
    }
    if let Some(end) = other {
        ends.push(end).unwrap();
    }
    Items::from_vec(ends)
}
