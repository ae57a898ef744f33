//! Shared races of `rx_race` at a concrete type: attempts in threads, and one that looks. What each call
//! of a race answers is in the rows of `race_rows`, which take no lock.

ghost use Rattle.std.specs.Prelude.{◌≡◌};
ghost use Rattle.rx_race.specs.declared.slips.Seat.TheVariants.{Of as of_attempt};
ghost use Rattle.rx_race.specs.Slips.{AreBlank};
ghost use Rattle.rx_world.specs.declared.attempts.Attempt.TheVariants.{Local as local_attempt, Remote as remote_attempt};
ghost use Rattle.rx_world.specs.declared.attempts.Plan.TheVariants.{Both as both, LocalOnly as local_only};

use rx_base::{Bytes, Items, NoMemory};
use rx_race::{Blanks, Contest, Looking, Mark, SharedRace, Verdict};
use rx_rows::{Answer, RowFault};
use rx_world::{Cause, Decision, End, Exit, Origin, Outcome, Plan, RemoteCause, Stop};
use std::alloc::Global;
use std::marker::Brand;
use std::sync::Wait;
use std::thread::{Threads, join};

/// An end of the local attempt that may be published.
fn done(alloc: Global) -> End<Outcome, Cause> {
    End::Done {
        outcome: Outcome {
            exit: Exit {
                code: 1,
                stdout: Bytes::new(alloc),
                stderr: Bytes::new(alloc),
            },
            files: Items::new(alloc),
        },
        origin: Origin::Local,
    }
}

/// What a race of both attempts told them, and how it was decided.
#[derive(Clone, Copy)]
pub(crate) struct Told {
    local: Verdict,
    remote: Verdict,
    decision: Decision,
}

/// Both attempts offer, each in a thread: the local one what may be published, the remote one what
/// may not.
fn race_both<K: Contest + Send + Sync, R: Threads + Wait + Sync>(
    rt: &R,
    alloc: Global,
    blanks: Blanks,
) -> Result<Option<Told>, NoMemory>
    requires plan { both ≡ K.plan }
    requires blanks { AreBlank blanks K.local K.remote K.cancel }
{
    let (race, cancel, local, remote) = SharedRace::<K>::new(alloc, Plan::Both, blanks)?;
    let (Ok(local), Ok(remote)) = (race.start(rt, local), race.start(rt, remote)) else {
        return Ok(None);
    };
    let (local_end, remote_end) = (
        done(alloc),
        End::Failed {
            cause: RemoteCause::NoMemory,
        },
    );
    let (local, remote) = join(
        rt,
        || -> Mark<K>
            requires { local.attempt ≡ local_attempt }
            ensures { result.ticket.seat ≡ of_attempt local_attempt }
        { race.offer(rt, local, &local_end) },
        || -> Mark<K>
            requires { remote.attempt ≡ remote_attempt }
            ensures { result.ticket.seat ≡ of_attempt remote_attempt }
        { race.offer(rt, remote, &remote_end) },
    );
    let (decision, _) = race.wait_change(rt, Decision::Undecided, (false, false));
    let told = Told {
        local: local.verdict,
        remote: remote.verdict,
        decision,
    };
    race.close(local.ticket, remote.ticket, cancel.ticket);
    Ok(Some(told))
}

/// A race of both attempts in threads, whose ledgers are made here.
pub(crate) fn raced<R: Threads + Wait + Sync>(
    rt: &R,
    alloc: Global,
) -> Result<Option<Told>, NoMemory> {
    race_both::<Brand, R>(rt, alloc, Blanks::new())
}

/// `shared_race`: what the offers of both attempts were told, and the decision. The remote attempt is late or
/// noted, as the threads ran, so the row says no more than that it didn't win.
pub(crate) fn answer_raced(raced: &Option<Told>, answer: &mut Answer) -> Result<(), RowFault> {
    let Some(told) = raced else {
        return Err(RowFault::BadCall);
    };
    answer.word("local")?;
    answer.value(&told.local)?;
    answer.word("remote")?;
    answer.word(if told.remote == Verdict::Won {
        "Won"
    } else {
        "not-won"
    })?;
    answer.word("decision")?;
    answer.value(&told.decision)?;
    Ok(())
}

/// What a running attempt sees of a cancel: before it, after it, and what its offer is told then.
#[derive(Clone, Copy)]
struct Seen {
    before: Option<Decision>,
    after: Option<Decision>,
    verdict: Verdict,
}

/// Asks whether an attempt is to stop.
fn ask<T: Stop>(stop: &mut T) -> Option<Decision> {
    stop.seen()
}

/// The local attempt asks before and after a cancel, and then offers what may be published.
fn look_twice<K: Contest, R: Wait>(
    rt: &R,
    alloc: Global,
    blanks: Blanks,
) -> Result<Option<Seen>, NoMemory>
    requires plan { local_only ≡ K.plan }
    requires blanks { AreBlank blanks K.local K.remote K.cancel }
{
    let (race, cancel, local, _) = SharedRace::<K>::new(alloc, Plan::LocalOnly, blanks)?;
    let Ok(live) = race.start(rt, local) else {
        return Ok(None);
    };
    let mut looking = Looking::new(rt, &race, live);
    let before = ask(&mut looking);
    race.cancel(rt, cancel);
    let after = ask(&mut looking);
    let verdict = looking.offer(&done(alloc)).verdict;
    Ok(Some(Seen {
        before,
        after,
        verdict,
    }))
}

/// `cancel`: what the attempt sees before and after the cancel, and what its offer is told.
pub(crate) fn answer_cancel<R: Wait>(
    rt: &R,
    alloc: Global,
    answer: &mut Answer,
) -> Result<(), RowFault> {
    let Some(seen) = look_twice::<Brand, R>(rt, alloc, Blanks::new())? else {
        return Err(RowFault::BadCall);
    };
    answer.word("before")?;
    answer.value(&seen.before)?;
    answer.word("after")?;
    answer.value(&seen.after)?;
    answer.word("offer")?;
    answer.value(&seen.verdict)?;
    Ok(())
}
