//! The attempts of a session in a race of their own: at once where the plan has both so, and else in turn.
//! The first end that may be published wins, and another attempt that runs is told to stop. A client that
//! may cancel is watched meanwhile. Nothing here publishes or replies.

ghost use Rattle.std.specs.Prelude.{◌≡◌, [], true};
ghost use Rattle.rx_engine.specs.Attempts.{whole};
ghost use Rattle.rx_engine.specs.Meanings.{meanings};
ghost use Rattle.rx_engine.specs.Plans.{has_both, has_remote, is_due_here};
ghost use Rattle.rx_engine.specs.RacedAttempts.{HasRaced, HasRacedHere, HasRacedThere, IsStart, is_due};
ghost use Rattle.rx_engine.specs.RemoteAttempts.{FitsFarm};
ghost use Rattle.rx_engine.specs.Watching.{HasListened, HasWatched, Listens};
ghost use Rattle.rx_race.specs.Slips.{AreBlank};
ghost use Rattle.rx_world.specs.declared.attempts.Attempt.TheVariants.{Local as local_attempt, Remote as remote_attempt};

use crate::attempts::{Heard, Job};
use crate::desk::{Desk, Parts};
use crate::entrants::{Entrant, Start, enter, enter_here, enter_there};
use crate::finishers::{Finisher, race_here, race_there};
use crate::halts::Halt;
use crate::held::Held;
use crate::plans::has_both;
use crate::transcripts::Passes;
use crate::watchers::{Watched, Watcher, leave_unwatched, watch};
use rx_exec_messages::Caller;
use rx_local::Places;
use rx_race::{Blanks, Contest, Race, SharedRace, StartPass};
use rx_world::{BenchMaker, Cause, End, RemoteCause, Source, Sources, World};
use std::sync::Wait;
use std::thread::{Threads, join};

/// How the attempts ended, of which one that wasn't started has no end, and what became of their passes.
#[derive(Drop)]
pub(crate) struct Raced {
    pub here: Option<End<Held, Cause>>,
    pub there: Option<End<Held, RemoteCause>>,
    pub passes: Passes,
    pub heard: Heard,
}

/// Makes the attempts of the plan on what was gathered. This returns when each that was started has
/// ended, and so has the watcher.
pub(crate) fn race<
    W: World + Send,
    K: Contest + Send + Sync,
    D: Desk<W>,
    N: Places + Send + Sync,
    R: Threads + Wait + Sync,
>(
    rt: &R,
    job: &Job<'_, D::H, N>,
    race: Race,
    blanks: Blanks,
    parts: Parts<D::I, D::O, D::T, D::L, D::B, D::R, D::C>,
) -> (Raced, Parts<D::I, D::O, D::T, D::L, D::B, D::R, D::C>)
    requires fits { FitsFarm job.now.gathered.now }
    requires plan { job.now.gathered.now.plan ≡ K.plan }
    requires race { race ≡ record { plan = K.plan; events = [] } }
    requires blanks { AreBlank blanks K.local K.remote K.cancel }
    ensures raced { HasRaced
        (meanings W.World D.I.Source D.O.Sink D.T.Sources D.L.Sources D.B.BenchMaker D.B.B.Bench
        D.R.Sources D.C.Caller)
        job.now.gathered.now job.now.accept_cached parts result.1
        (whole result.0.here) (whole result.0.there) result.0.passes }
    ensures heard { Listens D.I.Source job.now.watch parts.input result.1.input
        result.0.heard result.0.passes.cancel }
    ensures output { result.1.output ≡ parts.output }
    ensures tree { result.1.tree ≡ parts.tree }
{
    let (race, cancel, local, remote) = SharedRace::<K>::of(race, blanks);
    let near = Entrant {
        start: local,
        runner: parts.benches,
        tree: parts.tree_local,
    };
    let far = Entrant {
        start: remote,
        runner: parts.farm,
        tree: parts.tree_remote,
    };
    let watcher = Watcher {
        pass: cancel,
        input: parts.input,
    };
    let (near, far, watched) = run_watched::<W, K, D::H, N, D::I, D::B, D::L, D::C, D::R, R>(
        rt, job, &race, watcher, near, far,
    );
    let (local, remote, cancel) = race.close(near.ticket, far.ticket, watched.ticket);
    let raced = Raced {
        here: near.end,
        there: far.end,
        passes: Passes {
            local: local.slip(),
            remote: remote.slip(),
            cancel: cancel.slip(),
        },
        heard: watched.heard,
    };
    let parts = Parts {
        input: watched.input,
        output: parts.output,
        tree: parts.tree,
        tree_local: near.tree,
        benches: near.runner,
        tree_remote: far.tree,
        farm: far.runner,
    };
    (raced, parts)
}

/// Runs the attempts of the plan, and watches the client meanwhile where it may cancel: in a thread of
/// its own, whose wait ends with the attempts. Where no thread can be started, the client is heard after
/// them, and its cancel is late.
fn run_watched<
    W: World + Send,
    K: Contest + Send + Sync,
    H: Halt + Sync,
    N: Places + Send + Sync,
    I: Source + Send + Drop,
    B: BenchMaker<W> + Send + Drop,
    L: Sources<W> + Send + Drop,
    C: Caller<W> + Send + Drop,
    S: Sources<W> + Send + Drop,
    R: Threads + Wait + Sync,
>(
    rt: &R,
    job: &Job<'_, H, N>,
    race: &SharedRace<K>,
    watcher: Watcher<K, I>,
    near: Entrant<StartPass<K>, B, L>,
    far: Entrant<StartPass<K>, C, S>,
) -> (
    Finisher<K, Cause, B, L>,
    Finisher<K, RemoteCause, C, S>,
    Watched<K, I>,
)
    requires fits { FitsFarm job.now.gathered.now }
    requires plan { job.now.gathered.now.plan ≡ K.plan }
    requires near { near.start.attempt ≡ local_attempt }
    requires far { far.start.attempt ≡ remote_attempt }
    ensures near { HasRacedHere W.World B.BenchMaker B.B.Bench L.Sources
        K.plan (is_due_here K.plan result.1.ticket.slip) job.now.gathered.now
        near.runner result.0.runner near.tree result.0.tree
        (whole result.0.end) result.0.ticket }
    ensures far { HasRacedThere W.World C.Caller S.Sources
        K.plan (has_remote K.plan) job.now.gathered.now job.now.accept_cached
        far.runner result.1.runner far.tree result.1.tree
        (whole result.1.end) result.1.ticket }
    ensures listened { HasListened I.Source job.now.watch watcher.input
        result.2.input result.2.heard result.2.ticket }
{
    if !job.watch {
        let (near, far) = run_all::<W, K, H, N, B, L, C, S, R>(rt, job, race, near, far);
        return (near, far, leave_unwatched(job, watcher));
    }
    job.halter.allow_silence();
    let (watched, (near, far)) = join(
        rt,
        move || -> Watched<K, I>
            ensures { HasWatched I.Source watcher.input result.input
                result.heard result.ticket }
        { watch::<K, H, N, I, R>(rt, job, race, watcher) },
        move || -> (Finisher<K, Cause, B, L>, Finisher<K, RemoteCause, C, S>)
            requires fits { FitsFarm job.now.gathered.now }
            requires plan { job.now.gathered.now.plan ≡ K.plan }
            requires near { near.start.attempt ≡ local_attempt }
            requires far { far.start.attempt ≡ remote_attempt }
            ensures near { HasRacedHere W.World B.BenchMaker B.B.Bench L.Sources
                K.plan (is_due_here K.plan result.1.ticket.slip) job.entry.now.gathered.now
                near.runner result.0.runner near.tree result.0.tree
                (whole result.0.end) result.0.ticket }
            ensures far { HasRacedThere W.World C.Caller S.Sources
                K.plan (has_remote K.plan) job.entry.now.gathered.now
                job.entry.now.accept_cached
                far.runner result.1.runner far.tree result.1.tree
                (whole result.1.end) result.1.ticket }
        { run_and_halt::<W, K, H, N, B, L, C, S, R>(rt, job, race, near, far) },
    );
    (near, far, watched)
}

/// Runs the attempts of the plan, and then ends the wait for the client.
fn run_and_halt<
    W: World + Send,
    K: Contest + Send + Sync,
    H: Halt + Sync,
    N: Places + Send + Sync,
    B: BenchMaker<W> + Send + Drop,
    L: Sources<W> + Send + Drop,
    C: Caller<W> + Send + Drop,
    S: Sources<W> + Send + Drop,
    R: Threads + Wait + Sync,
>(
    rt: &R,
    job: &Job<'_, H, N>,
    race: &SharedRace<K>,
    near: Entrant<StartPass<K>, B, L>,
    far: Entrant<StartPass<K>, C, S>,
) -> (Finisher<K, Cause, B, L>, Finisher<K, RemoteCause, C, S>)
    requires fits { FitsFarm job.now.gathered.now }
    requires plan { job.now.gathered.now.plan ≡ K.plan }
    requires near { near.start.attempt ≡ local_attempt }
    requires far { far.start.attempt ≡ remote_attempt }
    ensures near { HasRacedHere W.World B.BenchMaker B.B.Bench L.Sources
        K.plan (is_due_here K.plan result.1.ticket.slip) job.now.gathered.now
        near.runner result.0.runner near.tree result.0.tree
        (whole result.0.end) result.0.ticket }
    ensures far { HasRacedThere W.World C.Caller S.Sources
        K.plan (has_remote K.plan) job.now.gathered.now job.now.accept_cached
        far.runner result.1.runner far.tree result.1.tree
        (whole result.1.end) result.1.ticket }
{
    let ended = run_all::<W, K, H, N, B, L, C, S, R>(rt, job, race, near, far);
    job.halter.halt_input();
    ended
}

/// Runs the attempts of the plan: both at once where the plan has them so, and else in turn.
fn run_all<
    W: World + Send,
    K: Contest + Send + Sync,
    H: Halt + Sync,
    N: Places + Send + Sync,
    B: BenchMaker<W> + Send + Drop,
    L: Sources<W> + Send + Drop,
    C: Caller<W> + Send + Drop,
    S: Sources<W> + Send + Drop,
    R: Threads + Wait + Sync,
>(
    rt: &R,
    job: &Job<'_, H, N>,
    race: &SharedRace<K>,
    near: Entrant<StartPass<K>, B, L>,
    far: Entrant<StartPass<K>, C, S>,
) -> (Finisher<K, Cause, B, L>, Finisher<K, RemoteCause, C, S>)
    requires fits { FitsFarm job.now.gathered.now }
    requires plan { job.now.gathered.now.plan ≡ K.plan }
    requires near { near.start.attempt ≡ local_attempt }
    requires far { far.start.attempt ≡ remote_attempt }
    ensures near { HasRacedHere W.World B.BenchMaker B.B.Bench L.Sources
        K.plan (is_due_here K.plan result.1.ticket.slip) job.now.gathered.now
        near.runner result.0.runner near.tree result.0.tree
        (whole result.0.end) result.0.ticket }
    ensures far { HasRacedThere W.World C.Caller S.Sources
        K.plan (has_remote K.plan) job.now.gathered.now job.now.accept_cached
        far.runner result.1.runner far.tree result.1.tree
        (whole result.1.end) result.1.ticket }
{
    let plan = job.gathered.plan;
    let far = enter_there::<K, C, S>(rt, race, plan, far);
    if has_both(plan) {
        return run_both::<W, K, H, N, B, L, C, S, R>(rt, job, race, near, far);
    }
    run_in_turn::<W, K, H, N, B, L, C, S, R>(rt, job, race, near, far)
}

/// Runs the attempts one after the other: the remote one, and then the local one once there is a slot,
/// each where it is to start.
fn run_in_turn<
    W: World,
    K: Contest,
    H: Halt,
    N: Places,
    B: BenchMaker<W>,
    L: Sources<W>,
    C: Caller<W>,
    S: Sources<W>,
    R: Wait,
>(
    rt: &R,
    job: &Job<'_, H, N>,
    race: &SharedRace<K>,
    near: Entrant<StartPass<K>, B, L>,
    far: Entrant<Start<K>, C, S>,
) -> (Finisher<K, Cause, B, L>, Finisher<K, RemoteCause, C, S>)
    requires fits { FitsFarm job.now.gathered.now }
    requires plan { job.now.gathered.now.plan ≡ K.plan }
    requires near { near.start.attempt ≡ local_attempt }
    requires far { IsStart (λ live. live.attempt) (λ no_start. no_start.ticket)
        remote_attempt (has_remote K.plan) far.start }
    ensures near { HasRacedHere W.World B.BenchMaker B.B.Bench L.Sources
        K.plan (is_due_here K.plan result.1.ticket.slip) job.now.gathered.now
        near.runner result.0.runner near.tree result.0.tree
        (whole result.0.end) result.0.ticket }
    ensures far { HasRacedThere W.World C.Caller S.Sources
        K.plan (has_remote K.plan) job.now.gathered.now job.now.accept_cached
        far.runner result.1.runner far.tree result.1.tree
        (whole result.1.end) result.1.ticket }
{
    let far = race_there::<W, K, H, N, C, S, R>(rt, job, race, far);
    let Finisher {
        ticket,
        end,
        runner,
        tree,
    } = far;
    let (near, ticket) = enter_here::<K, B, L>(rt, race, job.gathered.plan, near, ticket);
    let near = race_in_slot::<W, K, H, N, B, L, R>(rt, job, race, near);
    let far = Finisher {
        ticket,
        end,
        runner,
        tree,
    };
    (near, far)
}

/// Makes the local attempt, where it was started, once there is a slot for it. Where the race is decided before,
/// there may be none: then the attempt stops as it begins.
fn race_in_slot<W: World, K: Contest, H: Halt, N: Places, B: BenchMaker<W>, S: Sources<W>, R: Wait>(
    rt: &R,
    job: &Job<'_, H, N>,
    race: &SharedRace<K>,
    near: Entrant<Start<K>, B, S>,
) -> Finisher<K, Cause, B, S>
    requires { IsStart (λ live. live.attempt) (λ no_start. no_start.ticket)
        local_attempt (is_due (λ no_start. no_start.ticket) near.start) near.start }
    ensures { HasRacedHere W.World B.BenchMaker B.B.Bench S.Sources
        K.plan (is_due (λ no_start. no_start.ticket) near.start) job.now.gathered.now
        near.runner result.runner near.tree result.tree
        (whole result.end) result.ticket }
{
    if near.start.is_err() {
        return race_here::<W, K, H, N, B, S, R>(rt, job, race, near);
    }
    let slot = job.slots.take(rt, || race.is_decided(rt));
    let ended = race_here::<W, K, H, N, B, S, R>(rt, job, race, near);
    if let Some(slot) = slot {
        job.slots.give(rt, slot);
    }
    ended
}

/// The same of an attempt that waits for no other one. It starts when it has its slot, so that it is refused where
/// the race was decided meanwhile.
fn enter_in_slot<
    W: World,
    K: Contest,
    H: Halt,
    N: Places,
    B: BenchMaker<W>,
    S: Sources<W>,
    R: Wait,
>(
    rt: &R,
    job: &Job<'_, H, N>,
    race: &SharedRace<K>,
    near: Entrant<StartPass<K>, B, S>,
) -> Finisher<K, Cause, B, S>
    requires both { has_both K.plan ≡ true }
    requires near { near.start.attempt ≡ local_attempt }
    ensures { HasRacedHere W.World B.BenchMaker B.B.Bench S.Sources
        K.plan true job.now.gathered.now near.runner result.runner
        near.tree result.tree (whole result.end) result.ticket }
{
    let slot = job.slots.take(rt, || race.is_decided(rt));
    let near = enter::<K, B, S>(rt, race, near);
    let ended = race_here::<W, K, H, N, B, S, R>(rt, job, race, near);
    if let Some(slot) = slot {
        job.slots.give(rt, slot);
    }
    ended
}

/// Runs both attempts: the local one in a thread of its own, which waits for a slot, and the remote one in this.
/// Where no thread can be started, the local one comes after the remote one, and doesn't start where that won.
fn run_both<
    W: World + Send,
    K: Contest + Send + Sync,
    H: Halt + Sync,
    N: Places + Send + Sync,
    B: BenchMaker<W> + Send + Drop,
    L: Sources<W> + Send + Drop,
    C: Caller<W> + Send + Drop,
    S: Sources<W> + Send + Drop,
    R: Threads + Wait + Sync,
>(
    rt: &R,
    job: &Job<'_, H, N>,
    race: &SharedRace<K>,
    near: Entrant<StartPass<K>, B, L>,
    far: Entrant<Start<K>, C, S>,
) -> (Finisher<K, Cause, B, L>, Finisher<K, RemoteCause, C, S>)
    requires fits { FitsFarm job.now.gathered.now }
    requires both { has_both K.plan ≡ true }
    requires near { near.start.attempt ≡ local_attempt }
    requires far { IsStart (λ live. live.attempt) (λ no_start. no_start.ticket)
        remote_attempt (has_remote K.plan) far.start }
    ensures near { HasRacedHere W.World B.BenchMaker B.B.Bench L.Sources
        K.plan (is_due_here K.plan result.1.ticket.slip) job.now.gathered.now
        near.runner result.0.runner near.tree result.0.tree
        (whole result.0.end) result.0.ticket }
    ensures far { HasRacedThere W.World C.Caller S.Sources
        K.plan (has_remote K.plan) job.now.gathered.now job.now.accept_cached
        far.runner result.1.runner far.tree result.1.tree
        (whole result.1.end) result.1.ticket }
{
    join(
        rt,
        move || -> Finisher<K, Cause, B, L>
            requires both { has_both K.plan ≡ true }
            requires near { near.start.attempt ≡ local_attempt }
            ensures { HasRacedHere W.World B.BenchMaker B.B.Bench L.Sources
                K.plan true job.entry.now.gathered.now near.runner result.runner
                near.tree result.tree (whole result.end) result.ticket }
        { enter_in_slot::<W, K, H, N, B, L, R>(rt, job, race, near) },
        move || -> Finisher<K, RemoteCause, C, S>
            requires start { IsStart (λ live. live.attempt) (λ no_start. no_start.ticket)
                remote_attempt (has_remote K.plan) far.start }
            requires fits { FitsFarm job.now.gathered.now }
            ensures { HasRacedThere W.World C.Caller S.Sources
                K.plan (has_remote K.plan) job.entry.now.gathered.now
                job.entry.now.accept_cached
                far.runner result.runner far.tree result.tree
                (whole result.end) result.ticket }
        { race_there::<W, K, H, N, C, S, R>(rt, job, race, far) },
    )
}
