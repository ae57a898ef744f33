//! A whole remote attempt with a farm's client.

ghost use Rattle.std.specs.Prelude.{◌≡◌, ◌≢◌, All, IfErr, IfOk, IfSome, List};
ghost use Rattle.rx_action.specs.OutputPaths.{AreBelow};
ghost use Rattle.rx_base.specs.SortedPaths.{AreSorted};
ghost use Rattle.rx_exec_messages.specs.Exchanged.{HasExchanged};
ghost use Rattle.rx_world.specs.Inputs.{IsAsListed};
ghost use Rattle.rx_remote.specs.Actions.{AreNamed, IsReady, stored_of};
ghost use Rattle.rx_remote.specs.Ends.{ListsFault, StopTellsEnd};
ghost use Rattle.rx_remote.specs.Fine.{IsEndOf};
ghost use Rattle.rx_remote.specs.Reading.{HasRead, IsOwnCause, IsUnchanged};
ghost use Rattle.rx_remote.specs.Runs.{EndsAfter, EndsOr, HasBegun, HasRun, HasTold, IsRightFor, IsSoundEnd, WasTold, task_of, work_of};

use crate::RemoteJob;
use crate::begins::{Begun, begin};
use crate::jobs::{Action, blobs_of, task_of};
use crate::turns::{Going, take_turn};
use rx_action::action_of;
use rx_blobs::batch_limit;
use rx_exec_messages::Caller;
use rx_world::{End, Outcome, RemoteCause, Sources, Stop, World};
use std::alloc::Global;
use std::sync::Wait;

/// Runs a command on a farm, through a client of it.
///
/// The farm is asked for its capabilities first. They name the dialect under which the command's key
/// is made, and the most bytes of one batch of blobs. Then the one ask that the history leaves is
/// made, until the history leaves the end. Before each ask the race is asked whether it is decided.
pub fn run_remote<W: World, C: Caller<W>, S: Sources<W>, T: Stop, R: Wait>(
    rt: &R,
    alloc: Global,
    job: &RemoteJob<'_>,
    caller: &mut C,
    sources: &mut S,
    stop: &mut T,
) -> End<Outcome, RemoteCause>
    requires sorted { AreSorted job.now.command.now.outputs }
    requires below { AreBelow job.now.command.now.working_directory job.now.command.now.outputs }
    requires named { AreNamed job.now.tree.now.blobs }
    // The end is the one that a legal history leaves, by which the conversation grew, or memory ran out.
    ensures ended { EndsOr C.Caller (work_of job.now) caller.old caller.new result }
    // Where the client is genuine and vouches for the clean run, a Done is that, and nothing is blamed.
    ensures right { IsRightFor W.World C.Caller (work_of job.now) caller.old result }
    // Whatever the farm told, a Done is proper and within the limits.
    ensures sound { IsSoundEnd job.now.command.now result }
    // An end for calls that failed lists one fault at least.
    ensures listed { IsEndOf ListsFault result }
    ensures stays { HasExchanged C.Caller caller.old caller.new (λ _. Unit {0}) }
    // A cause that isn't the farm's comes only so: a file changed, the source tree failed, or a stop was told.
    ensures own { HasRead W.World S.Sources job.now.files.now sources.old sources.new (λ answers.
        IsEndOf (IsOwnCause job.now.files.now answers
        (S.faults sources.old) (S.faults sources.new) (T.told stop.new)) result) }
    // A stop that was asked tells the decision of the end, where that is Stopped, and else what it
    // told before: no decision that was told is passed over.
    ensures told { StopTellsEnd (T.told stop.old) (T.told stop.new) result }
    // It stays the stop of the same attempt.
    ensures attempt { T.attempt stop.new ≡ T.attempt stop.old }
    // And no file changes that is as the source tree lists it.
    ensures unchanged { S.keeps sources.old → IfSome (S.listed sources.old) (λ entries.
        All (IsAsListed entries) job.now.files.now → IsEndOf IsUnchanged result) }
{
    let Ok(task) = task_of(alloc, job) else {
        return End::Failed {
            cause: RemoteCause::NoMemory,
        };
    };
    match begin::<W, C, T>(alloc, task, caller, stop) {
        Err(end) => end,
        Ok(begun) => go_on::<W, C, S, T, R>(rt, alloc, job, caller, sources, stop, begun),
    }
}

/// The attempt from when the farm told of itself.
fn go_on<W: World, C: Caller<W>, S: Sources<W>, T: Stop, R: Wait>(
    rt: &R,
    alloc: Global,
    job: &RemoteJob<'_>,
    caller: &mut C,
    sources: &mut S,
    stop: &mut T,
    begun: Begun,
) -> End<Outcome, RemoteCause>
    requires sorted { AreSorted job.now.command.now.outputs }
    requires below { AreBelow job.now.command.now.working_directory job.now.command.now.outputs }
    requires named { AreNamed job.now.tree.now.blobs }
    requires told { WasTold W.World C.Caller (task_of (work_of job.now)) caller.old begun }
    ensures run { (old : C) → HasTold W.World C.Caller (task_of (work_of job.now)) old caller.old
        begun.told begun.going →
        HasRun W.World C.Caller (work_of job.now) old caller.new result }
    ensures exchanged { HasExchanged C.Caller caller.old caller.new (λ _. Unit {0}) }
    ensures own { HasRead W.World S.Sources job.now.files.now sources.old sources.new (λ answers.
        IsEndOf (IsOwnCause job.now.files.now answers
        (S.faults sources.old) (S.faults sources.new) (T.told stop.new)) result) }
    ensures stop { StopTellsEnd (T.told stop.old) (T.told stop.new) result }
    ensures attempt { T.attempt stop.new ≡ T.attempt stop.old }
{
    let Begun { going, told } = begun;
    let Ok(key) = action_of(alloc, job.command, &job.tree.root, told.dialect()) else {
        return End::Failed {
            cause: RemoteCause::NoMemory,
        };
    };
    let Ok(blobs) = blobs_of(alloc, &key, job) else {
        return End::Failed {
            cause: RemoteCause::NoMemory,
        };
    };
    let action = Action {
        digest: key.digest,
        blobs: &blobs,
        most: batch_limit(told.most),
        job: *job,
    };
    run_on::<W, C, S, T, R>(rt, alloc, &action, caller, sources, stop, going)
}

/// Turn after turn, to the end.
fn run_on<W: World, C: Caller<W>, S: Sources<W>, T: Stop, R: Wait>(
    rt: &R,
    alloc: Global,
    action: &Action<'_>,
    caller: &mut C,
    sources: &mut S,
    stop: &mut T,
    going: Going,
) -> End<Outcome, RemoteCause>
    requires ready { IsReady action.now }
    requires begun { HasBegun W.World C.Caller action.now.digest (stored_of action.now)
        caller.old going }
    ensures ended { EndsAfter W.World C.Caller action.now.digest (stored_of action.now)
        caller.old caller.new going result }
    ensures exchanged { HasExchanged C.Caller caller.old caller.new (λ _. Unit {0}) }
    ensures own { HasRead W.World S.Sources action.now.job.files.now sources.old sources.new
        (λ answers. IsEndOf (IsOwnCause action.now.job.files.now answers
        (S.faults sources.old) (S.faults sources.new) (T.told stop.new)) result) }
    ensures stop { StopTellsEnd (T.told stop.old) (T.told stop.new) result }
    ensures attempt { T.attempt stop.new ≡ T.attempt stop.old }
{
    let mut going = going;
    loop {
        match take_turn::<W, C, S, T, R>(rt, alloc, action, caller, sources, stop, going) {
            Err(end) => return end,
            Ok(next) => going = next,
        }
    }
}
