//! The begin of a remote attempt: the farm is asked what it says of itself, until it tells that or the
//! attempt ends.

ghost use Rattle.std.specs.Prelude.{◌≡◌, [], IfErr, IfOk, List, OnOk};
ghost use Rattle.rx_base.specs.SortedPaths.{AreSorted};
ghost use Rattle.rx_base.specs.declared.digests.Digest.{Digest as AnyDigest};
ghost use Rattle.rx_exec_messages.specs.Exchanged.{HasExchanged};
ghost use Rattle.rx_remote.specs.declared.asks.Ask.TheVariants as asks;
ghost use Rattle.rx_remote.specs.declared.tasks.Task.{Task as AnyTask};
ghost use Rattle.rx_remote.specs.Ends.{StopTells, StopTellsEnd, stop_heard};
ghost use Rattle.rx_remote.specs.Fine.{IsEndOf};
ghost use Rattle.rx_remote.specs.Reading.{HeardGives, IsOwnCause};
ghost use Rattle.rx_remote.specs.Runs.{EndsEarlyOr, FirstEnds, FirstTurns, HasTold, IsAsking, TellsOwn, told_in};
ghost use Rattle.rx_remote.specs.Turns.{IsTurn};

use crate::calls::ask_capabilities;
use crate::turns::{Going, no_memory};
use crate::{Ask, Heard, RemoteState, Task, step};
use rx_exec_messages::{Caller, Capabilities};
use rx_world::{End, Outcome, RemoteCause, Stop, World};
use std::alloc::Global;

/// An attempt whose farm told of itself.
#[derive(Drop)]
pub(crate) struct Begun {
    pub(crate) going: Going,
    pub(crate) told: Capabilities,
}

/// An attempt after one turn of the begin, and what the farm told, if it did.
#[derive(Drop)]
pub(crate) struct FirstTurn {
    pub(crate) going: Going,
    pub(crate) told: Option<Capabilities>,
}

/// Asks the farm what it says of itself until it tells that, or until the attempt ends.
pub(crate) fn begin<W: World, C: Caller<W>, T: Stop>(
    alloc: Global,
    task: Task,
    caller: &mut C,
    stop: &mut T,
) -> Result<Begun, End<Outcome, RemoteCause>>
    requires { AreSorted task.command.outputs }
    ensures told { IfOk result (λ begun.
        HasTold W.World C.Caller task caller.old caller.new begun.told begun.going) }
    ensures ended { IfErr result (EndsEarlyOr W.World C.Caller task caller.old caller.new) }
    ensures exchanged { HasExchanged C.Caller caller.old caller.new (λ _. Unit {0}) }
    ensures own { IfErr result (IsEndOf (IsOwnCause [] [] 0 0 (T.told stop.new))) }
    ensures same { OnOk result (T.told stop.new ≡ T.told stop.old) }
    ensures stop { IfErr result (StopTellsEnd (T.told stop.old) (T.told stop.new)) }
    ensures attempt { T.attempt stop.new ≡ T.attempt stop.old }
{
    let mut state = RemoteState::new(alloc, task);
    loop {
        match first_turn::<W, C, T>(alloc, caller, stop, state) {
            Err(end) => return Err(end),
            Ok(first) => {
                let FirstTurn { going, told } = first;
                match told {
                    Some(told) => return Ok(Begun { going, told }),
                    None => state = state_of(going),
                }
            }
        }
    }
}

/// One turn of the begin.
fn first_turn<W: World, C: Caller<W>, T: Stop>(
    alloc: Global,
    caller: &mut C,
    stop: &mut T,
    state: RemoteState,
) -> Result<FirstTurn, End<Outcome, RemoteCause>>
    requires { AreSorted state.task.command.outputs }
    ensures goes_on { IfOk result (FirstTurns W.World C.Caller caller.old caller.new state) }
    ensures ended { IfErr result (FirstEnds W.World C.Caller caller.old caller.new state) }
    ensures exchanged { HasExchanged C.Caller caller.old caller.new (λ _. Unit {0}) }
    ensures own { IfErr result (λ end. (task : AnyTask) (old : C) →
        IsAsking W.World C.Caller task old caller.old state →
        IsEndOf (IsOwnCause [] [] 0 0 (T.told stop.new)) end) }
    ensures same { OnOk result ((task : AnyTask) (old : C) →
        IsAsking W.World C.Caller task old caller.old state →
        T.told stop.new ≡ T.told stop.old) }
    ensures stop { IfErr result (λ end. (task : AnyTask) (old : C) →
        IsAsking W.World C.Caller task old caller.old state →
        StopTellsEnd (T.told stop.old) (T.told stop.new) end) }
    ensures attempt { T.attempt stop.new ≡ T.attempt stop.old }
{
    let heard = first_heard::<W, C, T>(caller, stop);
    let told = told_in(&heard);
    let Ok((next, now)) = step(alloc, state, heard) else {
        return Err(no_memory());
    };
    match now {
        Ask::End { end } => Err(end),
        now => Ok(FirstTurn {
            going: Going {
                state: next,
                ask: now,
            },
            told,
        }),
    }
}

/// Asks the farm what it says of itself, unless the race is decided.
fn first_heard<W: World, C: Caller<W>, T: Stop>(caller: &mut C, stop: &mut T) -> Heard
    ensures turn { (action : AnyDigest) (stored : List AnyDigest) → IsTurn W.World C.Caller
        action stored asks.Capabilities caller.old caller.new result }
    ensures told { TellsOwn C.Caller caller.old (told_in result) }
    ensures own { HeardGives (IsOwnCause [] [] 0 0 (T.told stop.new)) result }
    ensures stop { StopTells (T.told stop.old) (T.told stop.new) (stop_heard result) }
    ensures attempt { T.attempt stop.new ≡ T.attempt stop.old }
{
    if let Some(decision) = stop.seen() {
        return Heard::Stopped(decision);
    }
    ask_capabilities::<W, C>(caller)
}

/// What the farm told of itself in what was heard.
fn told_in(heard: &Heard) -> Option<Capabilities>
    ensures { result ≡ told_in heard.now }
{
    match heard {
        Heard::Told(capabilities) => Some(*capabilities),
        _ => None,
    }
}

/// The state of an attempt whose next ask is known.
fn state_of(going: Going) -> RemoteState
    ensures { result ≡ going.state }
{
    let Going { state, .. } = going;
    state
}
