//! One turn of a remote attempt: whether it is to stop, what is asked of the farm, what is heard, and
//! what follows.

ghost use Rattle.std.specs.Prelude.{◌≡◌, ◌≢◌, IfErr, IfOk, OnOk, Option};
ghost use Rattle.rx_world.specs.declared.attempts.End.TheVariants as ends;
ghost use Rattle.rx_world.specs.declared.decisions.Decision.{Decision as AnyDecision};
ghost use Rattle.rx_world.specs.declared.remote_causes.RemoteCause.TheVariants as causes;
ghost use Rattle.rx_exec_messages.specs.Exchanged.{HasExchanged};
ghost use Rattle.rx_remote.specs.declared.asks.Ask.TheVariants as asks;
ghost use Rattle.rx_remote.specs.declared.phases.Phase.TheVariants as phases;
ghost use Rattle.rx_remote.specs.Actions.{IsReady, stored_of};
ghost use Rattle.rx_remote.specs.Ends.{StopTells, StopTellsEnd, stop_heard};
ghost use Rattle.rx_remote.specs.Fine.{IsEndOf};
ghost use Rattle.rx_remote.specs.Marks.{phase_of};
ghost use Rattle.rx_remote.specs.Reading.{HasRead, HeardGives, IsOwnCause, IsQuiet};
ghost use Rattle.rx_remote.specs.Runs.{EndsAfter, GoesOn, HasBegun};
ghost use Rattle.rx_remote.specs.Turns.{IsTurn};

use crate::calls::{ask_cache, ask_capabilities, ask_run, ask_state, ask_wait};
use crate::jobs::Action;
use crate::{Ask, Heard, RemoteState, step};
use rx_base::{Digest, Items};
use rx_blobs::{ToUpload, fetch, upload};
use rx_exec_messages::Caller;
use rx_world::{CallFault, End, Outcome, RemoteCause, Sources, Stop, World};
use std::alloc::Global;
use std::sync::Wait;

/// An attempt between two turns: its state, and the ask that comes next.
#[derive(Drop)]
pub(crate) struct Going {
    pub(crate) state: RemoteState,
    pub(crate) ask: Ask,
}

/// The end of an attempt whose own memory ran out.
pub(crate) fn no_memory() -> End<Outcome, RemoteCause>
    ensures { result ≡ ends.Failed causes.NoMemory }
{
    End::Failed {
        cause: RemoteCause::NoMemory,
    }
}

/// One turn: the attempt goes on, or this is its end.
pub(crate) fn take_turn<W: World, C: Caller<W>, S: Sources<W>, T: Stop, R: Wait>(
    rt: &R,
    alloc: Global,
    action: &Action<'_>,
    caller: &mut C,
    sources: &mut S,
    stop: &mut T,
    going: Going,
) -> Result<Going, End<Outcome, RemoteCause>>
    requires ready { IsReady action.now }
    requires begun { HasBegun W.World C.Caller action.now.digest (stored_of action.now)
        caller.old going }
    ensures goes_on { IfOk result (GoesOn W.World C.Caller action.now.digest
        (stored_of action.now) caller.old caller.new going) }
    ensures ended { IfErr result (EndsAfter W.World C.Caller action.now.digest
        (stored_of action.now) caller.old caller.new going) }
    ensures exchanged { HasExchanged C.Caller caller.old caller.new (λ _. Unit {0}) }
    ensures reads { HasRead W.World S.Sources action.now.job.files.now sources.old sources.new
        (λ answers. IfErr result (IsEndOf (IsOwnCause action.now.job.files.now answers
        (S.faults sources.old) (S.faults sources.new) (T.told stop.new)))) }
    ensures same { OnOk result (T.told stop.new ≡ T.told stop.old) }
    ensures told { IfErr result (StopTellsEnd (T.told stop.old) (T.told stop.new)) }
    ensures attempt { T.attempt stop.new ≡ T.attempt stop.old }
{
    let Going { state, ask } = going;
    let heard = listen::<W, C, S, T, R>(rt, alloc, action, caller, sources, stop, &ask);
    let Ok((next, now)) = step(alloc, state, heard) else {
        return Err(no_memory());
    };
    match now {
        Ask::End { end } => Err(end),
        now => Ok(Going {
            state: next,
            ask: now,
        }),
    }
}

/// Asks the farm, unless the race is decided.
fn listen<W: World, C: Caller<W>, S: Sources<W>, T: Stop, R: Wait>(
    rt: &R,
    alloc: Global,
    action: &Action<'_>,
    caller: &mut C,
    sources: &mut S,
    stop: &mut T,
    ask: &Ask,
) -> Heard
    requires ready { IsReady action.now }
    requires on { phase_of ask.now ≢ phases.Ended }
    requires streams { ask.now ≡ asks.NextOperation → C.streaming caller.old }
    ensures turn { IsTurn W.World C.Caller action.now.digest (stored_of action.now)
        ask.now caller.old caller.new result }
    ensures reads { HasRead W.World S.Sources action.now.job.files.now sources.old sources.new
        (λ answers. HeardGives (IsOwnCause action.now.job.files.now answers
        (S.faults sources.old) (S.faults sources.new) (T.told stop.new)) result) }
    ensures told { StopTells (T.told stop.old) (T.told stop.new) (stop_heard result) }
    ensures attempt { T.attempt stop.new ≡ T.attempt stop.old }
{
    if let Some(decision) = stop.seen() {
        return Heard::Stopped(decision);
    }
    hear::<W, C, S, R>(rt, alloc, action, caller, sources, ask)
}

/// Asks the farm, and hears its answer.
fn hear<W: World, C: Caller<W>, S: Sources<W>, R: Wait>(
    rt: &R,
    alloc: Global,
    action: &Action<'_>,
    caller: &mut C,
    sources: &mut S,
    ask: &Ask,
) -> Heard
    requires ready { IsReady action.now }
    requires on { phase_of ask.now ≢ phases.Ended }
    requires streams { ask.now ≡ asks.NextOperation → C.streaming caller.old }
    ensures turn { IsTurn W.World C.Caller action.now.digest (stored_of action.now)
        ask.now caller.old caller.new result }
    ensures reads { (told : Option AnyDecision) → HasRead W.World S.Sources
        action.now.job.files.now sources.old sources.new
        (λ answers. HeardGives (IsOwnCause action.now.job.files.now answers
        (S.faults sources.old) (S.faults sources.new) told) result) }
{
    match ask {
        Ask::Capabilities => ask_capabilities::<W, C>(caller),
        Ask::GetResult => ask_cache::<W, C>(caller, &action.digest),
        Ask::Upload { fresh } => store::<W, C, S, R>(rt, alloc, action, caller, sources, *fresh),
        Ask::Execute { skip_cache } => ask_run::<W, C>(caller, &action.digest, *skip_cache),
        Ask::NextOperation => ask_state::<W, C>(caller),
        Ask::Wait { name } => ask_wait::<W, C>(caller, name),
        Ask::Fetch { digests } => bring::<W, C>(alloc, action, caller, digests),
        Ask::End { end: _ } => Heard::Fault(CallFault::NoMemory),
    }
}

/// Stores the blobs of the action.
fn store<W: World, C: Caller<W>, S: Sources<W>, R: Wait>(
    rt: &R,
    alloc: Global,
    action: &Action<'_>,
    caller: &mut C,
    sources: &mut S,
    fresh: bool,
) -> Heard
    requires { IsReady action.now }
    ensures turn { IsTurn W.World C.Caller action.now.digest (stored_of action.now)
        (asks.Upload fresh) caller.old caller.new result }
    ensures reads { (told : Option AnyDecision) → HasRead W.World S.Sources
        action.now.job.files.now sources.old sources.new
        (λ answers. HeardGives (IsOwnCause action.now.job.files.now answers
        (S.faults sources.old) (S.faults sources.new) told) result) }
{
    let what = ToUpload {
        blobs: action.blobs,
        most: action.most,
        fresh,
    };
    let presence = action.job.presence;
    match upload::<W, C, S, R>(rt, alloc, caller, sources, presence, &what) {
        Ok(left_out) => Heard::Uploaded(left_out),
        Err(fault) => Heard::Blobs(fault),
    }
}

/// Fetches blobs of a result.
fn bring<W: World, C: Caller<W>>(
    alloc: Global,
    action: &Action<'_>,
    caller: &mut C,
    digests: &Items<Digest>,
) -> Heard
    ensures turn { IsTurn W.World C.Caller action.now.digest (stored_of action.now)
        (asks.Fetch digests.now) caller.old caller.new result }
    ensures quiet { IsQuiet result }
{
    match fetch::<W, C>(alloc, caller, digests.as_slice(), action.most) {
        Ok(texts) => Heard::Fetched(texts),
        Err(fault) => Heard::Blobs(fault),
    }
}
