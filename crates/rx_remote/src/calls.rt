//! The asks of a remote attempt that are one call on the farm, each with what is heard.

ghost use Rattle.std.specs.Prelude.{◌≡◌, List};
ghost use Rattle.rx_base.specs.declared.digests.Digest.{Digest as AnyDigest};
ghost use Rattle.rx_remote.specs.declared.asks.Ask.TheVariants as asks;
ghost use Rattle.rx_remote.specs.Reading.{IsQuiet};
ghost use Rattle.rx_remote.specs.Runs.{TellsOwn, told_in};
ghost use Rattle.rx_remote.specs.Turns.{IsTurn};

use crate::Heard;
use rx_base::{Digest, Text};
use rx_exec_messages::{Caller, StateFault};
use rx_world::World;

/// What the farm says of itself.
pub(crate) fn ask_capabilities<W: World, C: Caller<W>>(caller: &mut C) -> Heard
    ensures turn { (action : AnyDigest) (stored : List AnyDigest) → IsTurn W.World C.Caller
        action stored asks.Capabilities caller.old caller.new result }
    ensures quiet { IsQuiet result }
    ensures own { TellsOwn C.Caller caller.old (told_in result) }
{
    match caller.capabilities() {
        Ok(capabilities) => Heard::Told(capabilities),
        Err(fault) => Heard::Fault(fault),
    }
}

/// What the farm's action cache has.
pub(crate) fn ask_cache<W: World, C: Caller<W>>(caller: &mut C, action: &Digest) -> Heard
    ensures turn { (stored : List AnyDigest) → IsTurn W.World C.Caller
        action.now stored asks.GetResult caller.old caller.new result }
    ensures quiet { IsQuiet result }
{
    match caller.get_result(action) {
        Ok(found) => Heard::Cached(found),
        Err(fault) => Heard::Fault(fault),
    }
}

/// The begin of an execution.
pub(crate) fn ask_run<W: World, C: Caller<W>>(
    caller: &mut C,
    action: &Digest,
    skip_cache: bool,
) -> Heard
    ensures turn { (stored : List AnyDigest) → IsTurn W.World C.Caller
        action.now stored (asks.Execute skip_cache) caller.old caller.new result }
    ensures quiet { IsQuiet result }
{
    match caller.execute(action, skip_cache) {
        Ok(()) => Heard::Begun,
        Err(fault) => Heard::Fault(fault),
    }
}

/// The execution of this name, which is waited for.
pub(crate) fn ask_wait<W: World, C: Caller<W>>(caller: &mut C, name: &Text) -> Heard
    ensures turn { (action : AnyDigest) (stored : List AnyDigest) → IsTurn W.World C.Caller
        action stored (asks.Wait name.now) caller.old caller.new result }
    ensures quiet { IsQuiet result }
{
    match caller.wait(name.as_str()) {
        Ok(()) => Heard::Begun,
        Err(fault) => Heard::Fault(fault),
    }
}

/// The next state of the execution.
pub(crate) fn ask_state<W: World, C: Caller<W>>(caller: &mut C) -> Heard
    requires { C.streaming caller.old }
    ensures turn { (action : AnyDigest) (stored : List AnyDigest) → IsTurn W.World C.Caller
        action stored asks.NextOperation caller.old caller.new result }
    ensures quiet { IsQuiet result }
{
    match caller.next_operation() {
        Ok(operation) => Heard::Next(operation),
        Err(StateFault::Stream(fault)) => Heard::Fault(fault),
        Err(StateFault::Over(code)) => Heard::Over(code),
    }
}
