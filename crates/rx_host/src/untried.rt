//! The first call of a session on a connection that another session left. The farm may have closed it by then, which
//! nobody knows until the call: so a call that fails there before an answer began is made once more, on a new
//! connection. An attempt begins by one of these three calls. Each of them may be made again (Remote Execution API v2):
//! an action runs twice at worst, as behind any other fault of a link.

ghost use Rattle.std.specs.Prelude.{◌≡◌, true, IfOk, IfSome, OnOk};
ghost use Rattle.rx_exec_messages.specs.Calls.{HasCallCause, IsPartOf};
ghost use Rattle.rx_grpc.specs.Honest.{HonestResult, StaysHonest};
ghost use Rattle.rx_grpc.specs.declared.caller.Begun.TheVariants.{Executed as executed};

use crate::dial::HostDial;
use crate::hands::Hands;
use rx_base::{Digest, Items};
use rx_grpc::GrpcCaller;
use rx_messages::ActionResult;
use rx_world::{CallFault, Dial};

/// A client of a farm over connections of this machine.
type HostCaller<H> = GrpcCaller<HostDial<H>>;

/// Whether a call is made once more: it failed, and none was answered on its connection since the session took that up.
fn is_made_again<H: Hands, T>(caller: &HostCaller<H>, answer: &Result<T, CallFault>) -> bool {
    match (answer, caller.channel().link()) {
        (Ok(_) | Err(CallFault::NoMemory), _) => false,
        (Err(_), Some(link)) => link.ends_trial(),
        (Err(_), None) => false,
    }
}

/// The result that the action cache has for an action, or none.
pub(crate) fn hear_result<H: Hands>(
    caller: &mut HostCaller<H>,
    action: &Digest,
) -> Result<Option<ActionResult>, CallFault>
    ensures agrees { IfOk result (λ found. IfSome found (HonestResult
        ⟦<HostDial<H> as Dial>⟧.rule caller.old action.now)) }
    ensures stays { StaysHonest ⟦<HostDial<H> as Dial>⟧.rule caller.old caller.new }
    ensures begun { caller.new.begun ≡ caller.old.begun }
    ensures cause { HasCallCause caller.old.faults caller.new.faults result }
{
    let answer = caller.hear_result(action);
    if is_made_again(caller, &answer) {
        return caller.hear_result(action);
    }
    answer
}

/// Which of these blobs the farm lacks.
pub(crate) fn hear_missing<H: Hands>(
    caller: &mut HostCaller<H>,
    digests: &[Digest],
) -> Result<Items<Digest>, CallFault>
    ensures part { IfOk result (λ missing. IsPartOf missing digests.now) }
    ensures stays { StaysHonest ⟦<HostDial<H> as Dial>⟧.rule caller.old caller.new }
    ensures begun { caller.new.begun ≡ caller.old.begun }
    ensures cause { HasCallCause caller.old.faults caller.new.faults result }
{
    let answer = caller.hear_missing(digests);
    if is_made_again(caller, &answer) {
        return caller.hear_missing(digests);
    }
    answer
}

/// Begins an execution. `skip_cache` asks the farm not to answer from its action cache.
pub(crate) fn hear_execute<H: Hands>(
    caller: &mut HostCaller<H>,
    action: &Digest,
    skip_cache: bool,
) -> Result<(), CallFault>
    ensures stays { StaysHonest ⟦<HostDial<H> as Dial>⟧.rule caller.old caller.new }
    ensures begun { OnOk result (caller.new.begun ≡ executed action.now) }
    ensures streaming { OnOk result (caller.new.streaming ≡ true) }
    ensures cause { HasCallCause caller.old.faults caller.new.faults result }
{
    let answer = caller.hear_execute(action, skip_cache);
    if is_made_again(caller, &answer) {
        return caller.hear_execute(action, skip_cache);
    }
    answer
}
