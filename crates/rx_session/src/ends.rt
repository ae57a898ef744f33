//! How an attempt ended, and its message within a reply.

ghost use Rattle.std.specs.Prelude.{◌≡◌, IfOk};
ghost use Rattle.rx_base.specs.Results.{Gives};
ghost use Rattle.rx_wire.specs.Integers.{sign_extended};
ghost use Rattle.rx_session.specs.Ends.{allows, end_has_only, end_of, exit_of, failure_of, local_failure_of, non_zero_of, remote_failure_of};
ghost use Rattle.rx_session.specs.Typed.{IsInt32, failure_is_typed};
ghost use Rattle.rx_session.specs.declared.reply_fault.ReplyFault.TheVariants.{NoMemory};

use crate::end_message::EndMessage;
use crate::fields::end;
use crate::local_ends::{LOCAL, bare_end, local_cause_of, local_end, local_fields};
use crate::remote_ends::{NON_ZERO, REMOTE, remote_cause_of, remote_end, remote_fields};
use crate::reply_fault::ReplyFault;
use rx_base::NoMemory;
use rx_wire::int32_of;
use rx_world::Failure;
use std::alloc::Global;

/// An exit code, in two's complement of 64 bits.
fn exit_value(exit: i32) -> u64
    ensures value { result ≡ sign_extended exit }
    ensures typed { IsInt32 exit }
{
    i64::from(exit).cast_unsigned()
}

/// The message of an end.
pub(crate) fn end_of(alloc: Global, failure: &Failure) -> Result<EndMessage, NoMemory>
    ensures message { IfOk result (λ end. end ≡ end_of failure.now) }
    ensures typed { failure_is_typed failure.now }
{
    match failure {
        Failure::Local { cause } => local_end(alloc, cause),
        Failure::Remote { cause } => remote_end(alloc, cause),
        Failure::NonZero { exit } => Ok(EndMessage {
            value: exit_value(*exit),
            ..bare_end(alloc, REMOTE, NON_ZERO)
        }),
    }
}

/// Whether a field is one of these, or is its default.
pub(crate) fn allows(numbers: &[u32], number: u32, is_default: bool) -> bool
    ensures { result ≡ allows numbers.now number is_default }
{
    numbers.contains(&number) || is_default
}

/// Whether a message has, beside attempt and cause, no field but these.
#[tactic(auto, unfolding(crate::specs::Ends::end_has_only))]
fn end_has_only(numbers: &[u32], message: &EndMessage) -> bool
    ensures { result ≡ end_has_only numbers.now message.now }
{
    allows(numbers, end::VALUE, message.value == 0)
        && allows(numbers, end::PATH, message.path.is_empty())
        && allows(numbers, end::FIRST_SEEN, message.first.is_none())
        && allows(numbers, end::SECOND_SEEN, message.second.is_none())
        && allows(numbers, end::FAULTS, message.faults.is_empty())
        && allows(numbers, end::N, message.n == 0)
}

/// The exit code that a value tells.
#[tactic(auto, unfolding(crate::specs::Ends::exit_of))]
fn exit_of(value: u64) -> Result<i32, ReplyFault>
    ensures { result ≡ exit_of value }
{
    let exit = int32_of(value);
    if exit_value(exit) == value {
        Ok(exit)
    } else {
        Err(ReplyFault::BadReply)
    }
}

#[tactic(auto, unfolding(crate::specs::Ends::non_zero_of))]
fn non_zero_of(message: &EndMessage) -> Result<Failure, ReplyFault>
    ensures { result ≡ non_zero_of message.now }
{
    let exit = exit_of(message.value)?;
    Ok(Failure::NonZero { exit })
}

#[tactic(auto, unfolding(crate::specs::Ends::local_failure_of))]
fn local_failure_of(alloc: Global, message: &EndMessage) -> Result<Failure, ReplyFault>
    ensures { Gives NoMemory (λ failure. failure) result (local_failure_of message.now) }
{
    if !end_has_only(local_fields(message.cause), message) {
        return Err(ReplyFault::BadReply);
    }
    let cause = local_cause_of(alloc, message)?;
    Ok(Failure::Local { cause })
}

#[tactic(auto, unfolding(crate::specs::Ends::remote_failure_of))]
fn remote_failure_of(alloc: Global, message: &EndMessage) -> Result<Failure, ReplyFault>
    ensures { Gives NoMemory (λ failure. failure) result (remote_failure_of message.now) }
{
    if !end_has_only(remote_fields(message.cause), message) {
        return Err(ReplyFault::BadReply);
    }
    if message.cause == NON_ZERO {
        return non_zero_of(message);
    }
    let cause = remote_cause_of(alloc, message)?;
    Ok(Failure::Remote { cause })
}

/// The end that a message is.
#[tactic(auto, unfolding(crate::specs::Ends::failure_of))]
pub(crate) fn failure_of(alloc: Global, message: &EndMessage) -> Result<Failure, ReplyFault>
    ensures { Gives NoMemory (λ failure. failure) result (failure_of message.now) }
{
    match message.attempt {
        LOCAL => local_failure_of(alloc, message),
        REMOTE => remote_failure_of(alloc, message),
        _ => Err(ReplyFault::BadReply),
    }
}
