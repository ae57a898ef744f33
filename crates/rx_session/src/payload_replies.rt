//! The reply that a message is.

ghost use Rattle.std.specs.Prelude.{◌≡◌};
ghost use Rattle.rx_base.specs.Results.{Gives};
ghost use Rattle.rx_session.specs.Replies.{origin_of};
ghost use Rattle.rx_session.specs.ReplyReading.{all_failed_of, bad_request_of, blocked_of, cancelled_of, done_of, failures_of, first_fields_are, input_missing_of, last_fields_are, not_remotable_of, one_failure, path_cause_of, place_fault_of, receipt_of, reply_by, reply_by_kind, reply_fields, reply_has_only, reply_input_changed_of, reply_local_cause_of, reply_source_fault_of, too_large_of, two_failures};
ghost use Rattle.rx_session.specs.declared.reply_fault.ReplyFault.TheVariants.{NoMemory};

use crate::bad::Bad;
use crate::end_message::EndMessage;
use crate::ends::{allows, failure_of};
use crate::fields::reply;
use crate::in_place::in_place_of;
use crate::local_ends::LOCAL;
use crate::path_texts::read_path;
use crate::payloads::{PATH, WORD, kind};
use crate::refusals::{cancel_of, limit_of, limit_path_of, reason_of};
use crate::remote_ends::REMOTE;
use crate::replies::Reply;
use crate::reply_fault::ReplyFault;
use crate::reply_message::ReplyMessage;
use crate::seen_values::read_changed;
use rx_base::Items;
use rx_world::{Failure, LocalCause, Origin};
use std::alloc::Global;

fn origin_of(number: u64) -> Result<Origin, ReplyFault>
    ensures { result ≡ origin_of number }
{
    match number {
        1 => Ok(Origin::Local),
        2 => Ok(Origin::Remote),
        3 => Ok(Origin::Cache),
        _ => Err(ReplyFault::BadReply),
    }
}

/// Whether a message has, of the fields 2 to 7, none but these.
#[tactic(auto, unfolding(crate::specs::ReplyReading::first_fields_are))]
fn first_fields_are(numbers: &[u32], message: &ReplyMessage) -> bool
    ensures { result ≡ first_fields_are numbers.now message.now }
{
    allows(numbers, reply::EXIT, message.exit == 0)
        && allows(numbers, reply::STDOUT, message.stdout.is_empty())
        && allows(numbers, reply::STDERR, message.stderr.is_empty())
        && allows(numbers, reply::ORIGIN, message.origin == 0)
        && allows(numbers, reply::RECEIPT, message.receipt == 0)
        && allows(numbers, reply::PLACED, message.placed == 0)
}

/// Whether a message has, of the fields 8 to 13, none but these.
#[tactic(auto, unfolding(crate::specs::ReplyReading::last_fields_are))]
fn last_fields_are(numbers: &[u32], message: &ReplyMessage) -> bool
    ensures { result ≡ last_fields_are numbers.now message.now }
{
    allows(numbers, reply::REASON, message.reason == 0)
        && allows(numbers, reply::VALUE, message.value == 0)
        && allows(numbers, reply::PATH, message.path.is_empty())
        && allows(numbers, reply::FIRST_SEEN, message.first.is_none())
        && allows(numbers, reply::SECOND_SEEN, message.second.is_none())
        && allows(numbers, reply::ENDS, message.ends.is_empty())
}

/// Whether a message has, beside its kind, no field but these.
#[tactic(auto, unfolding(crate::specs::ReplyReading::reply_has_only))]
fn reply_has_only(numbers: &[u32], message: &ReplyMessage) -> bool
    ensures { result ≡ reply_has_only numbers.now message.now }
{
    first_fields_are(numbers, message) && last_fields_are(numbers, message)
}

/// The fields of each kind.
fn reply_fields(kind: u64) -> &'static [u32]
    ensures { result.now ≡ reply_fields kind }
{
    match kind {
        kind::DONE => &[
            reply::EXIT,
            reply::STDOUT,
            reply::STDERR,
            reply::ORIGIN,
            reply::RECEIPT,
            reply::PLACED,
        ],
        kind::BAD_REQUEST => &[reply::REASON, reply::VALUE],
        kind::NOT_REMOTABLE => &[reply::REASON, reply::PATH],
        kind::INPUT_MISSING => &[reply::PATH],
        kind::INPUT_CHANGED => &[reply::PATH, reply::FIRST_SEEN, reply::SECOND_SEEN],
        kind::SOURCE_FAULT => &[reply::PATH],
        kind::TOO_LARGE => &[reply::REASON, reply::VALUE, reply::PATH],
        kind::ALL_FAILED => &[reply::ENDS],
        kind::CANCELLED => &[reply::REASON],
        kind::PLACE_FAULT => &[reply::RECEIPT, reply::PLACED],
        kind::BLOCKED => &[reply::PATH],
        kind::IN_PLACE => &[reply::REASON, reply::VALUE, reply::PATH],
        _ => &[],
    }
}

/// Receipts count from 1.
#[tactic(auto, unfolding(crate::specs::ReplyReading::receipt_of))]
fn receipt_of(number: u64) -> Result<u64, ReplyFault>
    ensures { result ≡ receipt_of number }
{
    if number == 0 {
        Err(ReplyFault::BadReply)
    } else {
        Ok(number)
    }
}

#[tactic(auto, unfolding(crate::specs::ReplyReading::done_of))]
fn done_of(message: ReplyMessage) -> Result<Reply, ReplyFault>
    ensures { result ≡ done_of message }
{
    let origin = origin_of(message.origin)?;
    let receipt = receipt_of(message.receipt)?;
    Ok(Reply::Done {
        exit: message.exit,
        stdout: message.stdout,
        stderr: message.stderr,
        origin,
        receipt,
        placed: message.placed,
    })
}

#[tactic(auto, unfolding(crate::specs::ReplyReading::bad_request_of))]
fn bad_request_of(message: &ReplyMessage) -> Result<Reply, ReplyFault>
    ensures { result ≡ bad_request_of message.now }
{
    let reason = reason_of(message.reason)?;
    let bad = Bad {
        reason,
        value: message.value,
    };
    Ok(Reply::BadRequest { bad })
}

#[tactic(auto, unfolding(crate::specs::ReplyReading::path_cause_of))]
fn path_cause_of(alloc: Global, message: &ReplyMessage) -> Result<LocalCause, ReplyFault>
    ensures { Gives NoMemory (λ cause. cause) result (path_cause_of message.now) }
{
    let path = read_path(alloc, &message.path)?;
    Ok(LocalCause::Path { path })
}

/// Reason 1 and a word, or reason 2 and a path.
#[tactic(auto, unfolding(crate::specs::ReplyReading::reply_local_cause_of))]
pub(crate) fn local_cause_of(alloc: Global, message: ReplyMessage) -> Result<LocalCause, ReplyFault>
    ensures { Gives NoMemory (λ cause. cause) result (reply_local_cause_of message) }
{
    match message.reason {
        WORD => Ok(LocalCause::Word { word: message.path }),
        PATH => path_cause_of(alloc, &message),
        _ => Err(ReplyFault::BadReply),
    }
}

#[tactic(auto, unfolding(crate::specs::ReplyReading::not_remotable_of))]
fn not_remotable_of(alloc: Global, message: ReplyMessage) -> Result<Reply, ReplyFault>
    ensures { Gives NoMemory (λ reply. reply) result (not_remotable_of message) }
{
    let cause = local_cause_of(alloc, message)?;
    Ok(Reply::NotRemotable { cause })
}

#[tactic(auto, unfolding(crate::specs::ReplyReading::input_missing_of))]
fn input_missing_of(alloc: Global, message: &ReplyMessage) -> Result<Reply, ReplyFault>
    ensures { Gives NoMemory (λ reply. reply) result (input_missing_of message.now) }
{
    let path = read_path(alloc, &message.path)?;
    Ok(Reply::InputMissing { path })
}

#[tactic(auto, unfolding(crate::specs::ReplyReading::reply_input_changed_of))]
fn input_changed_of(alloc: Global, message: &ReplyMessage) -> Result<Reply, ReplyFault>
    ensures { Gives NoMemory (λ reply. reply) result (reply_input_changed_of message.now) }
{
    let input = read_changed(alloc, &message.path, &message.first, &message.second)?;
    Ok(Reply::InputChanged(input))
}

#[tactic(auto, unfolding(crate::specs::ReplyReading::reply_source_fault_of))]
fn source_fault_of(alloc: Global, message: &ReplyMessage) -> Result<Reply, ReplyFault>
    ensures { Gives NoMemory (λ reply. reply) result (reply_source_fault_of message.now) }
{
    let path = read_path(alloc, &message.path)?;
    Ok(Reply::SourceFault { path })
}

#[tactic(auto, unfolding(crate::specs::ReplyReading::too_large_of))]
fn too_large_of(alloc: Global, message: &ReplyMessage) -> Result<Reply, ReplyFault>
    ensures { Gives NoMemory (λ reply. reply) result (too_large_of message.now) }
{
    let limit = limit_of(message.reason)?;
    let path = limit_path_of(alloc, limit, &message.path)?;
    Ok(Reply::TooLarge {
        limit,
        n: message.value,
        path,
    })
}

#[tactic(auto, unfolding(crate::specs::ReplyReading::one_failure))]
fn one_failure(alloc: Global, end: &EndMessage) -> Result<Items<Failure>, ReplyFault>
    ensures { Gives NoMemory (λ failures. failures) result (one_failure end.now) }
{
    let mut failures = Items::new(alloc);
    failures.push(failure_of(alloc, end)?)?;
    Ok(failures)
}

#[tactic(auto, unfolding(crate::specs::ReplyReading::two_failures))]
fn two_failures(
    alloc: Global,
    end: &EndMessage,
    second: &EndMessage,
) -> Result<Items<Failure>, ReplyFault>
    ensures { Gives NoMemory (λ failures. failures) result (two_failures end.now second.now) }
{
    let mut failures = Items::new(alloc);
    failures.push(failure_of(alloc, end)?)?;
    failures.push(failure_of(alloc, second)?)?;
    Ok(failures)
}

/// One end, or one of a local attempt and then one of a remote one.
#[tactic(auto, unfolding(crate::specs::ReplyReading::failures_of))]
fn failures_of(alloc: Global, ends: &[EndMessage]) -> Result<Items<Failure>, ReplyFault>
    ensures { Gives NoMemory (λ failures. failures) result (failures_of ends.now) }
{
    match ends {
        [end] => one_failure(alloc, end),
        [end, second] if end.attempt == LOCAL && second.attempt == REMOTE => {
            two_failures(alloc, end, second)
        }
        _ => Err(ReplyFault::BadReply),
    }
}

#[tactic(auto, unfolding(crate::specs::ReplyReading::all_failed_of))]
fn all_failed_of(alloc: Global, message: &ReplyMessage) -> Result<Reply, ReplyFault>
    ensures { Gives NoMemory (λ reply. reply) result (all_failed_of message.now) }
{
    let failures = failures_of(alloc, message.ends.as_slice())?;
    Ok(Reply::AllFailed { failures })
}

#[tactic(auto, unfolding(crate::specs::ReplyReading::cancelled_of))]
fn cancelled_of(message: &ReplyMessage) -> Result<Reply, ReplyFault>
    ensures { result ≡ cancelled_of message.now }
{
    let reason = cancel_of(message.reason)?;
    Ok(Reply::Cancelled { reason })
}

#[tactic(auto, unfolding(crate::specs::ReplyReading::place_fault_of))]
fn place_fault_of(message: &ReplyMessage) -> Result<Reply, ReplyFault>
    ensures { result ≡ place_fault_of message.now }
{
    let receipt = receipt_of(message.receipt)?;
    Ok(Reply::PlaceFault {
        receipt,
        placed: message.placed,
    })
}

#[tactic(auto, unfolding(crate::specs::ReplyReading::blocked_of))]
fn blocked_of(alloc: Global, message: &ReplyMessage) -> Result<Reply, ReplyFault>
    ensures { Gives NoMemory (λ reply. reply) result (blocked_of message.now) }
{
    let path = read_path(alloc, &message.path)?;
    Ok(Reply::Blocked { path })
}

#[tactic(auto, unfolding(crate::specs::ReplyReading::reply_by_kind))]
fn reply_by_kind(alloc: Global, message: ReplyMessage) -> Result<Reply, ReplyFault>
    ensures { Gives NoMemory (λ reply. reply) result (reply_by_kind message) }
{
    match message.kind {
        kind::DONE => done_of(message),
        kind::BAD_REQUEST => bad_request_of(&message),
        kind::NOT_REMOTABLE => not_remotable_of(alloc, message),
        kind::INPUT_MISSING => input_missing_of(alloc, &message),
        kind::INPUT_CHANGED => input_changed_of(alloc, &message),
        kind::SOURCE_FAULT => source_fault_of(alloc, &message),
        kind::TOO_LARGE => too_large_of(alloc, &message),
        kind::ALL_FAILED => all_failed_of(alloc, &message),
        kind::CANCELLED => cancelled_of(&message),
        kind::PLACE_FAULT => place_fault_of(&message),
        kind::JOURNAL_FULL => Ok(Reply::JournalFull),
        kind::NO_MEMORY => Ok(Reply::NoMemory),
        kind::BLOCKED => blocked_of(alloc, &message),
        kind::IN_PLACE => in_place_of(alloc, message),
        _ => Err(ReplyFault::BadReply),
    }
}

/// The reply that a message is. A field that its kind doesn't have is refused.
#[tactic(auto, unfolding(crate::specs::ReplyReading::reply_by))]
pub(crate) fn reply_by(alloc: Global, message: ReplyMessage) -> Result<Reply, ReplyFault>
    ensures { Gives NoMemory (λ reply. reply) result (reply_by message) }
{
    if !reply_has_only(reply_fields(message.kind), &message) {
        return Err(ReplyFault::BadReply);
    }
    reply_by_kind(alloc, message)
}
