//! Why a remote attempt has no outcome, in a reply.

ghost use Rattle.std.specs.Prelude.{◌≡◌, IfOk};
ghost use Rattle.rx_base.specs.Results.{Gives};
ghost use Rattle.rx_session.specs.Ends.{bad_blob_of, bad_result_of, call_failed_end, call_failed_of, digest_alone, digest_seen, remote_cause_of, remote_end, remote_fields, remote_input_changed_of, remote_source_fault_of, result_fault_number, result_fault_of, wrong_version_end, wrong_version_of};
ghost use Rattle.rx_session.specs.Typed.{AreInt32, remote_cause_is_typed};
ghost use Rattle.rx_session.specs.declared.reply_fault.ReplyFault.TheVariants.{NoMemory};

use crate::call_faults::{packed_faults, read_faults};
use crate::end_message::EndMessage;
use crate::fields::end;
use crate::local_ends::{bare_end, changed_end, path_end};
use crate::path_texts::read_path;
use crate::reply_fault::ReplyFault;
use crate::seen_message::SeenMessage;
use crate::seen_values::{is_no_file, nothing_seen, read_changed};
use crate::version_numbers::read_versions;
use crate::version_text::versions_text;
use rx_base::{Digest, NoMemory};
use rx_world::{CallFault, RemoteCause, ResultFault, SemVer};
use std::alloc::Global;

/// A remote attempt.
pub(crate) const REMOTE: u64 = 2;

/// The cause of a command that ended on the farm with another code than 0.
pub(crate) const NON_ZERO: u64 = 7;

/// The number of each other cause.
const CALL_FAILED: u64 = 1;

const BAD_BLOB: u64 = 2;

const BAD_RESULT: u64 = 3;

const OPERATIONS_SPENT: u64 = 4;

const STOPPED: u64 = 5;

const INPUT_CHANGED: u64 = 6;

const WRONG_VERSION: u64 = 8;

const SOURCE_FAULT: u64 = 9;

const NO_MEMORY: u64 = 10;

fn result_fault_number(fault: ResultFault) -> u64
    ensures { result ≡ result_fault_number fault }
{
    match fault {
        ResultFault::NoResult => 1,
        ResultFault::PathTwice => 2,
        ResultFault::OutputAbsent => 3,
        ResultFault::NoDigest => 4,
        ResultFault::TooLarge => 5,
    }
}

fn result_fault_of(number: u64) -> Result<ResultFault, ReplyFault>
    ensures { result ≡ result_fault_of number }
{
    match number {
        1 => Ok(ResultFault::NoResult),
        2 => Ok(ResultFault::PathTwice),
        3 => Ok(ResultFault::OutputAbsent),
        4 => Ok(ResultFault::NoDigest),
        5 => Ok(ResultFault::TooLarge),
        _ => Err(ReplyFault::BadReply),
    }
}

/// A digest alone, as what was seen.
fn digest_seen(digest: Digest) -> SeenMessage
    ensures { result ≡ digest_seen digest }
{
    SeenMessage {
        digest: Some(digest),
        ..nothing_seen()
    }
}

fn call_failed_end(alloc: Global, faults: &[CallFault]) -> Result<EndMessage, NoMemory>
    ensures { IfOk result (λ end. end ≡ call_failed_end faults.now) }
{
    let faults = packed_faults(alloc, faults)?;
    Ok(EndMessage {
        faults,
        ..bare_end(alloc, REMOTE, CALL_FAILED)
    })
}

fn wrong_version_end(alloc: Global, low: SemVer, high: SemVer) -> Result<EndMessage, NoMemory>
    ensures message { IfOk result (λ end. end ≡ wrong_version_end low high) }
    ensures typed { AreInt32 low × AreInt32 high }
{
    let path = versions_text(alloc, &low, &high)?;
    Ok(EndMessage {
        path,
        ..bare_end(alloc, REMOTE, WRONG_VERSION)
    })
}

/// The message of a remote attempt that has no outcome.
pub(crate) fn remote_end(alloc: Global, cause: &RemoteCause) -> Result<EndMessage, NoMemory>
    ensures message { IfOk result (λ end. end ≡ remote_end cause.now) }
    ensures typed { remote_cause_is_typed cause.now }
{
    match cause {
        RemoteCause::CallFailed { faults } => call_failed_end(alloc, faults.as_slice()),
        RemoteCause::BadBlob { expected, got } => Ok(EndMessage {
            first: Some(digest_seen(*expected)),
            second: Some(digest_seen(*got)),
            ..bare_end(alloc, REMOTE, BAD_BLOB)
        }),
        RemoteCause::BadResult { fault } => Ok(EndMessage {
            value: result_fault_number(*fault),
            ..bare_end(alloc, REMOTE, BAD_RESULT)
        }),
        RemoteCause::OperationsSpent => Ok(bare_end(alloc, REMOTE, OPERATIONS_SPENT)),
        RemoteCause::Stopped { .. } => Ok(bare_end(alloc, REMOTE, STOPPED)),
        RemoteCause::InputChanged(input) => changed_end(alloc, REMOTE, INPUT_CHANGED, input),
        RemoteCause::WrongVersion { low, high } => wrong_version_end(alloc, *low, *high),
        RemoteCause::SourceFault { path } => path_end(alloc, REMOTE, SOURCE_FAULT, path),
        RemoteCause::NoMemory => Ok(bare_end(alloc, REMOTE, NO_MEMORY)),
    }
}

/// The fields of each cause beside attempt and cause.
pub(crate) fn remote_fields(cause: u64) -> &'static [u32]
    ensures { result.now ≡ remote_fields cause }
{
    match cause {
        CALL_FAILED => &[end::FAULTS],
        BAD_BLOB => &[end::FIRST_SEEN, end::SECOND_SEEN],
        BAD_RESULT => &[end::VALUE],
        INPUT_CHANGED => &[end::PATH, end::FIRST_SEEN, end::SECOND_SEEN],
        NON_ZERO => &[end::VALUE],
        WRONG_VERSION => &[end::PATH],
        SOURCE_FAULT => &[end::PATH],
        _ => &[],
    }
}

#[tactic(auto, unfolding(crate::specs::Ends::call_failed_of))]
fn call_failed_of(alloc: Global, end: &EndMessage) -> Result<RemoteCause, ReplyFault>
    ensures { Gives NoMemory (λ cause. cause) result (call_failed_of end.now) }
{
    if end.faults.is_empty() {
        return Err(ReplyFault::BadReply);
    }
    let faults = read_faults(alloc, end.faults.as_slice())?;
    Ok(RemoteCause::CallFailed { faults })
}

/// The digest of a message with a digest alone.
fn digest_alone(message: &SeenMessage) -> Result<Digest, ReplyFault>
    ensures { result ≡ digest_alone message.now }
{
    match message.digest {
        Some(digest) if message.kind == 0 && is_no_file(message) => Ok(digest),
        _ => Err(ReplyFault::BadReply),
    }
}

#[tactic(auto, unfolding(crate::specs::Ends::bad_blob_of))]
fn bad_blob_of(end: &EndMessage) -> Result<RemoteCause, ReplyFault>
    ensures { result ≡ bad_blob_of end.now }
{
    let (Some(first), Some(second)) = (&end.first, &end.second) else {
        return Err(ReplyFault::BadReply);
    };
    let expected = digest_alone(first)?;
    let got = digest_alone(second)?;
    Ok(RemoteCause::BadBlob { expected, got })
}

#[tactic(auto, unfolding(crate::specs::Ends::bad_result_of))]
fn bad_result_of(end: &EndMessage) -> Result<RemoteCause, ReplyFault>
    ensures { result ≡ bad_result_of end.now }
{
    let fault = result_fault_of(end.value)?;
    Ok(RemoteCause::BadResult { fault })
}

#[tactic(auto, unfolding(crate::specs::Ends::remote_input_changed_of))]
fn remote_input_changed_of(alloc: Global, end: &EndMessage) -> Result<RemoteCause, ReplyFault>
    ensures { Gives NoMemory (λ cause. cause) result (remote_input_changed_of end.now) }
{
    let input = read_changed(alloc, &end.path, &end.first, &end.second)?;
    Ok(RemoteCause::InputChanged(input))
}

#[tactic(auto, unfolding(crate::specs::Ends::wrong_version_of))]
fn wrong_version_of(alloc: Global, end: &EndMessage) -> Result<RemoteCause, ReplyFault>
    ensures { Gives NoMemory (λ cause. cause) result (wrong_version_of end.now) }
{
    let (low, high) = read_versions(alloc, &end.path)?;
    Ok(RemoteCause::WrongVersion { low, high })
}

#[tactic(auto, unfolding(crate::specs::Ends::remote_source_fault_of))]
fn remote_source_fault_of(alloc: Global, end: &EndMessage) -> Result<RemoteCause, ReplyFault>
    ensures { Gives NoMemory (λ cause. cause) result (remote_source_fault_of end.now) }
{
    let path = read_path(alloc, &end.path)?;
    Ok(RemoteCause::SourceFault { path })
}

/// Why a remote attempt has no outcome. No reply has one that was stopped, or that had no memory.
#[tactic(auto, unfolding(crate::specs::Ends::remote_cause_of))]
pub(crate) fn remote_cause_of(alloc: Global, end: &EndMessage) -> Result<RemoteCause, ReplyFault>
    ensures { Gives NoMemory (λ cause. cause) result (remote_cause_of end.now) }
{
    match end.cause {
        CALL_FAILED => call_failed_of(alloc, end),
        BAD_BLOB => bad_blob_of(end),
        BAD_RESULT => bad_result_of(end),
        OPERATIONS_SPENT => Ok(RemoteCause::OperationsSpent),
        INPUT_CHANGED => remote_input_changed_of(alloc, end),
        WRONG_VERSION => wrong_version_of(alloc, end),
        SOURCE_FAULT => remote_source_fault_of(alloc, end),
        _ => Err(ReplyFault::BadReply),
    }
}
