//! The message of a reply, which is its payload.

ghost use Rattle.std.specs.Prelude.{◌≡◌, IfOk, IfSome, IsOk, map};
ghost use Rattle.std.specs.List.{AllByRecursion};
ghost use Rattle.rx_session.specs.Ends.{end_of};
ghost use Rattle.rx_session.specs.Replies.{all_failed_message, bad_request_message, bare_reply, cancelled_message, exit_message, input_changed_message, local_cause_message, message_of, origin_number, path_reply, too_large_message};
ghost use Rattle.rx_session.specs.Typed.{IsOwn, failure_is_typed, local_cause_is_typed, reply_is_typed};

use crate::bad::Bad;
use crate::cancels::CancelReason;
use crate::end_message::EndMessage;
use crate::ends::end_of;
use crate::in_place::in_place_message;
use crate::path_texts::path_text;
use crate::refusals::{cancel_number, limit_number, path_or_none, reason_number};
use crate::replies::Reply;
use crate::reply_message::ReplyMessage;
use crate::seen_values::seen_message;
use rx_base::{Bytes, Items, NoMemory, RelPath, Text, TryClone};
use rx_world::{ChangedInput, Failure, Limit, LocalCause, Origin};
use std::alloc::Global;

/// The number of each reply.
pub(crate) mod kind {
    pub(crate) const DONE: u64 = 0;

    pub(crate) const BAD_REQUEST: u64 = 1;

    pub(crate) const NOT_REMOTABLE: u64 = 2;

    pub(crate) const INPUT_MISSING: u64 = 3;

    pub(crate) const INPUT_CHANGED: u64 = 4;

    pub(crate) const SOURCE_FAULT: u64 = 5;

    pub(crate) const TOO_LARGE: u64 = 6;

    pub(crate) const ALL_FAILED: u64 = 7;

    pub(crate) const CANCELLED: u64 = 8;

    pub(crate) const PLACE_FAULT: u64 = 9;

    pub(crate) const JOURNAL_FULL: u64 = 10;

    pub(crate) const NO_MEMORY: u64 = 11;

    pub(crate) const BLOCKED: u64 = 12;

    pub(crate) const IN_PLACE: u64 = 13;
}

/// The reason of what keeps a command: a word, or a path.
pub(crate) const WORD: u64 = 1;

pub(crate) const PATH: u64 = 2;

fn origin_number(origin: Origin) -> u64
    ensures { result ≡ origin_number origin }
{
    match origin {
        Origin::Local => 1,
        Origin::Remote => 2,
        Origin::Cache => 3,
    }
}

/// A reply of a kind that says nothing more.
pub(crate) fn bare_reply(alloc: Global, kind: u64) -> ReplyMessage
    ensures { result ≡ bare_reply kind }
{
    ReplyMessage {
        kind,
        exit: 0,
        stdout: Bytes::new(alloc),
        stderr: Bytes::new(alloc),
        origin: 0,
        receipt: 0,
        placed: 0,
        reason: 0,
        value: 0,
        path: Text::new(alloc),
        first: None,
        second: None,
        ends: Items::new(alloc),
    }
}

/// Why the bytes that were read are no request.
fn bad_request_message(alloc: Global, bad: &Bad) -> ReplyMessage
    ensures { result ≡ bad_request_message bad.now }
{
    ReplyMessage {
        reason: reason_number(bad.reason),
        value: bad.value,
        ..bare_reply(alloc, kind::BAD_REQUEST)
    }
}

/// Why the session was cancelled.
fn cancelled_message(alloc: Global, reason: CancelReason) -> ReplyMessage
    ensures { result ≡ cancelled_message reason }
{
    ReplyMessage {
        reason: cancel_number(reason),
        ..bare_reply(alloc, kind::CANCELLED)
    }
}

/// A path at fault.
fn path_reply(alloc: Global, kind: u64, path: &RelPath) -> Result<ReplyMessage, NoMemory>
    ensures message { IfOk result (λ reply. reply ≡ path_reply kind path.now) }
    ensures typed { IsOwn path.now }
{
    let path = path_text(alloc, path)?;
    Ok(ReplyMessage {
        path,
        ..bare_reply(alloc, kind)
    })
}

/// How a command ended.
fn exit_message(
    alloc: Global,
    exit: i32,
    stdout: &Bytes,
    stderr: &Bytes,
) -> Result<ReplyMessage, NoMemory>
    ensures { IfOk result (λ reply. reply ≡ exit_message exit stdout.now stderr.now) }
{
    let stdout = stdout.try_clone(alloc)?;
    let stderr = stderr.try_clone(alloc)?;
    Ok(ReplyMessage {
        exit,
        stdout,
        stderr,
        ..bare_reply(alloc, kind::DONE)
    })
}

/// What keeps a command on this machine: reason 1 and the word, or reason 2 and the path.
pub(crate) fn local_cause_message(
    alloc: Global,
    kind: u64,
    cause: &LocalCause,
) -> Result<ReplyMessage, NoMemory>
    ensures message { IfOk result (λ reply. reply ≡ local_cause_message kind cause.now) }
    ensures typed { local_cause_is_typed cause.now }
{
    let (reason, path) = match cause {
        LocalCause::Word { word } => (WORD, word.try_clone(alloc)?),
        LocalCause::Path { path } => (PATH, path_text(alloc, path)?),
    };
    Ok(ReplyMessage {
        reason,
        path,
        ..bare_reply(alloc, kind)
    })
}

fn input_changed_message(alloc: Global, input: &ChangedInput) -> Result<ReplyMessage, NoMemory>
    ensures message { IfOk result (λ reply. reply ≡ input_changed_message input.now) }
    ensures typed { IsOwn input.now.path }
{
    let path = path_text(alloc, &input.path)?;
    Ok(ReplyMessage {
        path,
        first: Some(seen_message(&input.first)),
        second: Some(seen_message(&input.second)),
        ..bare_reply(alloc, kind::INPUT_CHANGED)
    })
}

/// The limit that the files pass, what they have, and the path where one file passes it.
fn too_large_message(
    alloc: Global,
    limit: Limit,
    n: u64,
    path: &Option<RelPath>,
) -> Result<ReplyMessage, NoMemory>
    ensures message { IfOk result (λ reply. reply ≡ too_large_message limit n path.now) }
    ensures typed { IfSome path.now IsOwn }
{
    let path = path_or_none(alloc, path)?;
    Ok(ReplyMessage {
        reason: limit_number(limit),
        value: n,
        path,
        ..bare_reply(alloc, kind::TOO_LARGE)
    })
}

/// The messages of ends.
fn ends_of(alloc: Global, failures: &[Failure]) -> Result<Items<EndMessage>, NoMemory>
    ensures message { IfOk result (λ ends. ends ≡ map end_of failures.now) }
    ensures typed { IsOk result → AllByRecursion failure_is_typed failures.now }
{
    let mut ends = Items::new(alloc);
    for failure in failures {
        ends.push(end_of(alloc, failure)?)?;
    }
    Ok(ends)
}

fn all_failed_message(alloc: Global, failures: &[Failure]) -> Result<ReplyMessage, NoMemory>
    ensures message { IfOk result (λ reply. reply ≡ all_failed_message failures.now) }
    ensures typed { IsOk result → AllByRecursion failure_is_typed failures.now }
{
    let ends = ends_of(alloc, failures)?;
    Ok(ReplyMessage {
        ends,
        ..bare_reply(alloc, kind::ALL_FAILED)
    })
}

/// The message of a reply.
pub(crate) fn message_of(alloc: Global, reply: &Reply) -> Result<ReplyMessage, NoMemory>
    ensures message { IfOk result (λ message. message ≡ message_of reply.now) }
    ensures typed { IsOk result → reply_is_typed reply.now }
{
    match reply {
        Reply::Done {
            exit,
            stdout,
            stderr,
            origin,
            receipt,
            placed,
        } => Ok(ReplyMessage {
            origin: origin_number(*origin),
            receipt: *receipt,
            placed: *placed,
            ..exit_message(alloc, *exit, stdout, stderr)?
        }),
        Reply::BadRequest { bad } => Ok(bad_request_message(alloc, bad)),
        Reply::NotRemotable { cause } => local_cause_message(alloc, kind::NOT_REMOTABLE, cause),
        Reply::InputMissing { path } => path_reply(alloc, kind::INPUT_MISSING, path),
        Reply::InputChanged(input) => input_changed_message(alloc, input),
        Reply::SourceFault { path } => path_reply(alloc, kind::SOURCE_FAULT, path),
        Reply::TooLarge { limit, n, path } => too_large_message(alloc, *limit, *n, path),
        Reply::AllFailed { failures } => all_failed_message(alloc, failures.as_slice()),
        Reply::Cancelled { reason } => Ok(cancelled_message(alloc, *reason)),
        Reply::PlaceFault { receipt, placed } => Ok(ReplyMessage {
            receipt: *receipt,
            placed: *placed,
            ..bare_reply(alloc, kind::PLACE_FAULT)
        }),
        Reply::JournalFull => Ok(bare_reply(alloc, kind::JOURNAL_FULL)),
        Reply::NoMemory => Ok(bare_reply(alloc, kind::NO_MEMORY)),
        Reply::Blocked { path } => path_reply(alloc, kind::BLOCKED, path),
        Reply::InPlace { cause } => in_place_message(alloc, cause),
    }
}
