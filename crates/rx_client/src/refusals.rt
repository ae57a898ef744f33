//! The line that tells of a refusal.

ghost use Rattle.std.specs.Prelude.{◌≡◌, ◌++◌, IfOk, OnOk, string_bytes};
ghost use Rattle.std.specs.Fmt.{decimal};
ghost use Rattle.rx_session.specs.Bad.{reason_number};
ghost use Rattle.rx_session.specs.Replies.{limit_number};
ghost use Rattle.rx_client.specs.Lines.{behind, cancel_text, cause_text, detail_of, in_place_text, limit_text, number_of, refusal_line};

use crate::failure_texts::push_failures;
use crate::joins::push_number;
use rx_base::NoMemory;
use rx_session::{BadReason, CancelReason, InPlaceCause, Reply};
use rx_world::{Limit, LocalCause};
use std::alloc::Global;

/// The number of a reply.
pub(crate) fn number_of(reply: &Reply) -> u8
    ensures { result ≡ number_of reply.now }
{
    match reply {
        Reply::Done { .. } => 0,
        Reply::BadRequest { .. } => 1,
        Reply::NotRemotable { .. } => 2,
        Reply::InputMissing { .. } => 3,
        Reply::InputChanged(_) => 4,
        Reply::SourceFault { .. } => 5,
        Reply::TooLarge { .. } => 6,
        Reply::AllFailed { .. } => 7,
        Reply::Cancelled { .. } => 8,
        Reply::PlaceFault { .. } => 9,
        Reply::JournalFull => 10,
        Reply::NoMemory => 11,
        Reply::Blocked { .. } => 12,
        Reply::InPlace { .. } => 13,
    }
}

fn reason_number(reason: BadReason) -> u8
    ensures { result ≡ reason_number reason }
{
    match reason {
        BadReason::CutShort => 1,
        BadReason::TooLong => 2,
        BadReason::BadKind => 3,
        BadReason::BadMessage => 4,
        BadReason::UnknownVersion => 5,
        BadReason::WrongRoot => 6,
        BadReason::BadField => 7,
        BadReason::Trailing => 8,
        BadReason::NotBuilt => 9,
    }
}

fn limit_number(limit: Limit) -> u8
    ensures { result ≡ limit_number limit }
{
    match limit {
        Limit::ScanFiles => 1,
        Limit::FileBytes => 2,
        Limit::ScanBytes => 3,
        Limit::ListFiles => 4,
        Limit::ListBytes => 5,
    }
}

/// Why the session was cancelled, in words.
fn cancel_text(reason: CancelReason) -> &'static str
    ensures { result.now ≡ cancel_text reason }
{
    match reason {
        CancelReason::Asked => "cancelled: asked to",
        CancelReason::Ended => "cancelled: the connection was closed",
        CancelReason::OtherBytes => "cancelled: unexpected bytes",
        CancelReason::Lost => "cancelled: the connection failed",
    }
}

/// A space and a text.
fn push_behind(out: &mut String, text: &str) -> Result<(), NoMemory>
    ensures { OnOk result (string_bytes out.new ≡ string_bytes out.old ++ behind text.now) }
{
    out.push_str(" ")?;
    out.push_str(text)
}

/// A space and a number.
fn push_number_behind(out: &mut String, number: u8) -> Result<(), NoMemory>
    ensures { OnOk result
        (string_bytes out.new ≡ string_bytes out.old ++ behind (decimal number)) }
{
    out.push_str(" ")?;
    push_number(out, number)
}

/// Adds the word or the path for which a command is to run in place, or the limit.
pub(crate) fn push_in_place(out: &mut String, cause: &InPlaceCause) -> Result<(), NoMemory>
    ensures { OnOk result
        (string_bytes out.new ≡ string_bytes out.old ++ in_place_text cause.now) }
{
    match cause {
        InPlaceCause::Kept {
            cause: LocalCause::Word { word },
        } => out.push_str(word.as_str()),
        InPlaceCause::Kept {
            cause: LocalCause::Path { path },
        } => out.push_str(path.as_str()),
        InPlaceCause::TooLarge { limit } => {
            out.push_str("limit ")?;
            push_number(out, limit_number(*limit))
        }
    }
}

/// A space, and the same.
fn push_in_place_behind(out: &mut String, cause: &InPlaceCause) -> Result<(), NoMemory>
    ensures { OnOk result
        (string_bytes out.new ≡ string_bytes out.old ++ behind (in_place_text cause.now)) }
{
    out.push_str(" ")?;
    push_in_place(out, cause)
}

/// The path or the text that a reply has, or the attempts that failed, else its reason.
fn push_detail(alloc: Global, out: &mut String, reply: &Reply) -> Result<(), NoMemory>
    ensures { OnOk result
        (string_bytes out.new ≡ string_bytes out.old ++ detail_of reply.now) }
{
    match reply {
        Reply::BadRequest { bad } => push_number_behind(out, reason_number(bad.reason)),
        Reply::NotRemotable {
            cause: LocalCause::Word { word },
        } => push_behind(out, word.as_str()),
        Reply::NotRemotable {
            cause: LocalCause::Path { path },
        } => push_behind(out, path.as_str()),
        Reply::InputMissing { path } => push_behind(out, path.as_str()),
        Reply::InputChanged(input) => push_behind(out, input.path.as_str()),
        Reply::SourceFault { path } => push_behind(out, path.as_str()),
        Reply::TooLarge {
            path: Some(path),
            ..
        } => push_behind(out, path.as_str()),
        Reply::TooLarge {
            limit,
            path: None,
            ..
        } => push_number_behind(out, limit_number(*limit)),
        Reply::Cancelled { reason } => push_behind(out, cancel_text(*reason)),
        Reply::Blocked { path } => push_behind(out, path.as_str()),
        Reply::InPlace { cause } => push_in_place_behind(out, cause),
        Reply::AllFailed { failures } => {
            out.push_str(" ")?;
            push_failures(alloc, out, failures.as_slice())
        }
        Reply::Done { .. } | Reply::PlaceFault { .. } | Reply::JournalFull | Reply::NoMemory => Ok(
            (),
        ),
    }
}

/// The line that tells of a refusal.
pub(crate) fn refusal_line(alloc: Global, reply: &Reply) -> Result<String, NoMemory>
    ensures { IfOk result (λ line. string_bytes line ≡ refusal_line reply.now) }
{
    let mut line = String::from_str(alloc, "rewrapper: refused ")?;
    push_number(&mut line, number_of(reply))?;
    push_detail(alloc, &mut line, reply)?;
    line.push_str("\n")?;
    Ok(line)
}
