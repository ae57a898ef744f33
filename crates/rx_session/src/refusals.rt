//! The replies that refuse a request or the files of its command, and their messages: the reason or
//! the limit, the value, and the word or the path. And the reasons of one that was cancelled.

ghost use Rattle.std.specs.Prelude.{◌≡◌, IfOk, IfSome};
ghost use Rattle.rx_base.specs.Results.{Gives};
ghost use Rattle.rx_session.specs.Bad.{reason_number};
ghost use Rattle.rx_session.specs.Replies.{cancel_number, cancel_of, limit_number, limit_of, path_or_none, reason_of};
ghost use Rattle.rx_session.specs.ReplyReading.{limit_path_of, some_path_of};
ghost use Rattle.rx_session.specs.Typed.{IsOwn};
ghost use Rattle.rx_session.specs.declared.reply_fault.ReplyFault.TheVariants.{NoMemory};

use crate::bad::BadReason;
use crate::cancels::CancelReason;
use crate::path_texts::{path_text, read_path};
use crate::reply_fault::ReplyFault;
use rx_base::{NoMemory, RelPath, Text};
use rx_world::Limit;
use std::alloc::Global;

pub(crate) fn reason_number(reason: BadReason) -> u64
    ensures { result ≡ reason_number reason }
{
    match reason {
        BadReason::CutShort => 1,
        BadReason::TooLong => 2,
        BadReason::BadKind => 3,
        BadReason::BadMessage => 4,
        BadReason::UnknownVersion => 5,
        BadReason::WrongRoot => 6,
        BadReason::BadField => 7,
        BadReason::Trailing => 8,
        BadReason::NotBuilt => 9,
    }
}

pub(crate) fn reason_of(number: u64) -> Result<BadReason, ReplyFault>
    ensures { result ≡ reason_of number }
{
    match number {
        1 => Ok(BadReason::CutShort),
        2 => Ok(BadReason::TooLong),
        3 => Ok(BadReason::BadKind),
        4 => Ok(BadReason::BadMessage),
        5 => Ok(BadReason::UnknownVersion),
        6 => Ok(BadReason::WrongRoot),
        7 => Ok(BadReason::BadField),
        8 => Ok(BadReason::Trailing),
        9 => Ok(BadReason::NotBuilt),
        _ => Err(ReplyFault::BadReply),
    }
}

pub(crate) fn limit_number(limit: Limit) -> u64
    ensures { result ≡ limit_number limit }
{
    match limit {
        Limit::ScanFiles => 1,
        Limit::FileBytes => 2,
        Limit::ScanBytes => 3,
        Limit::ListFiles => 4,
        Limit::ListBytes => 5,
    }
}

pub(crate) fn limit_of(number: u64) -> Result<Limit, ReplyFault>
    ensures { result ≡ limit_of number }
{
    match number {
        1 => Ok(Limit::ScanFiles),
        2 => Ok(Limit::FileBytes),
        3 => Ok(Limit::ScanBytes),
        4 => Ok(Limit::ListFiles),
        5 => Ok(Limit::ListBytes),
        _ => Err(ReplyFault::BadReply),
    }
}

pub(crate) fn cancel_number(reason: CancelReason) -> u64
    ensures { result ≡ cancel_number reason }
{
    match reason {
        CancelReason::Asked => 1,
        CancelReason::Ended => 2,
        CancelReason::OtherBytes => 3,
        CancelReason::Lost => 4,
    }
}

pub(crate) fn cancel_of(number: u64) -> Result<CancelReason, ReplyFault>
    ensures { result ≡ cancel_of number }
{
    match number {
        1 => Ok(CancelReason::Asked),
        2 => Ok(CancelReason::Ended),
        3 => Ok(CancelReason::OtherBytes),
        4 => Ok(CancelReason::Lost),
        _ => Err(ReplyFault::BadReply),
    }
}

/// The text of a path, where there is one.
pub(crate) fn path_or_none(alloc: Global, path: &Option<RelPath>) -> Result<Text, NoMemory>
    ensures text { IfOk result (λ text. text ≡ path_or_none path.now) }
    ensures typed { IfSome path.now IsOwn }
{
    match path {
        None => Ok(Text::new(alloc)),
        Some(path) => path_text(alloc, path),
    }
}

#[tactic(auto, unfolding(crate::specs::ReplyReading::some_path_of))]
fn some_path_of(alloc: Global, text: &Text) -> Result<Option<RelPath>, ReplyFault>
    ensures { Gives NoMemory (λ path. path) result (some_path_of text.now) }
{
    let path = read_path(alloc, text)?;
    Ok(Some(path))
}

/// The path of the file that passes a limit, where the limit is that of one file.
pub(crate) fn limit_path_of(
    alloc: Global,
    limit: Limit,
    text: &Text,
) -> Result<Option<RelPath>, ReplyFault>
    ensures { Gives NoMemory (λ path. path) result (limit_path_of limit text.now) }
{
    match limit {
        Limit::FileBytes => some_path_of(alloc, text),
        Limit::ScanFiles | Limit::ScanBytes | Limit::ListFiles | Limit::ListBytes => {
            if text.is_empty() {
                Ok(None)
            } else {
                Err(ReplyFault::BadReply)
            }
        }
    }
}
