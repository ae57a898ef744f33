//! Why a client runs its compile step itself, and the message that tells it.

ghost use Rattle.std.specs.Prelude.{◌≡◌, IfOk};
ghost use Rattle.rx_base.specs.Results.{Gives};
ghost use Rattle.rx_session.specs.Replies.{in_place_message};
ghost use Rattle.rx_session.specs.ReplyReading.{in_place_of, kept_of, limit_in_place_of};
ghost use Rattle.rx_session.specs.Typed.{in_place_is_typed};
ghost use Rattle.rx_session.specs.declared.reply_fault.ReplyFault.TheVariants.{NoMemory};

use crate::payload_replies::local_cause_of;
use crate::payloads::{bare_reply, kind, local_cause_message};
use crate::refusals::{limit_number, limit_of};
use crate::replies::Reply;
use crate::reply_fault::ReplyFault;
use crate::reply_message::ReplyMessage;
use rx_base::NoMemory;
use rx_world::{Limit, LocalCause};
use std::alloc::Global;

/// Why a compile step isn't taken, so that its client runs it.
#[derive(Debug, Drop)]
pub enum InPlaceCause {
    /// 1 and 2: this word or this path keeps the command where its client runs it.
    Kept { cause: LocalCause },
    /// 3: the command's files pass this limit.
    TooLarge { limit: Limit },
}

/// The reason of a limit.
const LIMIT: u64 = 3;

/// What keeps the command, or reason 3 and the limit's number.
pub(crate) fn in_place_message(
    alloc: Global,
    cause: &InPlaceCause,
) -> Result<ReplyMessage, NoMemory>
    ensures message { IfOk result (λ reply. reply ≡ in_place_message cause.now) }
    ensures typed { in_place_is_typed cause.now }
{
    match cause {
        InPlaceCause::Kept { cause } => local_cause_message(alloc, kind::IN_PLACE, cause),
        InPlaceCause::TooLarge { limit } => Ok(ReplyMessage {
            reason: LIMIT,
            value: limit_number(*limit),
            ..bare_reply(alloc, kind::IN_PLACE)
        }),
    }
}

/// What keeps a command has no value beside its text.
#[tactic(auto, unfolding(crate::specs::ReplyReading::kept_of))]
fn kept_of(alloc: Global, message: ReplyMessage) -> Result<Reply, ReplyFault>
    ensures { Gives NoMemory (λ reply. reply) result (kept_of message) }
{
    if message.value != 0 {
        return Err(ReplyFault::BadReply);
    }
    let cause = local_cause_of(alloc, message)?;
    Ok(Reply::InPlace {
        cause: InPlaceCause::Kept { cause },
    })
}

/// A limit has no text beside its number.
#[tactic(auto, unfolding(crate::specs::ReplyReading::limit_in_place_of))]
fn limit_in_place_of(message: &ReplyMessage) -> Result<Reply, ReplyFault>
    ensures { result ≡ limit_in_place_of message.now }
{
    if !message.path.is_empty() {
        return Err(ReplyFault::BadReply);
    }
    let limit = limit_of(message.value)?;
    Ok(Reply::InPlace {
        cause: InPlaceCause::TooLarge { limit },
    })
}

/// Reason 3 and a limit, or what keeps the command.
#[tactic(auto, unfolding(crate::specs::ReplyReading::in_place_of))]
pub(crate) fn in_place_of(alloc: Global, message: ReplyMessage) -> Result<Reply, ReplyFault>
    ensures { Gives NoMemory (λ reply. reply) result (in_place_of message) }
{
    if message.reason == LIMIT {
        limit_in_place_of(&message)
    } else {
        kept_of(alloc, message)
    }
}
