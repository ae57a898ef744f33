//! What a session answers, and its payload.

ghost use Rattle.std.specs.Prelude.{◌≡◌, IfOk, Ok, Result};
ghost use Rattle.rx_base.specs.Results.{Gives};
ghost use Rattle.rx_session.specs.Replies.{payload_of};
ghost use Rattle.rx_session.specs.Packed.{packed_checked};
ghost use Rattle.rx_session.specs.ReplyReading.{HasFields, or_refusal, refusal_by, reply_of};
ghost use Rattle.rx_session.specs.Told.{reply_is_readable, told};
ghost use Rattle.rx_session.specs.Typed.{reply_is_typed};
ghost use Rattle.rx_session.specs.declared.replies.Reply.{Reply};
ghost use Rattle.rx_session.specs.declared.reply_fault.ReplyFault.{ReplyFault};
ghost use Rattle.rx_session.specs.declared.reply_fault.ReplyFault.TheVariants.{NoMemory};

use crate::bad::Bad;
use crate::cancels::CancelReason;
use crate::in_place::InPlaceCause;
use crate::packed::check_packed;
use crate::payload_replies::reply_by;
use crate::payloads::message_of;
use crate::reply_fault::ReplyFault;
use crate::reply_message::ReplyMessage;
use rx_base::{Bytes, Items, NoMemory, RelPath};
use rx_codec::{Message, MessageFault};
use rx_world::{ChangedInput, Failure, Limit, LocalCause, Origin};
use std::alloc::Global;

/// What a session answers: one of these, at its end.
#[derive(Debug, Drop)]
pub enum Reply {
    /// 0: the command ended with this exit code and these texts, and what it wrote was published
    /// under the receipt, as so many files.
    Done {
        exit: i32,
        stdout: Bytes,
        stderr: Bytes,
        origin: Origin,
        receipt: u64,
        placed: u64,
    },
    /// 1: the bytes that were read are no valid request.
    BadRequest {
        bad: Bad,
    },
    /// 2: the request asks for the farm alone, and this keeps its command on this machine.
    NotRemotable {
        cause: LocalCause,
    },
    /// 3: a declared input is absent.
    InputMissing {
        path: RelPath,
    },
    /// 4: two looks or reads of an input gave two different values.
    InputChanged(ChangedInput),
    /// 5: the source tree failed at this path.
    SourceFault {
        path: RelPath,
    },
    /// 6: the command's files pass this limit with n: one more than the limit where files are
    /// counted, else the bytes of the file at the path or, with no path, of all files together.
    TooLarge {
        limit: Limit,
        n: u64,
        path: Option<RelPath>,
    },
    /// 7: every attempt ended, and none has an outcome that may be published.
    AllFailed {
        failures: Items<Failure>,
    },
    /// 8: the client cancelled, and no attempt's outcome was kept.
    Cancelled {
        reason: CancelReason,
    },
    /// 9: the place failed after so many files of the receipt were placed.
    PlaceFault {
        receipt: u64,
        placed: u64,
    },
    /// 10: the journal is full.
    JournalFull,
    /// 11: memory ran out.
    NoMemory,
    /// 12: the working directory is a file or below one, or this output is below one.
    Blocked {
        path: RelPath,
    },
    /// 13: the client asked to run such a step itself, and this is why the step isn't taken.
    InPlace {
        cause: InPlaceCause,
    },
}

impl Reply {
    /// The payload of the reply's frame: its message.
    pub fn encode(&self, alloc: Global) -> Result<Vec<u8>, NoMemory>
        ensures payload { IfOk result (λ payload. payload.items ≡ payload_of self.now) }
        // It is read again, as far as it is told.
        ensures again { IfOk result (λ payload. reply_is_readable self.now →
            reply_of payload.items ≡ Ok (told self.now)) }
    {
        let message = message_of(alloc, self)?;
        message.encode(alloc)
    }

    /// The reply in a payload. Of a fault of a call its digest and its place aren't told, and are
    /// read as zeros. An end of an attempt that was stopped, or that had no memory, is refused.
    pub fn decode(alloc: Global, payload: &[u8]) -> Result<Reply, ReplyFault>
        ensures exact { Gives NoMemory (λ reply. reply) result (reply_of payload.now) }
        // Whatever has the fields of a reply is read as that reply, as far as it is told.
        ensures only { (reply : Reply) → reply_is_typed reply → reply_is_readable reply →
            HasFields payload.now reply → Gives NoMemory (λ reply. reply) result (Ok (told reply)) }
    {
        decode_exactly(alloc, payload)
    }
}

/// The reply in a payload, or the first refusal: that of the wire format, or of its values.
#[tactic(auto, unfolding(crate::specs::ReplyReading::reply_of))]
fn decode_exactly(alloc: Global, payload: &[u8]) -> Result<Reply, ReplyFault>
    ensures { Gives NoMemory (λ reply. reply) result (reply_of payload.now) }
{
    match ReplyMessage::decode(alloc, payload) {
        Ok(message) => or_refusal(payload, reply_by(alloc, message)),
        Err(MessageFault::Wire(fault)) => Err(ReplyFault::Wire(fault)),
        Err(MessageFault::NoMemory) => Err(ReplyFault::NoMemory),
        Err(_) => Err(ReplyFault::BadReply),
    }
}

/// Why a payload is no reply's: a packed number that is cut, or too long, is told by its place.
fn refusal_in(payload: &[u8]) -> ReplyFault
    ensures { result ≡ refusal_by (packed_checked payload.now) }
{
    match check_packed(payload) {
        Ok(()) => ReplyFault::BadReply,
        Err(fault) => ReplyFault::Wire(fault),
    }
}

/// The reply of a payload, or why it is none.
fn or_refusal(payload: &[u8], reply: Result<Reply, ReplyFault>) -> Result<Reply, ReplyFault>
    ensures { (given : Result Reply ReplyFault) → Gives NoMemory (λ reply. reply) reply given →
        Gives NoMemory (λ reply. reply) result (or_refusal payload.now given) }
{
    match reply {
        Ok(reply) => Ok(reply),
        Err(ReplyFault::BadReply) => Err(refusal_in(payload)),
        Err(ReplyFault::Wire(fault)) => Err(ReplyFault::Wire(fault)),
        Err(ReplyFault::NoMemory) => Err(ReplyFault::NoMemory),
    }
}
