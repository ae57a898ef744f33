//! Why bytes are no reply.

ghost use Rattle.std.specs.Prelude.{◌≡◌};
ghost use Rattle.rx_session.specs.ReplyFaults.{or_bad_reply};

use rx_codec::MessageFault;
use rx_wire::WireFault;
use std::alloc::{AllocError, AllocFailed};
use thiserror::Error;

/// Why bytes are no reply's payload, or could not be read. What the wire format refuses comes first.
#[derive(Clone, Copy, Debug, PartialEq, Eq, Error)]
pub enum ReplyFault {
    /// The bytes are no fields, or a text is not UTF-8; or, in a payload that is no reply's, a packed
    /// number is cut, or too long. Offsets count in the payload.
    #[error("{0}")]
    Wire(WireFault),
    /// No reply has these field values.
    #[error("no reply has these fields")]
    BadReply,
    /// Memory ran out.
    #[error("out of memory")]
    NoMemory,
}

impl From<AllocError> for ReplyFault {
    ghost use Rattle.rx_session.specs.declared.reply_fault.ReplyFault.TheVariants.{NoMemory};

    ghost from_gives = { λ _ fault. fault ≡ NoMemory };

    fn from(_error: AllocError) -> ReplyFault {
        ReplyFault::NoMemory
    }
}

impl<T: Drop> From<AllocFailed<T>> for ReplyFault {
    ghost use Rattle.rx_session.specs.declared.reply_fault.ReplyFault.TheVariants.{NoMemory};

    ghost from_gives = { λ _ fault. fault ≡ NoMemory };

    fn from(_error: AllocFailed<T>) -> ReplyFault {
        ReplyFault::NoMemory
    }
}
