//! Why bytes are no request, and why a session has none.

ghost use Rattle.std.specs.Prelude.{◌≡◌, Err};
ghost use Rattle.rx_session.specs.Bad.{bad};

use rx_world::Failed;
use std::alloc::{AllocError, AllocFailed};
use thiserror::Error;

/// Why bytes are no valid Request of the served root. Where several hold, the first in this order
/// is told.
#[derive(Clone, Copy, Debug, PartialEq, Eq, Error)]
pub enum BadReason {
    /// The input ends inside the header or the payload; the value is how many bytes were read.
    #[error("the frame is cut short")]
    CutShort,
    /// The frame's kind is none that a client may begin with.
    #[error("the frame is no request")]
    BadKind,
    /// The payload has more than 4,194,304 bytes; the value is how many it would have.
    #[error("the frame is too long")]
    TooLong,
    /// The payload breaks the wire rules of Protocol Buffers, or a text in it is not UTF-8; the
    /// value is where, counted from the frame's first byte. Or a Shutdown has a payload; the value
    /// is 1, where the length stands.
    #[error("the payload is no message")]
    BadMessage,
    /// The version is not 1; the value is the version.
    #[error("the version is unknown")]
    UnknownVersion,
    /// The root is not the served one.
    #[error("the root is not the served one")]
    WrongRoot,
    /// A field breaks its rule; the value is the least such field's number.
    #[error("a field has a value that it can't have")]
    BadField,
    /// The proxy doesn't serve such a request yet; the value is the least such field's number. No
    /// request is refused so here, but a client may hear it from an older proxy.
    #[error("a field has a value that isn't served yet")]
    NotBuilt,
    /// A byte follows the frame of a request that doesn't watch; the value is the frame's length.
    #[error("bytes follow the frame")]
    Trailing,
}

/// A reason with its value. The value is 0 where the reason names none.
#[derive(Clone, Copy, Debug, PartialEq, Eq, Error)]
#[error("{reason} ({value})")]
pub struct Bad {
    pub reason: BadReason,
    pub value: u64,
}

/// Why a session has no request.
#[derive(Clone, Copy, Debug, PartialEq, Eq, Error)]
pub enum SessionFault {
    /// The source failed, and its count of faults rose.
    #[error("the input failed")]
    ReadFault,
    /// The bytes are no valid request.
    #[error("bad request: {0}")]
    Bad(Bad),
    /// Memory ran out.
    #[error("out of memory")]
    NoMemory,
}

impl From<Failed> for SessionFault {
    ghost use Rattle.rx_session.specs.declared.bad.SessionFault.TheVariants.{ReadFault};

    ghost from_gives = { λ _ fault. fault ≡ ReadFault };

    fn from(_error: Failed) -> SessionFault {
        SessionFault::ReadFault
    }
}

impl From<AllocError> for SessionFault {
    ghost use Rattle.rx_session.specs.declared.bad.SessionFault.TheVariants.{NoMemory};

    ghost from_gives = { λ _ fault. fault ≡ NoMemory };

    fn from(_error: AllocError) -> SessionFault {
        SessionFault::NoMemory
    }
}

impl<T: Drop> From<AllocFailed<T>> for SessionFault {
    ghost use Rattle.rx_session.specs.declared.bad.SessionFault.TheVariants.{NoMemory};

    ghost from_gives = { λ _ fault. fault ≡ NoMemory };

    fn from(_error: AllocFailed<T>) -> SessionFault {
        SessionFault::NoMemory
    }
}

/// A refusal.
pub(crate) fn refuse<T>(reason: BadReason, value: u64) -> Result<T, SessionFault>
    ensures { result ≡ Err (SessionFault.Bad (bad reason value)) }
{
    Err(SessionFault::Bad(Bad { reason, value }))
}
