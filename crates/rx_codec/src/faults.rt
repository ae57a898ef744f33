//! Why bytes are no message.

ghost use Rattle.std.specs.Prelude.{◌≡◌};

use rx_wire::WireFault;
use std::alloc::{AllocError, AllocFailed};
use thiserror::Error;

/// Why bytes are no message, or could not be read. The refusals of the wire format come first, by
/// place; then values, by the numbers of the fields; then the form.
#[derive(Clone, Copy, Debug, PartialEq, Eq, Error)]
pub enum MessageFault {
    /// The bytes are no fields, or a text is not UTF-8. Offsets count in the whole bytes, also
    /// inside a nested message.
    #[error("{0}")]
    Wire(WireFault),
    /// A Directory isn't written in its one canonical form.
    #[error("a directory is not in canonical form")]
    NotCanonical,
    /// The Digest's field of this number has a bad value: 1, a hash that isn't 64 lower-case
    /// hexadecimal digits, or 2, a negative size.
    #[error("field {0} of a digest has a bad value")]
    BadValue(u32),
    /// Memory ran out.
    #[error("out of memory")]
    NoMemory,
}

impl From<WireFault> for MessageFault {
    ghost use Rattle.rx_codec.specs.declared.faults.MessageFault.TheVariants.{Wire};

    ghost from_gives = { λ wire fault. fault ≡ Wire wire };

    fn from(fault: WireFault) -> MessageFault {
        MessageFault::Wire(fault)
    }
}

impl From<AllocError> for MessageFault {
    ghost use Rattle.rx_codec.specs.declared.faults.MessageFault.TheVariants.{NoMemory};

    ghost from_gives = { λ _ fault. fault ≡ NoMemory };

    fn from(_error: AllocError) -> MessageFault {
        MessageFault::NoMemory
    }
}

impl<T: Drop> From<AllocFailed<T>> for MessageFault {
    ghost use Rattle.rx_codec.specs.declared.faults.MessageFault.TheVariants.{NoMemory};

    ghost from_gives = { λ _ fault. fault ≡ NoMemory };

    fn from(_error: AllocFailed<T>) -> MessageFault {
        MessageFault::NoMemory
    }
}
