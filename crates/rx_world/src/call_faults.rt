//! Why a call on a farm has no answer.

ghost use Rattle.std.specs.Prelude.{◌≡◌, IfOk};

use rx_base::{Digest, NoMemory, TryClone};
use std::alloc::Global;
use thiserror::Error;

/// Why a call on a farm has no answer. Each of these but want of memory raises the count of faults
/// of the client that made the call.
#[derive(Clone, Copy, Debug, PartialEq, Eq, Error)]
pub enum CallFault {
    /// The call ended with this status of gRPC (`google.rpc.Code`), which isn't 0.
    #[error("the call ended with status {0}")]
    Status(u32),
    /// The connection couldn't be made or failed.
    #[error("the connection failed")]
    Link,
    /// The farm broke a rule of HTTP/2, named by this error code (RFC 9113 7).
    #[error("the farm broke the protocol, error code {0}")]
    Protocol(u32),
    /// A message is compressed, which this client didn't offer.
    #[error("a message is compressed")]
    Compressed,
    /// A message is longer than one may be.
    #[error("a message is too large")]
    TooLarge,
    /// The call ended without a status.
    #[error("the call ended without a status")]
    NoStatus,
    /// A message can't be read; this byte of it is the first that is wrong.
    #[error("byte {0} of a message is wrong")]
    BadMessage(usize),
    /// A stream of operations ended before the operation was done.
    #[error("the stream of operations was cut")]
    Cut,
    /// The farm refused this blob, or lacks it, with a status that isn't 0.
    #[error("a blob was refused with status {1}")]
    BlobRefused(Digest, u32),
    /// Memory ran out.
    #[error("out of memory")]
    NoMemory,
}

impl TryClone for CallFault {
    fn try_clone(&self, _alloc: Global) -> Result<CallFault, NoMemory> {
        Ok(*self)
    }
}
