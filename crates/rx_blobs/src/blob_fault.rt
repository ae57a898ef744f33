//! Why blobs weren't uploaded or fetched.

ghost use Rattle.std.specs.Prelude.{◌≡◌};
ghost use Rattle.rx_blobs.specs.declared.blob_fault.BlobFault.TheVariants.{NoMemory};
ghost use Rattle.rx_blobs.specs.Faults.{has_code, is_without_batches, is_without_updates, of_ask, of_batch, of_stream, of_update, of_write};

use rx_base::{Digest, RelPath};
use rx_world::{CallFault, ChangedInput};
use std::alloc::{AllocError, AllocFailed};
use thiserror::Error;

/// The status NOT_FOUND (`google/rpc/code.proto`).
const NOT_FOUND: u32 = 5;

/// The status UNIMPLEMENTED (`google/rpc/code.proto`).
const UNIMPLEMENTED: u32 = 12;

/// Why blobs weren't uploaded or fetched.
#[derive(Debug, Drop, Error)]
pub enum BlobFault {
    /// A call failed.
    #[error("{0}")]
    Call(CallFault),
    /// The farm gave other bytes than those of the digest that was asked for.
    #[error("a blob has another digest than was asked for")]
    BadBlob { expected: Digest, got: Digest },
    /// The farm lacks this blob, which was to be fetched.
    #[error("the farm lacks a blob")]
    Missing(Digest),
    /// The farm refused this blob with a status that isn't 0.
    #[error("a blob was refused with status {1}")]
    Refused(Digest, u32),
    /// What was gathered of an input, and what was read for the upload, differ.
    #[error("an input changed")]
    InputChanged(ChangedInput),
    /// The source tree failed at this path, and its count of faults rose.
    #[error("the source tree failed")]
    SourceFault { path: RelPath },
    /// Memory ran out.
    #[error("out of memory")]
    NoMemory,
}

impl From<AllocError> for BlobFault {
    ghost from_gives = { λ _ fault. fault ≡ NoMemory };

    fn from(_error: AllocError) -> BlobFault {
        BlobFault::NoMemory
    }
}

impl<T: Drop> From<AllocFailed<T>> for BlobFault {
    ghost from_gives = { λ _ fault. fault ≡ NoMemory };

    fn from(_error: AllocFailed<T>) -> BlobFault {
        BlobFault::NoMemory
    }
}

/// Whether a call ended with this status.
fn has_code(fault: CallFault, wanted: u32) -> bool
    ensures { result ≡ has_code fault wanted }
{
    match fault {
        CallFault::Status(code) => code == wanted,
        _ => false,
    }
}

/// Whether a batch failed since the farm has no such call.
pub(crate) fn is_without_batches(fault: CallFault) -> bool
    ensures { result ≡ is_without_batches fault }
{
    has_code(fault, UNIMPLEMENTED)
}

/// Whether a batch failed since the farm has no such call, or leaves the digests out of its answer.
pub(crate) fn is_without_updates(fault: CallFault) -> bool
    ensures { result ≡ is_without_updates fault }
{
    match fault {
        CallFault::Status(code) => code == UNIMPLEMENTED,
        CallFault::BadMessage(at) => at == 0,
        _ => false,
    }
}

/// What a fault of the question which blobs are missing is for an upload.
pub(crate) fn of_ask(fault: CallFault) -> BlobFault
    ensures { result ≡ of_ask fault }
{
    match fault {
        CallFault::NoMemory => BlobFault::NoMemory,
        fault => BlobFault::Call(fault),
    }
}

/// What a fault of a batch is for an upload.
pub(crate) fn of_update(fault: CallFault) -> BlobFault
    ensures { result ≡ of_update fault }
{
    match fault {
        CallFault::BlobRefused(digest, code) => BlobFault::Refused(digest, code),
        fault => of_ask(fault),
    }
}

/// What a fault of the stream of one blob is for an upload.
pub(crate) fn of_write(digest: Digest, fault: CallFault) -> BlobFault
    ensures { result ≡ of_write digest fault }
{
    match fault {
        CallFault::BlobRefused(_, code) => BlobFault::Refused(digest, code),
        fault => of_ask(fault),
    }
}

/// What a fault of a batch is for a fetch.
pub(crate) fn of_batch(fault: CallFault) -> BlobFault
    ensures { result ≡ of_batch fault }
{
    match fault {
        CallFault::NoMemory => BlobFault::NoMemory,
        CallFault::BlobRefused(digest, code) => {
            if code == NOT_FOUND {
                return BlobFault::Missing(digest);
            }
            BlobFault::Refused(digest, code)
        }
        fault => BlobFault::Call(fault),
    }
}

/// What a fault of the stream of one blob is for a fetch.
pub(crate) fn of_stream(digest: Digest, fault: CallFault) -> BlobFault
    ensures { result ≡ of_stream digest fault }
{
    if has_code(fault, NOT_FOUND) {
        return BlobFault::Missing(digest);
    }
    of_batch(fault)
}
