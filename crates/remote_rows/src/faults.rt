//! The faults of uploads and of fetches, as arguments of rows.

use rx_base::digest_of;
use rx_blobs::BlobFault;
use rx_farm_values::{read_code, read_fault};
use rx_row_values::path_of;
use rx_rows::{Row, RowFault};
use rx_world::{ChangedInput, Look, Seen};
use std::alloc::Global;

/// The next words, a fault of an upload or of a fetch.
pub(crate) fn read_blobs(alloc: Global, row: &mut Row<'_>) -> Result<BlobFault, RowFault> {
    match row.word()? {
        "Call" => Ok(BlobFault::Call(read_fault(row)?)),
        "Missing" => Ok(BlobFault::Missing(digest_of(b"abc"))),
        "Refused" => Ok(BlobFault::Refused(digest_of(b"abc"), read_code(row)?)),
        "BadBlob" => Ok(bad_blob()),
        "InputChanged" => changed_input(alloc),
        "SourceFault" => source_fault(alloc),
        "NoMemory" => Ok(BlobFault::NoMemory),
        _ => Err(RowFault::BadCall),
    }
}

/// `abd` came for the digest of `abc`.
fn bad_blob() -> BlobFault {
    BlobFault::BadBlob {
        expected: digest_of(b"abc"),
        got: digest_of(b"abd"),
    }
}

/// The input `a` was a directory first, and then nothing.
fn changed_input(alloc: Global) -> Result<BlobFault, RowFault> {
    Ok(BlobFault::InputChanged(ChangedInput {
        path: path_of(alloc, "a")?,
        first: Seen::from(Look::Dir),
        second: Seen::from(Look::Absent),
    }))
}

/// The source tree failed at `a`.
fn source_fault(alloc: Global) -> Result<BlobFault, RowFault> {
    Ok(BlobFault::SourceFault {
        path: path_of(alloc, "a")?,
    })
}
