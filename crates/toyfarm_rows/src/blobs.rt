//! Calls on blobs. A row names a digest by the bytes that have it.

use crate::answers::{write_done, write_fault};
use rx_base::{Bytes, Digest, Items, digest_of};
use rx_exec_messages::{Caller, NamedBlob};
use rx_row_values::write_digest;
use rx_rows::{Answer, Row, RowFault};
use rx_toyfarm::ToyFarm;
use rx_world::Toy;
use std::alloc::Global;
use std::marker::Brand;

/// The digests of the bytes that are left.
fn read_digests(alloc: Global, row: &mut Row<'_>) -> Result<Items<Digest>, RowFault> {
    let mut digests = Items::new(alloc);
    for _ in 0..u64::MAX {
        if row.is_done() {
            break;
        }
        digests.push(digest_of(&row.bytes(alloc)?))?;
    }
    Ok(digests)
}

/// `DIGEST BYTES ..`: blobs.
fn read_blobs(alloc: Global, row: &mut Row<'_>) -> Result<Items<NamedBlob>, RowFault> {
    let mut blobs = Items::new(alloc);
    for _ in 0..u64::MAX {
        if row.is_done() {
            break;
        }
        blobs.push(NamedBlob {
            digest: digest_of(&row.bytes(alloc)?),
            bytes: Bytes::from_vec(row.bytes(alloc)?),
        })?;
    }
    Ok(blobs)
}

/// `missing DIGEST ..`: which of them the farm lacks.
pub(crate) fn missing(
    alloc: Global,
    farm: &mut ToyFarm,
    row: &mut Row<'_>,
    answer: &mut Answer,
) -> Result<(), RowFault> {
    let digests = read_digests(alloc, row)?;
    match Caller::<Toy<Brand>>::find_missing(farm, digests.as_slice()) {
        Ok(missing) => {
            answer.number(missing.len() as u64)?;
            for digest in missing.as_slice() {
                write_digest(alloc, answer, digest)?;
            }
            Ok(())
        }
        Err(fault) => write_fault(alloc, fault, answer),
    }
}

/// `update DIGEST BYTES ..`: a batch of blobs.
pub(crate) fn update(
    alloc: Global,
    farm: &mut ToyFarm,
    row: &mut Row<'_>,
    answer: &mut Answer,
) -> Result<(), RowFault> {
    let blobs = read_blobs(alloc, row)?;
    let done = Caller::<Toy<Brand>>::update(farm, blobs.as_slice());
    write_done(alloc, done, answer)
}

/// `read DIGEST ..`: the bytes of a batch of blobs.
pub(crate) fn read(
    alloc: Global,
    farm: &mut ToyFarm,
    row: &mut Row<'_>,
    answer: &mut Answer,
) -> Result<(), RowFault> {
    let digests = read_digests(alloc, row)?;
    match Caller::<Toy<Brand>>::read(farm, digests.as_slice()) {
        Ok(texts) => {
            for text in texts.as_slice() {
                answer.text(text.as_slice())?;
            }
            Ok(())
        }
        Err(fault) => write_fault(alloc, fault, answer),
    }
}

/// `write_stream DIGEST BYTES`: one blob as a stream.
pub(crate) fn write_stream(
    alloc: Global,
    farm: &mut ToyFarm,
    row: &mut Row<'_>,
    answer: &mut Answer,
) -> Result<(), RowFault> {
    let digest = digest_of(&row.bytes(alloc)?);
    let bytes = row.bytes(alloc)?;
    let done = Caller::<Toy<Brand>>::write_stream(farm, &digest, &bytes);
    write_done(alloc, done, answer)
}

/// `read_stream DIGEST`: the bytes of one blob as a stream.
pub(crate) fn read_stream(
    alloc: Global,
    farm: &mut ToyFarm,
    row: &mut Row<'_>,
    answer: &mut Answer,
) -> Result<(), RowFault> {
    let digest = digest_of(&row.bytes(alloc)?);
    match Caller::<Toy<Brand>>::read_stream(farm, &digest) {
        Ok(text) => answer.text(text.as_slice())?,
        Err(fault) => write_fault(alloc, fault, answer)?,
    }
    Ok(())
}
