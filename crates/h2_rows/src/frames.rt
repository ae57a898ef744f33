//! Rows of frames: `frame next`, `frame write`, `frame flag` and `frame sizes`.

use rx_h2frame::{
    ACK, END_HEADERS, END_STREAM, Frame, FrameOut, HEADER_SIZE, Kind, Next, PADDED, PRIORITY,
    is_set, next_frame, write_frame,
};
use rx_rows::{Answer, Row, RowFault};
use std::alloc::{AllocError, Global};

/// No payload that is written is as long.
const PAYLOAD_BOUND: usize = 16_777_216;

/// A stream's number is below this.
const STREAM_BOUND: u32 = 2_147_483_648;

pub(crate) fn call(alloc: Global, row: &mut Row<'_>, answer: &mut Answer) -> Result<(), RowFault> {
    match row.word()? {
        "next" => next(alloc, row, answer),
        "write" => write(alloc, row, answer),
        "flag" => flag(row, answer),
        "header" => Ok(answer.number(HEADER_SIZE as u64)?),
        _ => Err(RowFault::NoCall),
    }
}

/// A number of one byte.
fn byte(row: &mut Row<'_>) -> Result<u8, RowFault> {
    match u8::try_from(row.number()?) {
        Ok(byte) => Ok(byte),
        Err(_) => Err(RowFault::BadNumber),
    }
}

/// A number of 32 bits.
pub(crate) fn number_32(row: &mut Row<'_>) -> Result<u32, RowFault> {
    match u32::try_from(row.number()?) {
        Ok(number) => Ok(number),
        Err(_) => Err(RowFault::BadNumber),
    }
}

/// `next LARGEST BYTES`: the frame that the bytes begin with, or how many bytes are lacking, or why they are refused.
fn next(alloc: Global, row: &mut Row<'_>, answer: &mut Answer) -> Result<(), RowFault> {
    let largest = number_32(row)?;
    let bytes = row.bytes(alloc)?;
    match next_frame(&bytes, largest) {
        Ok(Next::Frame(frame)) => write_shown(&frame, answer)?,
        Ok(Next::NeedMore(count)) => {
            answer.word("lacks")?;
            answer.number(count as u64)?;
        }
        Err(fault) => answer.value(&fault)?,
    }
    Ok(())
}

/// Writes a frame's kind and its number, flags, stream, size and body.
fn write_shown(frame: &Frame, answer: &mut Answer) -> Result<(), AllocError> {
    answer.value(&frame.kind)?;
    answer.number(frame.kind.number() as u64)?;
    answer.number(frame.flags as u64)?;
    answer.number(frame.stream as u64)?;
    answer.number(frame.size as u64)?;
    answer.bytes(frame.body)
}

/// `KIND FLAGS STREAM BYTES`: the bytes of a frame with this payload, whose kind is told by its number.
pub(crate) fn read_frame(alloc: Global, row: &mut Row<'_>) -> Result<Vec<u8>, RowFault> {
    let kind = Kind::from(byte(row)?);
    let flags = byte(row)?;
    let stream = number_32(row)?;
    let payload = row.bytes(alloc)?;
    if STREAM_BOUND <= stream || PAYLOAD_BOUND <= payload.len() {
        return Err(RowFault::BadNumber);
    }
    let frame = FrameOut {
        kind,
        flags,
        stream,
        payload: &payload,
    };
    let mut out = Vec::new(alloc);
    write_frame(&frame, &mut out)?;
    Ok(out)
}

/// `write FRAME`: its bytes.
fn write(alloc: Global, row: &mut Row<'_>, answer: &mut Answer) -> Result<(), RowFault> {
    Ok(answer.bytes(&read_frame(alloc, row)?)?)
}

/// `flag FLAGS NAME`: whether the flag is set.
fn flag(row: &mut Row<'_>, answer: &mut Answer) -> Result<(), RowFault> {
    let flags = byte(row)?;
    let bit = match row.word()? {
        "END_STREAM" => END_STREAM,
        "ACK" => ACK,
        "END_HEADERS" => END_HEADERS,
        "PADDED" => PADDED,
        "PRIORITY" => PRIORITY,
        _ => return Err(RowFault::BadCall),
    };
    Ok(answer.value(&is_set(flags, bit))?)
}
