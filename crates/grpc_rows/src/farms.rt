//! What the other side of a link sends that serves one call on a farm: settings, the answer on stream 1, and that no more streams
//! are taken. It is laid out as RFC 9113 and RFC 7541 have it.

use rx_rows::{RowFault, Turn};
use std::alloc::{AllocError, Global};

/// DATA (RFC 9113 6.1).
const DATA: u8 = 0;

/// HEADERS (6.2).
const HEADERS: u8 = 1;

/// SETTINGS (6.5).
const SETTINGS: u8 = 4;

/// END_STREAM.
const END_STREAM: u8 = 1;

/// END_HEADERS.
const END_HEADERS: u8 = 4;

/// `:status` 200 of the static table (RFC 7541 A), as a block.
const SUCCESS: &[u8; 1] = b"\x88";

/// A literal without indexing (RFC 7541 6.2.2), of the name `grpc-status`.
const STATUS: &[u8; 13] = b"\x00\x0bgrpc-status";

/// The same of the name `grpc-message`.
const TEXT: &[u8; 14] = b"\x00\x0cgrpc-message";

/// The same of the name `grpc-status-details-bin`.
const DETAILS: &[u8; 25] = b"\x00\x17grpc-status-details-bin";

/// GOAWAY (6.8) after stream 1, without an error.
const GONE: &[u8; 17] = b"\x00\x00\x08\x07\x00\x00\x00\x00\x00\x00\x00\x00\x01\x00\x00\x00\x00";

/// Adds a length in three bytes, the highest first.
fn push_length(bytes: &mut Vec<u8>, length: usize) -> Result<(), AllocError> {
    bytes.extend_from_slice(&[
        (length / 65_536 % 256) as u8,
        (length / 256 % 256) as u8,
        (length % 256) as u8,
    ])
}

/// Adds a frame.
fn push_frame(
    bytes: &mut Vec<u8>,
    kind: u8,
    flags: u8,
    stream: u8,
    body: &[u8],
) -> Result<(), AllocError> {
    push_length(bytes, body.len())?;
    bytes.extend_from_slice(&[kind, flags, 0, 0, 0, stream])?;
    bytes.extend_from_slice(body)
}

/// Adds a message of stream 1, of which so many bytes more are told than there are.
fn push_message(
    alloc: Global,
    bytes: &mut Vec<u8>,
    message: &[u8],
    more: usize,
) -> Result<(), AllocError> {
    let mut body = Vec::from_slice(alloc, &[0, 0])?;
    push_length(&mut body, message.len().saturating_add(more))?;
    body.extend_from_slice(message)?;
    push_frame(bytes, DATA, 0, 1, &body)
}

/// Adds a string literal of less than 255 bytes (RFC 7541 5.2).
fn push_string(block: &mut Vec<u8>, string: &[u8]) -> Result<(), AllocError> {
    let length = string.len();
    if length < 127 {
        block.extend_from_slice(&[length as u8])?;
    } else {
        block.extend_from_slice(&[127, ((length - 127) % 128) as u8])?;
    }
    block.extend_from_slice(string)
}

/// Adds a header to a block, unless its value is empty. `name` is that of a literal.
fn push_header(block: &mut Vec<u8>, name: &[u8], value: &[u8]) -> Result<(), AllocError> {
    if value.is_empty() {
        return Ok(());
    }
    block.extend_from_slice(name)?;
    push_string(block, value)
}

/// Adds the trailers of stream 1: a status, and the text and the details with it, unless they are empty.
fn push_status(
    alloc: Global,
    bytes: &mut Vec<u8>,
    status: &[u8],
    text: &[u8],
    details: &[u8],
) -> Result<(), AllocError> {
    let mut block = Vec::from_slice(alloc, STATUS)?;
    push_string(&mut block, status)?;
    push_header(&mut block, TEXT, text)?;
    push_header(&mut block, DETAILS, details)?;
    push_frame(bytes, HEADERS, END_HEADERS + END_STREAM, 1, &block)
}

/// Adds what a link sends before the messages of an answer.
fn push_front(bytes: &mut Vec<u8>) -> Result<(), AllocError> {
    push_frame(bytes, SETTINGS, 0, 0, &[])?;
    push_frame(bytes, HEADERS, END_HEADERS, 1, SUCCESS)
}

/// Adds what a link sends behind the messages of an answer.
fn push_end(
    alloc: Global,
    bytes: &mut Vec<u8>,
    status: &[u8],
    text: &[u8],
    details: &[u8],
) -> Result<(), AllocError> {
    push_status(alloc, bytes, status, text, details)?;
    bytes.extend_from_slice(GONE)
}

/// Refuses the row where memory ran out.
fn note(pushed: Result<(), AllocError>, turn: &mut Turn<'_, '_>) {
    if pushed.is_err() {
        turn.refuse(RowFault::NoMemory);
    }
}

/// `STATUS MESSAGE ..`: what a link sends that serves one call. Where the status is empty it ends behind the messages. Each message
/// lacks so many bytes.
pub(crate) fn read_answer(lacking: usize, turn: &mut Turn<'_, '_>) -> Vec<u8> {
    let alloc = turn.alloc();
    let status = turn.read_text();
    let mut bytes = Vec::new(alloc);
    note(push_front(&mut bytes), turn);
    for _ in 0..u32::MAX {
        if turn.is_done() {
            break;
        }
        let message = turn.read_bytes();
        note(push_message(alloc, &mut bytes, &message, lacking), turn);
    }
    if !status.is_empty() {
        note(push_end(alloc, &mut bytes, &status, &[], &[]), turn);
    }
    bytes
}

/// `STATUS TEXT DETAILS`: what a link sends that refuses one call.
pub(crate) fn read_refusal(turn: &mut Turn<'_, '_>) -> Vec<u8> {
    let alloc = turn.alloc();
    let status = turn.read_text();
    let text = turn.read_text();
    let details = read_details(turn);
    let mut bytes = Vec::new(alloc);
    note(push_front(&mut bytes), turn);
    note(push_end(alloc, &mut bytes, &status, &text, &details), turn);
    bytes
}

/// The next word, a text, or no bytes where none is left.
fn read_details(turn: &mut Turn<'_, '_>) -> Vec<u8> {
    if turn.is_done() {
        return Vec::new(turn.alloc());
    }
    turn.read_text()
}
