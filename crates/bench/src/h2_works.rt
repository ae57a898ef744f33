//! The pieces of work of `bench h2`, each with what it counts.

use crate::fault::Fault;
use rx_h2conn::{Conn, ConnEvent};
use rx_hpack::Decoder;
use std::alloc::{AllocError, Global};

/// What is fed at once.
const PIECE_SIZE: usize = 8192;

/// The header of a DATA frame on the stream 1, and the bytes of its payload.
const DATA_HEADER: &[u8; 9] = b"\0\x40\0\0\0\0\0\0\x01";

const DATA_SIZE: usize = 16_384;

/// The status 200, the content type of gRPC in the Huffman code and the gRPC status 0: 14 bytes that add no entry to the
/// dynamic table.
const ANSWER: &[u8; 30] =
    b"\x88\x0f\x10\x8b\x1d\x75\xd0\x62\x0d\x26\x3d\x4c\x4d\x65\x64\x00\x0bgrpc-status\x010";

/// A header of the name `a`, whose value is `aceiost0` 6,400 times, in the Huffman code 32,000 bytes long (RFC 7541 5.2).
const LONG_HEAD: &[u8; 7] = b"\x00\x01a\xff\x81\xf9\x01";

const LONG_TURN: &[u8; 5] = b"\x19\x0a\x63\xa1\x20";

const LONG_TURNS: u32 = 6400;

/// Takes the events that wait, and counts the bytes of streams.
fn take_events(conn: &mut Conn) -> u64 {
    let mut count: u64 = 0;
    for _ in 0..u32::MAX {
        let Some(event) = conn.next_event() else {
            break;
        };
        if let ConnEvent::Bytes { bytes, .. } = event {
            count = count.wrapping_add(bytes.len() as u64);
        }
    }
    count
}

/// Feeds bytes in pieces, and takes the events and the output after each.
fn feed_pieces(conn: &mut Conn, bytes: &[u8]) -> Result<u64, Fault> {
    let mut count: u64 = 0;
    for piece in bytes.chunks(PIECE_SIZE) {
        conn.feed(piece)?;
        count = count.wrapping_add(take_events(conn));
        let _credit = conn.take_output()?;
    }
    Ok(count)
}

/// Two DATA frames, which is less than the window of the connection.
fn two_frames(alloc: Global) -> Result<Vec<u8>, AllocError> {
    let mut frames = Vec::new(alloc);
    for _ in 0..2 {
        frames.extend_from_slice(DATA_HEADER)?;
        frames.extend_from_slice(&[0; DATA_SIZE])?;
    }
    Ok(frames)
}

/// Counts the bytes of streams.
fn data(alloc: Global, rounds: u64) -> Result<u64, Fault> {
    let frames = two_frames(alloc)?;
    let mut conn = Conn::new(alloc)?;
    let _id = conn.open_stream(&[], true)?;
    let mut count: u64 = 0;
    for _ in 0..rounds {
        count = count.wrapping_add(feed_pieces(&mut conn, &frames)?);
    }
    Ok(count)
}

/// Counts the blocks.
fn blocks(alloc: Global, rounds: u64) -> Result<u64, Fault> {
    let mut decoder = Decoder::new(alloc);
    for _ in 0..rounds {
        let _list = decoder.block(alloc, ANSWER)?;
    }
    Ok(rounds)
}

fn long_block(alloc: Global) -> Result<Vec<u8>, AllocError> {
    let mut block = Vec::new(alloc);
    block.extend_from_slice(LONG_HEAD)?;
    for _ in 0..LONG_TURNS {
        block.extend_from_slice(LONG_TURN)?;
    }
    Ok(block)
}

/// Counts the bytes of the decoded strings.
fn huffman(alloc: Global, rounds: u64) -> Result<u64, Fault> {
    let block = long_block(alloc)?;
    let mut decoder = Decoder::new(alloc);
    let mut count: u64 = 0;
    for _ in 0..rounds {
        for header in &decoder.block(alloc, &block)? {
            count = count.wrapping_add(header.value.len() as u64);
        }
    }
    Ok(count)
}

/// Does a piece of work so many times, and counts what it counts.
pub fn repeat(alloc: Global, work: &str, rounds: u64) -> Result<u64, Fault> {
    match work {
        "data" => data(alloc, rounds),
        "blocks" => blocks(alloc, rounds),
        "huffman" => huffman(alloc, rounds),
        _ => Err(Fault::NoSuchWork),
    }
}
