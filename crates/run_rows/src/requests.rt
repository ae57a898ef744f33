//! The frames of requests, written from words: a kind byte 1, the payload's length in four bytes, the
//! highest first, and the Request message.

ghost use Rattle.std.specs.Prelude.{◌<◌, ◌^◌};

use rx_base::NoMemory;
use rx_rows::{Row, RowFault};
use rx_wire::Out;
use std::alloc::Global;

/// The field numbers of the Request message.
const VERSION: u32 = 1;

const ROOT: u32 = 2;

const WORDS: u32 = 3;

const ENVIRONMENT: u32 = 4;

const WORKING_DIRECTORY: u32 = 5;

const STRATEGY: u32 = 6;

const KIND: u32 = 7;

const INPUTS: u32 = 8;

const TOOLCHAIN_INPUTS: u32 = 9;

const OUTPUTS: u32 = 10;

const PLATFORM: u32 = 11;

const ACCEPT_CACHED: u32 = 12;

const WATCH: u32 = 13;

const TIMEOUT_SECONDS: u32 = 14;

const IN_PLACE: u32 = 16;

/// The kind of a frame that is a request.
const REQUEST_KIND: u8 = 1;

/// The number of a kind in field 7.
fn kind_number(word: &str) -> Result<u64, RowFault> {
    match word {
        "tool" => Ok(1),
        "compile" => Ok(2),
        _ => Err(RowFault::BadCall),
    }
}

/// The number of a strategy in field 6.
fn strategy_number(word: &str) -> Result<u64, RowFault> {
    match word {
        "local" => Ok(1),
        "remote" => Ok(2),
        "fallback" => Ok(3),
        "racing" => Ok(4),
        _ => Err(RowFault::BadCall),
    }
}

/// Adds each word of a text, with one space between each two.
fn add_words(out: &mut Out, text: &[u8]) -> Result<(), NoMemory> {
    for word in text.split(|byte| *byte == b' ') {
        out.bytes(WORDS, word)?;
    }
    Ok(())
}

/// Adds a name with its value: name 1, value 2.
fn add_pair(alloc: Global, out: &mut Out, number: u32, row: &mut Row<'_>) -> Result<(), RowFault>
    requires above { 0 < number }
    requires below { number < 2 ^ 29 }
{
    let mut pair = Out::new(alloc);
    pair.bytes(1, &row.text(alloc)?)?;
    pair.bytes(2, &row.text(alloc)?)?;
    out.bytes(number, &pair.finish())?;
    Ok(())
}

/// Adds a field by its word.
fn add_field(alloc: Global, out: &mut Out, word: &str, row: &mut Row<'_>) -> Result<(), RowFault> {
    match word {
        "environment" => add_pair(alloc, out, ENVIRONMENT, row)?,
        "platform" => add_pair(alloc, out, PLATFORM, row)?,
        "directory" => out.bytes(WORKING_DIRECTORY, &row.text(alloc)?)?,
        "input" => out.bytes(INPUTS, &row.text(alloc)?)?,
        "toolchain" => out.bytes(TOOLCHAIN_INPUTS, &row.text(alloc)?)?,
        "output" => out.bytes(OUTPUTS, &row.text(alloc)?)?,
        "cached" => out.varint(ACCEPT_CACHED, row.number()?)?,
        "watch" => out.varint(WATCH, row.number()?)?,
        "timeout" => out.varint(TIMEOUT_SECONDS, row.number()?)?,
        "in_place" => out.varint(IN_PLACE, row.number()?)?,
        _ => return Err(RowFault::BadCall),
    }
    Ok(())
}

/// The payload of a request: version 1 and the root `/r`, then the words KIND STRATEGY WORDS, and more
/// fields by their words.
fn payload_of(alloc: Global, row: &mut Row<'_>) -> Result<Vec<u8>, RowFault> {
    let kind = kind_number(row.word()?)?;
    let strategy = strategy_number(row.word()?)?;
    let mut out = Out::new(alloc);
    out.varint(VERSION, 1)?;
    out.bytes(ROOT, b"/r")?;
    add_words(&mut out, &row.text(alloc)?)?;
    out.varint(STRATEGY, strategy)?;
    out.varint(KIND, kind)?;
    for _ in 0..u64::MAX {
        if row.is_done() {
            return Ok(out.finish());
        }
        let word = row.word()?;
        add_field(alloc, &mut out, word, row)?;
    }
    Ok(out.finish())
}

/// The frame of the request that a row's words tell.
pub(crate) fn request_frame(alloc: Global, row: &mut Row<'_>) -> Result<Vec<u8>, RowFault> {
    let payload = payload_of(alloc, row)?;
    let Ok(len) = u32::try_from(payload.len()) else {
        return Err(RowFault::BadCall);
    };
    let mut frame = Vec::new(alloc);
    frame.push(REQUEST_KIND)?;
    frame.extend_from_slice(&len.to_be_bytes())?;
    frame.extend_from_slice(&payload)?;
    Ok(frame)
}
