//! `wire CALL ..`: fields read from bytes and written to them.

ghost use Rattle.std.specs.Prelude.{◌<◌, ◌^◌};

use rx_rows::{RowFault, Turn};
use rx_wire::{Fields, Out, Value, WireFault, int32_of, push_varint, text_of};
use std::alloc::AllocError;

/// Field numbers are below this (protobuf.dev, Assigning Field Numbers).
const FIELD_NUMBERS: u64 = 1 << 29;

/// Makes the call that the next word names.
pub(crate) fn call(turn: &mut Turn<'_, '_>) {
    match turn.read_word() {
        "fields" => fields(turn),
        "inside" => inside(turn),
        "varint" => varint(turn),
        "write_varint" => write_varint(turn),
        "write_int32" => write_int32(turn),
        "write_bytes" => write_bytes(turn),
        "text" => text(turn),
        _ => turn.refuse(RowFault::NoCall),
    }
}

/// `fields BYTES`: each field, and `end`, or the fault as often as it is asked for, twice.
fn fields(turn: &mut Turn<'_, '_>) {
    let bytes = turn.read_bytes();
    write_all(Fields::new(&bytes), bytes.len(), turn);
}

/// `inside BYTES`: behind which tag the first field's content stands, and the fields in it.
fn inside(turn: &mut Turn<'_, '_>) {
    let bytes = turn.read_bytes();
    let mut fields = Fields::new(&bytes);
    match fields.next() {
        Ok(Some(_)) => {
            turn.write_number(fields.behind_tag() as u64);
            write_all(fields.message(), bytes.len(), turn);
            write_all(fields, bytes.len(), turn);
        }
        _ => turn.refuse(RowFault::BadCall),
    }
}

/// Writes fields up to the end or the first fault. There are no more than bytes.
fn write_all(fields: Fields<'_>, most: usize, turn: &mut Turn<'_, '_>) {
    let mut fields = fields;
    for _ in 0..=most {
        match fields.next() {
            Ok(Some((number, value))) => write_field(number, value, turn),
            Ok(None) => return turn.write_word("end"),
            Err(fault) => {
                turn.write_value(&fault);
                return write_again(fields.next(), turn);
            }
        }
    }
    turn.refuse(RowFault::BadCall);
}

/// Writes what comes behind a fault.
fn write_again(next: Result<Option<(u32, Value<'_>)>, WireFault>, turn: &mut Turn<'_, '_>) {
    match next {
        Ok(_) => turn.write_word("other"),
        Err(fault) => turn.write_value(&fault),
    }
}

/// Writes a field's number, wire type and value.
fn write_field(number: u32, value: Value<'_>, turn: &mut Turn<'_, '_>) {
    turn.write_number(u64::from(number));
    match value {
        Value::Varint(value) => turn.write_named("varint", value),
        Value::Fixed64(value) => turn.write_named("fixed64", value),
        Value::Bytes(bytes) => {
            turn.write_word("bytes");
            turn.write_bytes(bytes);
        }
        Value::Fixed32(value) => turn.write_named("fixed32", u64::from(value)),
    }
}

/// `varint NUMBER`: the number in as few bytes as it takes, and the int32 that it holds.
fn varint(turn: &mut Turn<'_, '_>) {
    let value = turn.read_number();
    let mut bytes = Vec::new(turn.alloc());
    if push_varint(&mut bytes, value).is_err() {
        turn.refuse(RowFault::NoMemory);
    }
    turn.write_bytes(&bytes);
    turn.write_value(&int32_of(value));
}

/// The next word, a field's number.
fn field_number(turn: &mut Turn<'_, '_>) -> u32
    ensures { (0 < result) × (result < 2 ^ 29) }
{
    let number = turn.read_number();
    if number == 0 || number >= FIELD_NUMBERS {
        turn.refuse(RowFault::BadCall);
        return 1;
    }
    number as u32
}

/// Writes what stands in `out`, a field that was written.
fn write_out(out: Out, written: Result<(), AllocError>, turn: &mut Turn<'_, '_>) {
    if written.is_err() {
        turn.refuse(RowFault::NoMemory);
    }
    turn.write_bytes(&out.finish());
}

/// `write_varint FIELD NUMBER`: a field that is a varint.
fn write_varint(turn: &mut Turn<'_, '_>) {
    let number = field_number(turn);
    let mut out = Out::new(turn.alloc());
    let written = out.varint(number, turn.read_number());
    write_out(out, written, turn);
}

/// `write_int32 FIELD NUMBER`: a field that is an int32, by its value in two's complement.
fn write_int32(turn: &mut Turn<'_, '_>) {
    let number = field_number(turn);
    let mut out = Out::new(turn.alloc());
    let written = out.int32(number, int32_of(turn.read_number()));
    write_out(out, written, turn);
}

/// `write_bytes FIELD BYTES`: a field that is bytes.
fn write_bytes(turn: &mut Turn<'_, '_>) {
    let number = field_number(turn);
    let bytes = turn.read_bytes();
    let mut out = Out::new(turn.alloc());
    let written = out.bytes(number, &bytes);
    write_out(out, written, turn);
}

/// `text AT BYTES`: the text that bytes are whose length stands at an offset.
fn text(turn: &mut Turn<'_, '_>) {
    let at = turn.read_number();
    let bytes = turn.read_bytes();
    match text_of(&bytes, at as usize) {
        Ok(text) => turn.write_text(text.as_bytes()),
        Err(fault) => turn.write_value(&fault),
    }
}
