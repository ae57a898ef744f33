//! The fields of some bytes, and those of one number among them.

ghost use Rattle.std.specs.Prelude.{◌≡◌, IfOk, IfSome, MatchOption, None, Ok, Some};
ghost use Rattle.std.specs.List.{AllByRecursion, concat};
ghost use Rattle.std.specs.Str.{IsUtf8};
ghost use Rattle.rx_base.specs.Texts.{texts as slices};
ghost use Rattle.rx_codec.specs.Contents.{chunks, number_in, text_in};
ghost use Rattle.rx_codec.specs.FieldBytes.{contents, fields_in};
ghost use Rattle.rx_wire.specs.Fields.{Next, Reads};
ghost use Rattle.rx_codec.specs.Seen.{IsOver, chunk_in, seen, varint_in};
ghost use Rattle.rx_wire.specs.Values.{field_of};

use rx_base::{NoMemory, Text};
use rx_wire::{Fields, Value, text_of};
use std::alloc::Global;

/// The fields of these bytes, up to the first refusal.
pub fn read_fields<'a>(alloc: Global, bytes: &'a [u8]) -> Result<Vec<(u32, Value<'a>)>, NoMemory>
    ensures { IfOk result (λ found. seen found.items ≡ fields_in bytes.now) }
{
    let mut found = Vec::new(alloc);
    let mut fields = Fields::new(bytes);
    'fields: while let Some(field) = next_field(&mut fields) {
        found.push(field)?;
    }
    Ok(found)
}

/// The next field, or none at the end and at a refusal.
#[tactic(auto, using(crate::proofs::ReadLemmas::is_next, crate::proofs::ReadLemmas::is_over))]
fn next_field<'a>(fields: &mut Fields<'a>) -> Option<(u32, Value<'a>)>
    ensures next { MatchOption result (IsOver fields.old)
        (λ f. Next fields.old (Ok (Some f)) fields.new) }
    ensures found { IfSome result (λ f.
        Reads fields.old.bytes fields.old.at fields.new.at (field_of f.0 f.1)) }
{
    match fields.next() {
        Ok(next) => next,
        Err(_) => None,
    }
}

/// The contents of a number that are bytes, in order.
pub fn chunks_of<'a>(
    alloc: Global,
    fields: &[(u32, Value<'a>)],
    number: u32,
) -> Result<Vec<&'a [u8]>, NoMemory>
    ensures { IfOk result (λ found.
        slices found.items ≡ chunks (contents number (seen fields.now))) }
{
    let mut found = Vec::new(alloc);
    for field in fields {
        if let Some(bytes) = chunk_in(field, number) {
            found.push(bytes)?;
        }
    }
    Ok(found)
}

/// The bytes of a field, where it has this number.
fn chunk_in<'a>(field: &(u32, Value<'a>), number: u32) -> Option<&'a [u8]>
    ensures { MatchOption result (chunk_in number (field_of field.now.0 field.now.1) ≡ None)
        (λ bytes. chunk_in number (field_of field.now.0 field.now.1) ≡ Some bytes.now) }
{
    match *field {
        (at, Value::Bytes(bytes)) if at == number => Some(bytes),
        _ => None,
    }
}

/// The last bytes of a number, or none.
pub(crate) fn last_bytes<'a>(fields: &[(u32, Value<'a>)], number: u32) -> &'a [u8]
    ensures { result.now ≡ text_in (contents number (seen fields.now)) }
{
    let mut last: &[u8] = &[];
    for field in fields {
        if let Some(bytes) = chunk_in(field, number) {
            last = bytes;
        }
    }
    last
}

/// The last varint of a number, or 0.
pub(crate) fn last_number(fields: &[(u32, Value<'_>)], number: u32) -> u64
    ensures { result ≡ number_in (contents number (seen fields.now)) }
{
    let mut last = 0;
    for field in fields {
        if let Some(value) = number_in(field, number) {
            last = value;
        }
    }
    last
}

/// The varint of a field, where it has this number.
fn number_in(field: &(u32, Value<'_>), number: u32) -> Option<u64>
    ensures { result ≡ varint_in number (field_of field.now.0 field.now.1) }
{
    match *field {
        (at, Value::Varint(value)) if at == number => Some(value),
        _ => None,
    }
}

/// The pieces, one after the other.
pub fn join(alloc: Global, pieces: &[&[u8]]) -> Result<Vec<u8>, NoMemory>
    ensures { IfOk result (λ bytes. bytes.items ≡ concat (slices pieces.now)) }
{
    let mut bytes = Vec::new(alloc);
    for piece in pieces {
        bytes.extend_from_slice(piece)?;
    }
    Ok(bytes)
}

/// The texts that these bytes are.
pub(crate) fn texts_of(alloc: Global, pieces: &[&[u8]]) -> Result<Vec<Text>, NoMemory>
    requires { AllByRecursion IsUtf8 (slices pieces.now) }
    ensures { IfOk result (λ texts. texts.items ≡ slices pieces.now) }
{
    let mut texts = Vec::with_capacity(alloc, pieces.len())?;
    for piece in pieces {
        texts.push(Text::copy_of(alloc, text_of(piece, 0).unwrap())?)?;
    }
    Ok(texts)
}
