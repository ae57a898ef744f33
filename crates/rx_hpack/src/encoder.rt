//! Encoding header lists (RFC 7541 3.1) by the static table alone, without the Huffman code.

ghost use Rattle.std.specs.Prelude.{◌++◌, ◌<◌, ◌^◌, ◌≡◌, ◌≤◌, All, IfOk, Ok, OnOk, length};
ghost use Rattle.std.specs.Option.{ForSome};
ghost use Rattle.rx_hpack.specs.Header.{size_of, views};
ghost use Rattle.rx_hpack.specs.DynamicTable.{Table};
ghost use Rattle.rx_hpack.specs.Decoder.{IsBlock, block_of};
ghost use Rattle.rx_hpack.specs.Encoder.{IsWritable, block_bytes, field_bytes, form_bytes, name_bytes};

use crate::header::Header;
use crate::representation::{INDEXED_PREFIX, LITERAL_PREFIX};
use crate::{integer, static_table, text};
use std::alloc::{AllocError, Global};

/// The bit that an indexed field begins with (RFC 7541 6.1).
const INDEXED_FORM: u8 = 128;

/// The bits that a literal field begins with which isn't added to the dynamic table
/// (RFC 7541 6.2.2).
const LITERAL_FORM: u8 = 0;

/// Writes header blocks. It keeps nothing from one to the next, and asks the other end to keep
/// nothing.
#[derive(Clone, Copy, Debug)]
pub struct Encoder;

impl Encoder {
    /// An encoder, which has nothing to remember.
    pub fn new() -> Encoder {
        Encoder
    }

    /// The block of a list of headers, in its order. Only memory can run out.
    pub fn block(&self, alloc: Global, headers: &[Header]) -> Result<Vec<u8>, AllocError>
        // Each name and each value has at most 2^32 - 1 bytes.
        requires { All IsWritable headers.now }
        // Which forms are written.
        ensures exact { IfOk result (λ block. block.items ≡ block_bytes (views headers.now)) }
        // It stands for the list, and changes no dynamic table.
        ensures meant { IfOk result
            (λ block. (table : Table) → size_of (views headers.now) ≤ 65536 →
            IsBlock table block.items (views headers.now) table) }
        // So a decoder reads the list back, a new one or any other.
        ensures read_back { IfOk result
            (λ block. (table : Table) → size_of (views headers.now) ≤ 65536 →
            block_of table block.items
            ≡ Ok (record { fields = views headers.now; table = table })) }
    {
        write_block(alloc, headers)
    }
}

fn write_block(alloc: Global, headers: &[Header]) -> Result<Vec<u8>, AllocError>
    requires { All IsWritable headers.now }
    ensures { IfOk result (λ block. block.items ≡ block_bytes (views headers.now)) }
{
    let mut block = Vec::new(alloc);
    for header in headers {
        write_field(&mut block, &header.name, &header.value)?;
    }
    Ok(block)
}

/// Writes a header as the index of the entry of the static table that has its name and value, or
/// else as a literal field.
fn write_field(block: &mut Vec<u8>, name: &[u8], value: &[u8]) -> Result<(), AllocError>
    requires name { length name.now < 2 ^ 32 }
    requires value { length value.now < 2 ^ 32 }
    ensures { OnOk result (block.new.items ≡ block.old.items ++ field_bytes name.now value.now) }
{
    write_form(block, static_table::field_place(name, value), name, value)
}

/// The same, once it is known which entry that is.
#[tactic(auto, unfolding(crate::specs::Encoder::form_bytes))]
fn write_form(
    block: &mut Vec<u8>,
    place: Option<usize>,
    name: &[u8],
    value: &[u8],
) -> Result<(), AllocError>
    requires place { ForSome place (λ p. p < 61) }
    requires name { length name.now < 2 ^ 32 }
    requires value { length value.now < 2 ^ 32 }
    ensures { OnOk result
        (block.new.items ≡ block.old.items ++ form_bytes place name.now value.now) }
{
    if let Some(place) = place {
        return integer::write(block, INDEXED_PREFIX, INDEXED_FORM, place as u32 + 1);
    }
    write_name(block, static_table::name_place(name), name)?;
    text::write(block, value)
}

/// Writes the name of a literal field: the index of the first entry of the static table that has
/// it, or 0 and the name.
#[tactic(auto, unfolding(crate::specs::Encoder::name_bytes))]
fn write_name(block: &mut Vec<u8>, place: Option<usize>, name: &[u8]) -> Result<(), AllocError>
    requires place { ForSome place (λ p. p < 61) }
    requires name { length name.now < 2 ^ 32 }
    ensures { OnOk result (block.new.items ≡ block.old.items ++ name_bytes place name.now) }
{
    if let Some(place) = place {
        return integer::write(block, LITERAL_PREFIX, LITERAL_FORM, place as u32 + 1);
    }
    block.push(LITERAL_FORM)?;
    text::write(block, name)
}
