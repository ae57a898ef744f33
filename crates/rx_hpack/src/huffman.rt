//! Strings in the Huffman code (RFC 7541 5.2 and appendix B): reading one. None is written.

ghost use Rattle.std.specs.Prelude.{◌<◌, ◌≡◌};
ghost use Rattle.rx_hpack.specs.Answers.{Gives};
ghost use Rattle.rx_hpack.specs.Huffman.{text_of};
ghost use Rattle.rx_hpack.specs.HuffmanTables.{GoesByte, GoesFour};

use crate::fault::HpackFault;
use crate::huffman_tables::{END_MARK, is_end, next_state, symbol};
use std::alloc::Global;

/// The text that a string's bytes spell in the Huffman code.
pub(crate) fn read(alloc: Global, coded: &[u8]) -> Result<Vec<u8>, HpackFault>
    ensures { Gives (λ text. text.items) result (text_of coded.now) }
{
    // The shortest codes have five bits.
    let mut text = Vec::with_capacity(alloc, coded.len().saturating_mul(8) / 5)?;
    let mut state = 0;
    for byte in coded {
        state = after_byte(state, *byte, &mut text)?;
    }
    if !is_end(state) {
        return Err(HpackFault::BadHuffman);
    }
    Ok(text)
}

/// Goes on by a byte, and pushes the bytes of text that it completes.
fn after_byte(state: u8, byte: u8, text: &mut Vec<u8>) -> Result<u8, HpackFault>
    ensures { GoesByte state byte text.old.items result text.new.items }
{
    let state = after_four(state, byte / 16, text)?;
    after_four(state, byte % 16, text)
}

/// Goes on by four bits, and pushes the byte of text that they complete.
fn after_four(state: u8, bits: u8, text: &mut Vec<u8>) -> Result<u8, HpackFault>
    requires { bits < 16 }
    ensures { GoesFour state bits text.old.items result text.new.items }
{
    let entry = 16 * state as usize + bits as usize;
    let symbol = symbol(entry);
    if symbol == END_MARK {
        return Err(HpackFault::BadHuffman);
    }
    if symbol < END_MARK {
        text.push(symbol as u8)?;
    }
    Ok(next_state(entry))
}
