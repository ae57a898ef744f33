//! Header lists as words: each header is two texts, its name and its value.

use rx_base::NoMemory;
use rx_hpack::Header;
use rx_rows::{RowFault, Turn};
use std::alloc::Global;

/// The headers of the words that are left.
pub(crate) fn read_headers(turn: &mut Turn<'_, '_>) -> Vec<Header> {
    let mut headers = Vec::new(turn.alloc());
    for _ in 0..u32::MAX {
        if turn.is_done() {
            break;
        }
        if headers.push(read_header(turn)).is_err() {
            turn.refuse(RowFault::NoMemory);
        }
    }
    headers
}

fn read_header(turn: &mut Turn<'_, '_>) -> Header {
    Header {
        name: turn.read_text(),
        value: turn.read_text(),
    }
}

/// A list of one header.
pub(crate) fn list_of(alloc: Global, name: &[u8], value: &[u8]) -> Result<Vec<Header>, NoMemory> {
    let mut list = Vec::new(alloc);
    list.push(Header {
        name: Vec::from_slice(alloc, name)?,
        value: Vec::from_slice(alloc, value)?,
    })?;
    Ok(list)
}
