//! Header lists as words: each header is a text `NAME: VALUE`.

ghost use Rattle.std.specs.Prelude.{◌≤◌, ◌+◌, length, IfOk, IfSome};
ghost use Rattle.std.specs.List.{All};
ghost use Rattle.rx_hpack.specs.Encoder.{IsWritable};

use rx_hpack::Header;
use rx_rows::{Answer, Row, RowFault};
use std::alloc::{AllocError, Global};

/// No name and no value of a row is longer.
const LONGEST_PART: usize = 65_536;

/// What stands between a name and a value.
const SEPARATOR: &[u8; 2] = b": ";

/// Where the separator stands in a text.
fn separator_at(text: &[u8]) -> Option<usize>
    ensures { IfSome result (λ at. at + 2 ≤ length text.now) }
{
    for end in 1..text.len() {
        if text[end - 1] == SEPARATOR[0] && text[end] == SEPARATOR[1] {
            return Some(end - 1);
        }
    }
    None
}

/// The header that a text shows. The name of a pseudo-header begins with a colon, but has no space behind that.
fn read_header(alloc: Global, text: &[u8]) -> Result<Header, RowFault>
    ensures { IfOk result IsWritable }
{
    let Some(at) = separator_at(text) else {
        return Err(RowFault::BadText);
    };
    let name = &text[..at];
    let value = &text[at + SEPARATOR.len()..];
    if name.len() > LONGEST_PART || value.len() > LONGEST_PART {
        return Err(RowFault::BadText);
    }
    Ok(Header {
        name: Vec::from_slice(alloc, name)?,
        value: Vec::from_slice(alloc, value)?,
    })
}

/// The headers of the words that are left.
pub(crate) fn read_headers(alloc: Global, row: &mut Row<'_>) -> Result<Vec<Header>, RowFault>
    ensures { IfOk result (λ headers. All IsWritable headers.items) }
{
    let mut headers = Vec::new(alloc);
    for _ in 0..u32::MAX {
        if row.is_done() {
            break;
        }
        let text = row.text(alloc)?;
        headers.push(read_header(alloc, &text)?)?;
    }
    Ok(headers)
}

/// Writes each header as a word.
pub(crate) fn write_headers(
    alloc: Global,
    headers: &[Header],
    answer: &mut Answer,
) -> Result<(), AllocError> {
    for header in headers {
        let mut text = Vec::from_slice(alloc, &header.name)?;
        text.extend_from_slice(SEPARATOR)?;
        text.extend_from_slice(&header.value)?;
        answer.text(&text)?;
    }
    Ok(())
}
