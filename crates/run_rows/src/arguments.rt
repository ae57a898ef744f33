//! The arguments of rows: words of a command line, files and the parts that fail.

use crate::plans::{Node, Part};
use rx_base::{Bytes, Digest, read_hash};
use rx_row_values::read_string;
use rx_rows::{Row, RowFault};
use rx_world::Stamp;
use std::alloc::Global;

/// The words of a text, with one space between each two.
pub(crate) fn words_in(alloc: Global, row: &mut Row<'_>) -> Result<Vec<String>, RowFault> {
    let text = read_string(alloc, row)?;
    let mut words = Vec::new(alloc);
    for word in text.as_str().split(' ') {
        words.push(String::from_str(alloc, word)?)?;
    }
    Ok(words)
}

/// The next word, a digest.
pub(crate) fn read_digest(row: &mut Row<'_>) -> Result<Digest, RowFault> {
    digest_in(row.word()?)
}

/// The digest of a word, as answers have it: `HASH/SIZE`.
pub(crate) fn digest_in(word: &str) -> Result<Digest, RowFault> {
    let Some((hash, size)) = word.split_once('/') else {
        return Err(RowFault::BadBytes);
    };
    match (read_hash(hash), size.parse::<u64>()) {
        (Ok(hash), Ok(size)) => Ok(Digest { hash, size }),
        _ => Err(RowFault::BadBytes),
    }
}

/// What may stand behind the text of a file: `mark N` and `executable`.
fn marks_in(row: &mut Row<'_>) -> Result<(u64, bool), RowFault> {
    let mut mark = 1;
    let mut executable = false;
    for _ in 0..2 {
        if row.is_done() {
            return Ok((mark, executable));
        }
        match row.word()? {
            "mark" => mark = row.number()?,
            "executable" => executable = true,
            _ => return Err(RowFault::BadCall),
        }
    }
    Ok((mark, executable))
}

/// A file with these bytes. Its stamp has their size.
pub(crate) fn file_in(alloc: Global, row: &mut Row<'_>) -> Result<Node, RowFault> {
    let bytes = Bytes::from_vec(row.text(alloc)?);
    let (mark, executable) = marks_in(row)?;
    let stamp = Stamp {
        size: bytes.len() as u64,
        mark: u128::from(mark),
    };
    Ok(Node::File {
        stamp,
        executable,
        bytes,
    })
}

/// A file without bytes, whose stamp has another size.
pub(crate) fn sized_in(alloc: Global, row: &mut Row<'_>) -> Result<Node, RowFault> {
    let size = row.number()?;
    Ok(Node::File {
        stamp: Stamp { size, mark: 1 },
        executable: false,
        bytes: Bytes::new(alloc),
    })
}

/// The part that the next word names.
pub(crate) fn part_in(row: &mut Row<'_>) -> Result<Part, RowFault> {
    part_of(row.word()?)
}

/// The part of a word.
pub(crate) fn part_of(word: &str) -> Result<Part, RowFault> {
    match word {
        "input" => Ok(Part::Input),
        "output" => Ok(Part::Output),
        "tree" => Ok(Part::Tree),
        "local" => Ok(Part::TreeLocal),
        "remote" => Ok(Part::TreeRemote),
        "benches" => Ok(Part::Benches),
        "bench" => Ok(Part::Bench),
        "farm" => Ok(Part::Farm),
        "place" => Ok(Part::Place),
        "front" => Ok(Part::Front),
        _ => Err(RowFault::BadCall),
    }
}
