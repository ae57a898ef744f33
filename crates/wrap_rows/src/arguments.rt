//! Arguments that several calls read.

use rx_base::Text;
use rx_rows::{Row, RowFault};
use rx_world::Pair;
use std::alloc::Global;

/// The next word, a text in quotes that is UTF-8.
pub(crate) fn read_text(alloc: Global, row: &mut Row<'_>) -> Result<Text, RowFault> {
    match String::from_utf8(row.text(alloc)?) {
        Ok(text) => Ok(Text::from_string(text)),
        Err(_) => Err(RowFault::BadText),
    }
}

/// All texts that are left.
pub(crate) fn read_texts(alloc: Global, row: &mut Row<'_>) -> Result<Vec<Text>, RowFault> {
    let mut texts = Vec::new(alloc);
    for _ in 0..u64::MAX {
        if row.is_done() {
            return Ok(texts);
        }
        texts.push(read_text(alloc, row)?)?;
    }
    Ok(texts)
}

/// `COUNT NAME VALUE ..`: variables of an environment.
pub(crate) fn read_variables(alloc: Global, row: &mut Row<'_>) -> Result<Vec<Pair>, RowFault> {
    let mut variables = Vec::new(alloc);
    for _ in 0..row.number()? {
        variables.push(Pair {
            name: read_text(alloc, row)?,
            value: read_text(alloc, row)?,
        })?;
    }
    Ok(variables)
}
