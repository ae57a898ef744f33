//! Commands, as arguments of rows.

use rx_base::{Items, Text};
use rx_row_values::{path_of, read_string};
use rx_rows::{Row, RowFault};
use rx_world::{Command, Pair};
use std::alloc::Global;

/// All texts that are left: a command of these words, in the directory `work`, with one variable.
pub(crate) fn read_command(alloc: Global, row: &mut Row<'_>) -> Result<Command, RowFault> {
    let mut environment = Items::new(alloc);
    environment.push(Pair {
        name: Text::copy_of(alloc, "ONLY")?,
        value: Text::copy_of(alloc, "this")?,
    })?;
    Ok(Command {
        words: read_words(alloc, row)?,
        environment,
        working_directory: path_of(alloc, "work")?,
        outputs: Items::new(alloc),
        platform: Items::new(alloc),
        timeout_seconds: 0,
    })
}

/// All texts that are left.
fn read_words(alloc: Global, row: &mut Row<'_>) -> Result<Items<Text>, RowFault> {
    let mut words = Items::new(alloc);
    for _ in 0..u64::MAX {
        if row.is_done() {
            break;
        }
        words.push(Text::from_string(read_string(alloc, row)?))?;
    }
    Ok(words)
}
