//! Commands and paths, made of the texts of rows.

use rx_base::{Items, RelPath, Text};
use rx_row_values::{path_of, read_string};
use rx_rows::{Row, RowFault};
use rx_world::{Command, Kind, Pair, Strategy};
use std::alloc::Global;

/// The next word, a text with one space between each two paths.
pub(crate) fn paths_in(alloc: Global, row: &mut Row<'_>) -> Result<Items<RelPath>, RowFault> {
    let text = read_string(alloc, row)?;
    let mut paths = Items::new(alloc);
    for path in text.as_str().split_whitespace() {
        paths.push(path_of(alloc, path)?)?;
    }
    Ok(paths)
}

/// The words of a text, with one space between each two.
fn words_of(alloc: Global, text: &str) -> Result<Items<Text>, RowFault> {
    let mut words = Items::new(alloc);
    for word in text.split(' ') {
        words.push(Text::copy_of(alloc, word)?)?;
    }
    Ok(words)
}

/// Variables of these names, without values.
pub(crate) fn variables_of(alloc: Global, text: &str) -> Result<Items<Pair>, RowFault> {
    let mut pairs = Items::new(alloc);
    for name in text.split_whitespace() {
        pairs.push(Pair {
            name: Text::copy_of(alloc, name)?,
            value: Text::new(alloc),
        })?;
    }
    Ok(pairs)
}

/// The next word, a command's words, in the directory `w`, with one output of its own.
pub(crate) fn command_in(
    alloc: Global,
    row: &mut Row<'_>,
    output: &str,
) -> Result<Command, RowFault> {
    let text = read_string(alloc, row)?;
    let mut outputs = Items::new(alloc);
    outputs.push(path_of(alloc, output)?)?;
    Ok(Command {
        words: words_of(alloc, text.as_str())?,
        environment: Items::new(alloc),
        working_directory: path_of(alloc, "w")?,
        outputs,
        platform: Items::new(alloc),
        timeout_seconds: 0,
    })
}

/// The next word, a kind.
pub(crate) fn kind_in(row: &mut Row<'_>) -> Result<Kind, RowFault> {
    match row.word()? {
        "tool" => Ok(Kind::Tool),
        "compile" => Ok(Kind::Compile),
        _ => Err(RowFault::BadCall),
    }
}

/// The next word, a strategy.
pub(crate) fn strategy_in(row: &mut Row<'_>) -> Result<Strategy, RowFault> {
    match row.word()? {
        "local" => Ok(Strategy::Local),
        "remote" => Ok(Strategy::Remote),
        "fallback" => Ok(Strategy::RemoteLocalFallback),
        "racing" => Ok(Strategy::Racing),
        _ => Err(RowFault::BadCall),
    }
}
