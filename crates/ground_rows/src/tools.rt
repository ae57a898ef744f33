//! Runs of the Toy world's tool, of `rx_world`.

use rx_base::{Bytes, Items, RelPath};
use rx_row_values::path_of;
use rx_rows::{Answer, Row, RowFault};
use rx_world::{Command, FileOut, Tree, keep_outcome, toy_run};
use std::alloc::Global;

/// The file `a` with these bytes, alone in a tree.
fn tree_of(alloc: Global, bytes: Vec<u8>) -> Result<Tree, RowFault> {
    let mut files = Items::new(alloc);
    files.push(FileOut {
        path: path_of(alloc, "a")?,
        bytes: Bytes::from_vec(bytes),
        executable: false,
    })?;
    Ok(Tree {
        files,
        directories: Items::new(alloc),
    })
}

/// A command with the output `b`.
fn command_of(alloc: Global) -> Result<Command, RowFault> {
    let mut outputs = Items::new(alloc);
    outputs.push(path_of(alloc, "b")?)?;
    Ok(Command {
        words: Items::new(alloc),
        environment: Items::new(alloc),
        working_directory: RelPath::root(alloc),
        outputs,
        platform: Items::new(alloc),
        timeout_seconds: 0,
    })
}

/// `toy TEXT`: what the tool makes of a tree that has this text at `a`: the code, the error text, and the
/// file at `b` where there is one.
pub(crate) fn answer_toy(
    alloc: Global,
    row: &mut Row<'_>,
    answer: &mut Answer,
) -> Result<(), RowFault> {
    let tree = tree_of(alloc, row.text(alloc)?)?;
    let outcome = toy_run(alloc, &command_of(alloc)?, &tree)?;
    let kept = keep_outcome(alloc, &outcome)?;
    answer.value(&kept.code)?;
    answer.text(outcome.exit.stderr.as_slice())?;
    for file in outcome.files.as_slice() {
        answer.text(file.bytes.as_slice())?;
    }
    Ok(())
}
