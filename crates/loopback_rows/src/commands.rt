//! The one command of the attempts.

ghost use Rattle.std.specs.Prelude.{◌≡◌, IfOk};
ghost use Rattle.std.specs.List.{list_all};
ghost use Rattle.rx_action.specs.OutputPaths.{AreBelow};
ghost use Rattle.rx_base.specs.Paths.{is_below};
ghost use Rattle.rx_base.specs.SortedPaths.{AreSorted};

use rx_base::{Items, RelPath, Text, sort_paths};
use rx_row_values::path_of;
use rx_rows::RowFault;
use rx_world::Command;
use std::alloc::Global;

/// The command `t` in the root, which writes the one output `b`.
pub(crate) fn command(alloc: Global) -> Result<Command, RowFault>
    ensures sorted { IfOk result (λ command. AreSorted command.outputs) }
    ensures below { IfOk result (λ command.
        AreBelow command.working_directory command.outputs) }
{
    let mut words = Items::new(alloc);
    words.push(Text::copy_of(alloc, "t")?)?;
    let mut outputs = Items::new(alloc);
    outputs.push(path_of(alloc, "b")?)?;
    let outputs = sort_paths(outputs)?;
    let working_directory = RelPath::root(alloc);
    if !are_below(&working_directory, outputs.as_slice()) {
        return Err(RowFault::BadCall);
    }
    Ok(Command {
        words,
        environment: Items::new(alloc),
        working_directory,
        outputs,
        platform: Items::new(alloc),
        timeout_seconds: 0,
    })
}

/// Whether each of these paths is below the directory.
fn are_below(directory: &RelPath, paths: &[RelPath]) -> bool
    ensures { result ≡ list_all (λ path. is_below path directory.now) paths.now }
{
    paths.iter().all(|path| path.is_below(directory))
}
