//! The paths of a command's outputs, seen from its working directory.

ghost use Rattle.std.specs.Prelude.{◌≡◌, IfOk, map};
ghost use Rattle.rx_action.specs.OutputPaths.{checked, misplaced, output_paths, path_behind};

use crate::action_fault::ActionFault;
use rx_base::{Items, NoMemory, RelPath, Text};
use std::alloc::Global;

/// Refuses the first output that isn't below the working directory.
pub(crate) fn check_outputs(directory: &RelPath, outputs: &[RelPath]) -> Result<(), ActionFault>
    ensures { result ≡ checked (misplaced directory.now outputs.now) }
{
    match misplaced(directory, outputs) {
        Some(at) => Err(ActionFault::BadOutputPath(at)),
        None => Ok(()),
    }
}

/// Which output, the first such, isn't below the directory.
fn misplaced(directory: &RelPath, outputs: &[RelPath]) -> Option<usize>
    ensures { result ≡ misplaced directory.now outputs.now }
{
    outputs
        .iter()
        .position(|output| !output.is_below(directory))
}

/// The paths of these outputs on from the directory, in the order of their bytes, each once.
pub(crate) fn output_paths(
    alloc: Global,
    directory: &RelPath,
    outputs: &[RelPath],
) -> Result<Items<Text>, NoMemory>
    ensures { IfOk result (λ paths. paths ≡ output_paths directory.now outputs.now) }
{
    let mut paths = paths_behind(alloc, directory, outputs)?;
    paths.sort()?;
    paths.dedup();
    Ok(Items::from_vec(paths))
}

/// The paths of these outputs on from the directory.
fn paths_behind(
    alloc: Global,
    directory: &RelPath,
    outputs: &[RelPath],
) -> Result<Vec<Text>, NoMemory>
    ensures { IfOk result (λ paths. paths.items ≡ map (path_behind directory.now) outputs.now) }
{
    let mut paths = Vec::with_capacity(alloc, outputs.len())?;
    for output in outputs {
        paths.push(Text::copy_of(alloc, path_behind(directory, output))?)?;
    }
    Ok(paths)
}

/// What stands in a path behind a directory's path and a slash, or the whole path where it doesn't
/// begin with these.
fn path_behind<'a>(directory: &RelPath, path: &'a RelPath) -> &'a str
    ensures { result.now ≡ path_behind directory.now path.now }
{
    match path.as_str().strip_prefix(directory.as_str()) {
        Some(rest) => match rest.strip_prefix("/") {
            Some(behind) => behind,
            None => path.as_str(),
        },
        None => path.as_str(),
    }
}
