//! The paths of a result matched with the outputs of its command: each is read on from the working
//! directory once, sought among the outputs, and counted there.

ghost use Rattle.std.specs.Prelude.{◌≡◌, IfOk, OnOk, Some, map};
ghost use Rattle.std.specs.Result.{result_ok};
ghost use Rattle.rx_base.specs.Paths.{join_of};
ghost use Rattle.rx_base.specs.SortedPaths.{AreSorted};
ghost use Rattle.rx_results.specs.ResultOutputs.{nothing_at, output_among, with_directories, with_files, with_links, with_path, AreOutputsOf};

use crate::result_outputs::{ResultFile, ResultOutput};
use rx_base::{Items, NoMemory, PathFault, RelPath, Text, TryClone};
use rx_messages::{OutputDirectory, OutputFile, OutputSymlink};
use rx_world::Command;
use std::alloc::{AllocError, Global};

/// The outputs of a command, with what these files, directories and links of a result have there.
/// Each takes a binary search.
pub(crate) fn match_outputs(
    alloc: Global,
    command: &Command,
    files: Items<OutputFile>,
    directories: &[OutputDirectory],
    links: &[OutputSymlink],
) -> Result<Vec<ResultOutput>, NoMemory>
    requires { AreSorted command.now.outputs }
    ensures { IfOk result (λ outputs. outputs.items
        ≡ map (output_among command.now files directories.now links.now) command.now.outputs) }
{
    let mut outputs = unmatched_outputs(alloc, command.outputs.as_slice())?;
    match_files(alloc, command, &mut outputs, files)?;
    match_directories(alloc, command, &mut outputs, directories)?;
    match_links(alloc, command, &mut outputs, links)?;
    Ok(outputs)
}

/// The outputs of a command at these paths, with nothing there.
fn unmatched_outputs(alloc: Global, paths: &[RelPath]) -> Result<Vec<ResultOutput>, NoMemory>
    ensures { IfOk result (λ outputs. outputs.items ≡ map nothing_at paths.now) }
{
    let mut outputs = Vec::with_capacity(alloc, paths.len())?;
    for path in paths {
        outputs.push(ResultOutput::new(path.try_clone(alloc)?))?;
    }
    Ok(outputs)
}

/// A path of the result, read on from the working directory, or none where it is refused.
fn read_path(alloc: Global, command: &Command, path: &Text) -> Result<Option<RelPath>, NoMemory>
    ensures { IfOk result (λ read.
        read ≡ result_ok (join_of command.now.working_directory path.now)) }
{
    match command.working_directory.join(alloc, path.as_str()) {
        Ok(path) => Ok(Some(path)),
        Err(fault) => match fault {
            PathFault::NoMemory => Err(AllocError),
            _ => Ok(None),
        },
    }
}

/// Counts a path of the result at the output that it is, with its file. One that is no output counts
/// nowhere.
fn match_path(
    alloc: Global,
    command: &Command,
    outputs: &mut Vec<ResultOutput>,
    path: &Text,
    file: Option<ResultFile>,
) -> Result<(), NoMemory>
    requires sorted { AreSorted command.now.outputs }
    requires outputs { AreOutputsOf command.now outputs.old.items }
    ensures matched { OnOk result
        (outputs.new.items ≡ map (with_path command.now path.now file) outputs.old.items) }
    ensures outputs { OnOk result (AreOutputsOf command.now outputs.new.items) }
{
    let Some(path) = read_path(alloc, command, path)? else {
        return Ok(());
    };
    if let Ok(at) = command.outputs.as_slice().binary_search(&path) {
        outputs[at].add(file);
    }
    Ok(())
}

/// Counts the result's files at their outputs.
fn match_files(
    alloc: Global,
    command: &Command,
    outputs: &mut Vec<ResultOutput>,
    files: Items<OutputFile>,
) -> Result<(), NoMemory>
    requires sorted { AreSorted command.now.outputs }
    requires outputs { AreOutputsOf command.now outputs.old.items }
    ensures matched { OnOk result
        (outputs.new.items ≡ map (with_files command.now files) outputs.old.items) }
    ensures outputs { OnOk result (AreOutputsOf command.now outputs.new.items) }
{
    for file in files.into_vec() {
        let (path, file) = ResultFile::of(file);
        match_path(alloc, command, outputs, &path, Some(file))?;
    }
    Ok(())
}

/// Counts the result's directories at their outputs.
fn match_directories(
    alloc: Global,
    command: &Command,
    outputs: &mut Vec<ResultOutput>,
    directories: &[OutputDirectory],
) -> Result<(), NoMemory>
    requires sorted { AreSorted command.now.outputs }
    requires outputs { AreOutputsOf command.now outputs.old.items }
    ensures matched { OnOk result
        (outputs.new.items ≡ map (with_directories command.now directories.now) outputs.old.items) }
    ensures outputs { OnOk result (AreOutputsOf command.now outputs.new.items) }
{
    for directory in directories {
        match_path(alloc, command, outputs, &directory.path, None)?;
    }
    Ok(())
}

/// Counts the result's links at their outputs.
fn match_links(
    alloc: Global,
    command: &Command,
    outputs: &mut Vec<ResultOutput>,
    links: &[OutputSymlink],
) -> Result<(), NoMemory>
    requires sorted { AreSorted command.now.outputs }
    requires outputs { AreOutputsOf command.now outputs.old.items }
    ensures { OnOk result
        (outputs.new.items ≡ map (with_links command.now links.now) outputs.old.items) }
{
    for link in links {
        match_path(alloc, command, outputs, &link.path, None)?;
    }
    Ok(())
}
