//! What stands in the way of a command: a file above another one, a file at or above a directory of
//! the input tree or the working directory, or a file above an output.

ghost use Rattle.std.specs.Prelude.{◌≡◌, ◌≢◌, ◌<◌, ◌||◌, IfErr, IfOk, IfSome, None, OnOk, length, map, option_copied};
ghost use Rattle.std.specs.List.{list_any};
ghost use Rattle.std.specs.Option.{option_or};
ghost use Rattle.std.specs.Str.{bytes_eq};
ghost use Rattle.rx_base.specs.Paths.{is_below};
ghost use Rattle.rx_base.specs.SortedPaths.{AreSorted};
ghost use Rattle.rx_scan.specs.declared.gather_fault.GatherFault.TheVariants.{NoMemory as no_memory};
ghost use Rattle.rx_scan.specs.Ways.{BlamesWay, IsUpper, blocked, change_above, over_among, upper_among};

use crate::gather_fault::GatherFault;
use crate::seen_files::SeenFile;
use rx_base::{NoMemory, RelPath, TryClone, first_above, first_at_or_above};
use rx_world::{ChangedInput, Command, Look, Seen};
use std::alloc::Global;

/// Which of these sorted files a later path of the list stands below.
fn upper_index(files: &[RelPath], paths: &[RelPath]) -> Option<usize>
    requires { AreSorted files.now }
    ensures { result ≡ upper_among files.now paths.now }
{
    for path in paths {
        if let Some(at) = first_above(files, path) {
            return Some(at);
        }
    }
    None
}

/// Which of these sorted files is one of the directories, or stands above one.
fn over_index(files: &[RelPath], dirs: &[RelPath]) -> Option<usize>
    requires { AreSorted files.now }
    ensures { result ≡ over_among files.now dirs.now }
{
    for dir in dirs {
        if let Some(at) = first_at_or_above(files, dir) {
            return Some(at);
        }
    }
    None
}

/// Whether a path stands below one of these sorted files.
#[tactic(auto, using(rx_base::proofs::SortedSearch::position_is_any))]
fn is_below_one(path: &RelPath, files: &[RelPath]) -> bool
    requires { AreSorted files.now }
    ensures { result ≡ list_any (λ file. is_below path.now file) files.now }
{
    first_above(files, path).is_some()
}

/// Whether a path is one of these sorted files or stands below one.
#[tactic(auto, using(rx_base::proofs::SortedSearch::position_is_any))]
fn is_at_or_below_one(path: &RelPath, files: &[RelPath]) -> bool
    requires { AreSorted files.now }
    ensures { result ≡ list_any
        (λ file. bytes_eq path.now file || is_below path.now file) files.now }
{
    first_at_or_above(files, path).is_some()
}

/// What stands in the way of a command whose input tree has these sorted files: its working
/// directory, or the least output.
pub(crate) fn blocked_path<'a>(command: &'a Command, files: &[RelPath]) -> Option<&'a RelPath>
    requires { AreSorted files.now }
    ensures { option_copied result ≡ blocked command.now files.now }
{
    if is_at_or_below_one(&command.working_directory, files) {
        return Some(&command.working_directory);
    }
    for output in command.outputs.as_slice() {
        if is_below_one(output, files) {
            return Some(output);
        }
    }
    None
}

/// The refusal of a file that is also a directory, since something stands below it.
fn changed_above(alloc: Global, file: &SeenFile) -> Result<GatherFault, NoMemory>
    ensures { IfOk result (λ fault. fault ≡ change_above file.now) }
{
    Ok(GatherFault::InputChanged(ChangedInput {
        path: file.path.try_clone(alloc)?,
        first: Seen::from(Look::File {
            stamp: file.stamp,
            executable: file.executable,
        }),
        second: Seen::from(Look::Dir),
    }))
}

/// Refuses the file at this place, where there is one.
fn refuse_at(alloc: Global, files: &[SeenFile], place: Option<usize>) -> Result<(), GatherFault>
    requires { IfSome place (λ at. at < length files.now) }
    ensures none { OnOk result (place ≡ None) }
    ensures err { IfErr result (λ fault. fault ≢ no_memory → IsUpper files.now place fault) }
{
    match place {
        Some(at) => Err(changed_above(alloc, &files[at])?),
        None => Ok(()),
    }
}

/// Checks that none of these files stands above another one, or at or above a directory.
fn check_upper(
    alloc: Global,
    files: &[SeenFile],
    paths: &[RelPath],
    dirs: &[RelPath],
) -> Result<(), GatherFault>
    requires sorted { AreSorted paths.now }
    requires each { map (λ file. file.path) files.now ≡ paths.now }
    ensures apart { OnOk result (upper_among paths.now paths.now ≡ None) }
    ensures clear { OnOk result (over_among paths.now dirs.now ≡ None) }
    ensures err { IfErr result (λ fault. fault ≢ no_memory →
        IsUpper files.now (option_or (upper_among paths.now paths.now)
        (over_among paths.now dirs.now)) fault) }
{
    refuse_at(alloc, files, upper_index(paths, paths))?;
    refuse_at(alloc, files, over_index(paths, dirs))
}

/// Checks that none of these files stands above another one, at or above one of the directories, or
/// in the way of the command. The paths are those of the files, and are sorted.
pub(crate) fn check_way(
    alloc: Global,
    command: &Command,
    files: &[SeenFile],
    paths: &[RelPath],
    dirs: &[RelPath],
) -> Result<(), GatherFault>
    requires sorted { AreSorted paths.now }
    requires each { map (λ file. file.path) files.now ≡ paths.now }
    ensures free { OnOk result (blocked command.now paths.now ≡ None) }
    ensures apart { OnOk result (upper_among paths.now paths.now ≡ None) }
    ensures clear { OnOk result (over_among paths.now dirs.now ≡ None) }
    ensures err { IfErr result (BlamesWay command.now files.now paths.now dirs.now) }
{
    check_upper(alloc, files, paths, dirs)?;
    match blocked_path(command, paths) {
        Some(path) => Err(GatherFault::Blocked {
            path: path.try_clone(alloc)?,
        }),
        None => Ok(()),
    }
}
