//! Files and directories of a tree in memory.

ghost use Rattle.std.specs.Prelude.{◌≡◌, IfOk, IfSome, OnErr, OnOk, option_map};
ghost use Rattle.rx_fakes.specs.Placing.{file_out};
ghost use Rattle.rx_world.specs.Files.{all_placed_by, file_at, with_file};
ghost use Rattle.rx_world.specs.Trees.{tree_with_directory, tree_with_file, with_prefixes};

use crate::placing::place_in;
use rx_base::{Bytes, Items, NoMemory, RelPath, TryClone};
use rx_world::{FileOut, Tree};
use std::alloc::Global;

/// The file at a path.
fn find_file<'a>(files: &'a [FileOut], path: &RelPath) -> Option<&'a FileOut>
    ensures found { option_map (λ file. file.now) result ≡ file_at path.now files.now }
    ensures path { IfSome result (λ file. file.now.path ≡ path.now) }
{
    for file in files {
        if file.path == *path {
            return Some(file);
        }
    }
    None
}

/// A copy of the file at a path.
pub(crate) fn take_file(
    alloc: Global,
    files: &[FileOut],
    path: &RelPath,
) -> Result<Option<FileOut>, NoMemory>
    ensures found { IfOk result (λ file. file ≡ file_at path.now files.now) }
    ensures path { IfOk result (λ file. IfSome file (λ f. f.path ≡ path.now)) }
{
    match find_file(files, path) {
        Some(file) => Ok(Some(file.try_clone(alloc)?)),
        None => Ok(None),
    }
}

/// Puts a file at a path. Where memory is wanting, all stays as it was.
pub(crate) fn put_file(
    alloc: Global,
    files: &mut Items<FileOut>,
    path: &RelPath,
    bytes: &[u8],
    executable: bool,
) -> Result<(), NoMemory>
    ensures ok { OnOk result
        (files.new ≡ with_file (file_out path.now bytes.now executable) files.old) }
    ensures err { OnErr result (files.new ≡ files.old) }
{
    let file = FileOut {
        path: path.try_clone(alloc)?,
        bytes: Bytes::copy_of(alloc, bytes)?,
        executable,
    };
    place_in(alloc, files, file)
}

/// Adds directories, one after the other.
fn add_directories(
    alloc: Global,
    directories: &mut Items<RelPath>,
    paths: &[RelPath],
) -> Result<(), NoMemory>
    ensures { OnOk result
        (directories.new ≡ all_placed_by (λ path. path) paths.now directories.old) }
{
    for path in paths {
        place_in(alloc, directories, path.try_clone(alloc)?)?;
    }
    Ok(())
}

/// A path and those above it, the root left out.
#[tactic(auto, using(crate::proofs::Prefixes::with_prefixes_some))]
fn down_to(alloc: Global, path: &RelPath) -> Result<Items<RelPath>, NoMemory>
    ensures { IfOk result (λ paths. paths ≡ with_prefixes path.now) }
{
    if path.is_root() {
        return Ok(Items::new(alloc));
    }
    let mut paths = path.prefixes(alloc)?;
    paths.push(path.try_clone(alloc)?)?;
    Ok(paths)
}

/// Adds a directory and those above it.
pub(crate) fn add_directory(alloc: Global, tree: &mut Tree, path: &RelPath) -> Result<(), NoMemory>
    ensures { OnOk result (tree.new ≡ tree_with_directory path.now tree.old) }
{
    let paths = down_to(alloc, path)?;
    add_directories(alloc, &mut tree.directories, paths.as_slice())
}

/// Adds a file, and the directories above it.
pub(crate) fn add_file(
    alloc: Global,
    tree: &mut Tree,
    path: &RelPath,
    bytes: &[u8],
    executable: bool,
) -> Result<(), NoMemory>
    ensures { OnOk result
        (tree.new ≡ tree_with_file (file_out path.now bytes.now executable) tree.old) }
{
    let above = path.prefixes(alloc)?;
    add_directories(alloc, &mut tree.directories, above.as_slice())?;
    put_file(alloc, &mut tree.files, path, bytes, executable)
}
