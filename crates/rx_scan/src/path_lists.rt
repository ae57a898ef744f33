//! Lists of paths, joined and put in order.

ghost use Rattle.std.specs.Prelude.{◌≡◌, ◌≢◌, ◌↔◌, ◌⊎◌, ◌++◌, ◌==◌, ℕ, [], Contains, IfOk, List, filter, length, map, not};
ghost use Rattle.rx_base.specs.SortedPaths.{AreSorted};
ghost use Rattle.rx_reach.specs.FileTables.{paths_of};

use crate::seen_files::SeenFile;
use rx_base::{Items, NoMemory, RelPath, TryClone, sort_paths};
use rx_world::{Found, InputFile};
use std::alloc::Global;

/// What has a path of a source tree.
pub(crate) trait HasPath {
    /// Its path.
    ghost place: { Self → List ℕ };

    fn path(&self) -> &RelPath
        ensures { result.now ≡ place self.now };
}

impl HasPath for RelPath {
    ghost place = { λ path. path };

    fn path(&self) -> &RelPath {
        self
    }
}

impl HasPath for Found {
    ghost place = { λ found. found.path };

    fn path(&self) -> &RelPath {
        &self.path
    }
}

impl HasPath for InputFile {
    ghost place = { λ file. file.path };

    fn path(&self) -> &RelPath {
        &self.path
    }
}

impl HasPath for SeenFile {
    ghost place = { λ file. file.path };

    fn path(&self) -> &RelPath {
        &self.path
    }
}

/// These paths, and those of the items behind them.
pub(crate) fn with_paths<T: HasPath>(
    alloc: Global,
    mut paths: Items<RelPath>,
    items: &[T],
) -> Result<Items<RelPath>, NoMemory>
    ensures { IfOk result (λ all. all ≡ paths ++ map T.place items.now) }
{
    for item in items {
        paths.push(item.path().try_clone(alloc)?)?;
    }
    Ok(paths)
}

/// The paths but the root.
fn below_root(alloc: Global, paths: &[RelPath]) -> Result<Items<RelPath>, NoMemory>
    ensures { IfOk result (λ below. below ≡ filter (λ path. not (length path == 0)) paths.now) }
{
    let mut below = Items::new(alloc);
    for path in paths {
        if !path.is_root() {
            below.push(path.try_clone(alloc)?)?;
        }
    }
    Ok(below)
}

/// These paths and those of the files, in order, each once.
pub(crate) fn join_files(
    alloc: Global,
    paths: Items<RelPath>,
    files: &[InputFile],
) -> Result<Items<RelPath>, NoMemory>
    ensures sorted { IfOk result AreSorted }
    ensures members { IfOk result (λ all. (path : List ℕ) → Contains all path ↔ (Contains paths path
        ⊎ Contains (paths_of files.now) path)) }
{
    let all = with_paths(alloc, paths, files)?;
    let sorted = sort_paths(all)?;
    Ok(sorted)
}

/// These paths and the others but the root, in order, each once.
pub(crate) fn join_dirs(
    alloc: Global,
    paths: Items<RelPath>,
    others: &[RelPath],
) -> Result<Items<RelPath>, NoMemory>
    ensures sorted { IfOk result AreSorted }
    ensures members { IfOk result (λ all. (path : List ℕ) → Contains all path ↔ ((path ≢ [])
        × (Contains paths path ⊎ Contains others.now path))) }
{
    let all = with_paths(alloc, paths, others)?;
    let below = below_root(alloc, all.as_slice())?;
    let sorted = sort_paths(below)?;
    Ok(sorted)
}

/// These paths and this one, unless it is the root, in order, each once.
pub(crate) fn with_directory(
    alloc: Global,
    mut paths: Items<RelPath>,
    directory: &RelPath,
) -> Result<Items<RelPath>, NoMemory>
    ensures sorted { IfOk result AreSorted }
    ensures members { IfOk result (λ all. (path : List ℕ) → Contains all path ↔ ((path ≢ [])
        × (Contains paths path ⊎ (path ≡ directory.now)))) }
{
    paths.push(directory.try_clone(alloc)?)?;
    let below = below_root(alloc, paths.as_slice())?;
    let sorted = sort_paths(below)?;
    Ok(sorted)
}
