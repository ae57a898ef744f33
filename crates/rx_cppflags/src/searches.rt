//! Searches among paths: which of many stands above or below one.

ghost use Rattle.std.specs.Prelude.{◌≡◌, IfOk, IsTrue};
ghost use Rattle.std.specs.List.{list_any};
ghost use Rattle.rx_base.specs.Paths.{is_below};
ghost use Rattle.rx_base.specs.SortedPaths.{AreSorted};
ghost use Rattle.rx_cppflags.specs.Outside.{is_apart};

use rx_base::{Items, NoMemory, RelPath, TryClone, first_above, first_below};
use std::alloc::Global;
use std::cmp::Ordering;

/// Whether each path stands before the next one, in the order of their bytes.
pub(crate) fn are_sorted(paths: &[RelPath]) -> bool
    ensures { IsTrue result → AreSorted paths.now }
{
    for i in 1..paths.len() {
        match paths[i - 1].cmp(&paths[i]) {
            Ordering::Less => {}
            Ordering::Equal | Ordering::Greater => return false,
        }
    }
    true
}

/// A copy of these paths.
pub(crate) fn copy_paths(alloc: Global, paths: &[RelPath]) -> Result<Items<RelPath>, NoMemory>
    ensures { IfOk result (λ copy. copy ≡ paths.now) }
{
    let mut copy = Vec::with_capacity(alloc, paths.len())?;
    for path in paths {
        copy.push(path.try_clone(alloc)?)?;
    }
    Ok(Items::from_vec(copy))
}

/// Whether one of these sorted paths stands below the path.
pub(crate) fn is_above_one(path: &RelPath, others: &[RelPath]) -> bool
    requires { AreSorted others.now }
    ensures { result ≡ list_any (λ other. is_below other path.now) others.now }
{
    first_below(others, path).is_some()
}

/// Whether none of these sorted paths stands above or below the path.
pub(crate) fn is_apart(path: &RelPath, others: &[RelPath]) -> bool
    requires { AreSorted others.now }
    ensures { result ≡ is_apart others.now path.now }
{
    first_above(others, path).is_none() && first_below(others, path).is_none()
}
