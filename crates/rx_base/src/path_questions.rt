//! Questions about one path and a sorted list of paths, each answered by binary searches and without
//! memory.

ghost use Rattle.std.specs.Prelude.{◌≡◌};
ghost use Rattle.rx_base.specs.SortedPaths.{is_above_any, is_among, is_at_or_below_any, is_below_any, AreSorted};

use crate::paths::RelPath;
use crate::sorted_paths::{first_above, first_at_or_above, first_below, index_of};

/// Whether the path is one of these sorted paths.
#[tactic(auto, using(crate::proofs::SortedSearch::position_is_any))]
pub fn is_among(path: &RelPath, paths: &[RelPath]) -> bool
    requires { AreSorted paths.now }
    ensures { result ≡ is_among path.now paths.now }
{
    index_of(paths, path.as_str().as_bytes()).is_some()
}

/// Whether the path stands below one of these sorted paths.
#[tactic(auto, using(crate::proofs::SortedSearch::position_is_any))]
pub fn is_below_any(path: &RelPath, paths: &[RelPath]) -> bool
    requires { AreSorted paths.now }
    ensures { result ≡ is_below_any path.now paths.now }
{
    first_above(paths, path).is_some()
}

/// Whether the path is one of these sorted paths, or stands below one.
#[tactic(auto, using(crate::proofs::SortedSearch::position_is_any))]
pub fn is_at_or_below_any(path: &RelPath, paths: &[RelPath]) -> bool
    requires { AreSorted paths.now }
    ensures { result ≡ is_at_or_below_any path.now paths.now }
{
    first_at_or_above(paths, path).is_some()
}

/// Whether the path stands above one of these sorted paths.
#[tactic(auto, using(crate::proofs::SortedSearch::position_is_any))]
pub fn is_above_any(path: &RelPath, paths: &[RelPath]) -> bool
    requires { AreSorted paths.now }
    ensures { result ≡ is_above_any path.now paths.now }
{
    first_below(paths, path).is_some()
}
