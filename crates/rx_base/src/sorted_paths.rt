//! Lists of paths in the order of their bytes, and searches in these: which path of a list stands
//! above another, and which below.

ghost use Rattle.std.specs.Prelude.{◌≡◌, IfOk, position};
ghost use Rattle.std.specs.Ordering.{nat_cmp};
ghost use Rattle.std.specs.Str.{bytes_eq};
ghost use Rattle.std.specs.Cmp.Lexicographic.{slice_cmp};
ghost use Rattle.rx_base.specs.SortedPaths.{first_above, first_at_or_above, first_below, is_before, sorted_paths, AreSorted, HasSameMembers, IsFirstNotBefore};

use crate::item_list::Items;
use crate::memory::NoMemory;
use crate::paths::RelPath;
use std::cmp::Ordering;

/// These paths in the order of their bytes, each once.
pub fn sort_paths(paths: Items<RelPath>) -> Result<Items<RelPath>, NoMemory>
    ensures sorted { IfOk result (λ sorted. sorted ≡ sorted_paths paths) }
    ensures ascending { IfOk result (λ sorted. AreSorted sorted) }
    ensures members { IfOk result (λ sorted. HasSameMembers paths sorted) }
{
    let mut paths = paths.into_vec();
    paths.sort()?;
    paths.dedup();
    Ok(Items::from_vec(paths))
}

/// Which of these sorted paths, the first such, the path stands below. It takes one binary search
/// for each name of the path, and no memory.
pub fn first_above(paths: &[RelPath], path: &RelPath) -> Option<usize>
    requires { AreSorted paths.now }
    ensures { result ≡ first_above paths.now path.now }
{
    let text = path.as_str().as_bytes();
    for (at, byte) in text.iter().enumerate() {
        if at == 0 || *byte == b'/' {
            let (upper, _) = text.split_at(at);
            if let Some(found) = index_of(paths, upper) {
                return Some(found);
            }
        }
    }
    None
}

/// Which of these sorted paths, the first such, is the path or one that it stands below.
pub fn first_at_or_above(paths: &[RelPath], path: &RelPath) -> Option<usize>
    requires { AreSorted paths.now }
    ensures { result ≡ first_at_or_above paths.now path.now }
{
    match first_above(paths, path) {
        Some(at) => Some(at),
        None => index_of(paths, path.as_str().as_bytes()),
    }
}

/// Which of these sorted paths, the first such, stands below the path. It takes one binary search,
/// and no memory.
pub fn first_below(paths: &[RelPath], path: &RelPath) -> Option<usize>
    requires { AreSorted paths.now }
    ensures { result ≡ first_below paths.now path.now }
{
    if path.is_root() {
        // All but the root itself, which is at most the first of the list.
        return paths.iter().position(|other| other.is_below(path));
    }
    let at = first_not_before(paths, path);
    match paths.get(at) {
        Some(other) if other.is_below(path) => Some(at),
        _ => None,
    }
}

/// Where a text stands among these sorted paths.
pub(crate) fn index_of(paths: &[RelPath], text: &[u8]) -> Option<usize>
    requires { AreSorted paths.now }
    ensures { result ≡ position (λ other. bytes_eq text.now other) paths.now }
{
    paths
        .binary_search_by(
            |other: &RelPath| -> Ordering
                ensures { result ≡ slice_cmp nat_cmp other.now text.entry.now }
            { other.as_str().as_bytes().cmp(text) },
        )
        .ok()
}

/// How many of these sorted paths stand before all that could stand below the path, which begin
/// with it and a slash.
fn first_not_before(paths: &[RelPath], path: &RelPath) -> usize
    requires { AreSorted paths.now }
    ensures { IsFirstNotBefore paths.now path.now result }
{
    let text = path.as_str().as_bytes();
    paths.partition_point(
        |other: &RelPath| -> bool
            ensures { result ≡ is_before other.now text.entry.now }
        { is_before(other.as_str().as_bytes(), text) },
    )
}

/// Whether a text stands before another one with a slash behind it, in the order of the bytes.
fn is_before(text: &[u8], other: &[u8]) -> bool
    ensures { result ≡ is_before text.now other.now }
{
    match text.strip_prefix(other) {
        Some(rest) => rest < b"/".as_slice(),
        None => text < other,
    }
}
