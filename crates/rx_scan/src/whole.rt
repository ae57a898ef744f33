//! Everything that a source tree lists but the outputs of a command: the input tree of a command that
//! only this machine can run.

ghost use Rattle.std.specs.Prelude.{◌≡◌, ◌≤◌, All, IfOk, MatchResult, length, map};
ghost use Rattle.std.specs.List.{list_any};
ghost use Rattle.std.specs.Str.{bytes_eq};
ghost use Rattle.rx_base.specs.SortedPaths.{AreSorted};
ghost use Rattle.rx_scan.specs.Digests.{IsSeen};
ghost use Rattle.rx_scan.specs.Lists.{Fails, Learns};
ghost use Rattle.rx_scan.specs.Whole.{BlamesWhole, IsWholeBy, without};

use crate::gather_fault::GatherFault;
use crate::limits::{Extent, MAX_LIST_FILES, check_limits};
use crate::lists::list_noted;
use crate::path_lists::with_paths;
use crate::seen_files::{SeenFile, files_seen};
use rx_base::{Items, NoMemory, RelPath, TryClone, sort_paths};
use rx_reach::Sights;
use rx_world::{Sources, World};
use std::alloc::Global;

/// The paths that aren't among the others, which are sorted.
fn without(alloc: Global, paths: &[RelPath], others: &[RelPath]) -> Result<Items<RelPath>, NoMemory>
    requires { AreSorted others.now }
    ensures { IfOk result (λ left. left ≡ without paths.now others.now) }
{
    let mut left = Items::new(alloc);
    for path in paths {
        if !is_among(path, others) {
            left.push(path.try_clone(alloc)?)?;
        }
    }
    Ok(left)
}

/// Whether a path is one of these sorted paths.
fn is_among(path: &RelPath, others: &[RelPath]) -> bool
    requires { AreSorted others.now }
    ensures { result ≡ list_any (λ other. bytes_eq path.now other) others.now }
{
    others.binary_search(path).is_ok()
}

/// All files that the source tree lists, within the limits of a whole list, but for the outputs, which
/// are sorted.
pub(crate) fn take_whole<W: World, S: Sources<W>>(
    alloc: Global,
    sources: &mut S,
    sights: &mut Sights,
    outputs: &[RelPath],
) -> Result<Items<SeenFile>, GatherFault>
    requires { AreSorted outputs.now }
    ensures sorted { IfOk result (λ files. AreSorted (map (λ file. file.path) files)) }
    ensures few { IfOk result (λ files. length files ≤ 50000) }
    ensures seen { IfOk result (All (IsSeen sights.new)) }
    ensures taken { MatchResult result
        (λ files. Learns W.World S.Sources
        sources.old sources.new sights.old sights.new (λ scene. IsWholeBy scene outputs.now files))
        (λ fault. Fails W.World S.Sources
        sources.old sources.new sights.old sights.new (BlamesWhole fault)) }
{
    let root = RelPath::root(alloc);
    let found = list_noted::<W, S>(alloc, sources, sights, &root, MAX_LIST_FILES)?;
    let listed = with_paths(alloc, Items::new(alloc), found.as_slice())?;
    let paths = sort_paths(listed)?;
    let files = files_seen(alloc, sights, paths.as_slice())?;
    check_limits(alloc, Extent::WholeList, files.as_slice())?;
    let left = without(alloc, paths.as_slice(), outputs)?;
    let inputs = files_seen(alloc, sights, left.as_slice())?;
    Ok(inputs)
}
