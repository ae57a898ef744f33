//! The scan of a command: the files that it declares and that its includes reach, and where they
//! keep it on this machine.

ghost use Rattle.std.specs.Prelude.{◌≡◌, ◌<◌, ◌≤◌, [], All, IfErr, IfOk, IfSome, MatchResult, None, OnOk, length};
ghost use Rattle.rx_base.specs.SortedPaths.{AreSorted};
ghost use Rattle.rx_scan.specs.Digests.{IsSeen};
ghost use Rattle.rx_reach.specs.Explored.{AreSeen, HaveDigests};
ghost use Rattle.rx_reach.specs.FileTables.{paths_of};
ghost use Rattle.rx_scan.specs.InputTrees.{paths_of as seen_paths};
ghost use Rattle.rx_scan.specs.Inputs.{OnlyTooMany};
ghost use Rattle.rx_scan.specs.Lists.{Fails, Learns};
ghost use Rattle.rx_scan.specs.Scanned.{BlamesScan, IsPathsOf, IsReachOf, IsScanOf};
ghost use Rattle.rx_reach.specs.Scans.{Ends, Scans};
ghost use Rattle.rx_reach.specs.Sights.{IsKnownAt};
ghost use Rattle.rx_scan.specs.SeenDirs.{IsDirSeen};

use crate::gather_fault::GatherFault;
use crate::inputs::{Declared, take_inputs, too_many};
use crate::limits::{Extent, MAX_SCAN_FILES, check_limits};
use crate::path_lists::{join_dirs, join_files};
use crate::seen_dirs::{dirs_seen, look_at_both};
use crate::seen_files::{SeenFile, files_seen};
use crate::words::WordMeaning;
use rx_base::{Items, RelPath};
use rx_digest_cache::DigestCache;
use rx_reach::{Reached, Search, SightFault, Sights, reach_files};
use rx_world::{InputFile, Sources, World};
use std::alloc::Global;
use std::sync::Wait;

/// The paths that a scan found.
#[derive(Debug, Drop)]
pub(crate) struct ScanPaths {
    /// The declared and the reached files, in order.
    pub files: Items<RelPath>,
    /// The declared directories without files, and those that the name of an include passes and
    /// leaves again, in order, without the root.
    pub dirs: Items<RelPath>,
    /// The reached files, which were read.
    pub known: Items<InputFile>,
    /// The least path that keeps the command on this machine.
    pub hard: Option<RelPath>,
}

/// What a scan found.
#[derive(Debug, Drop)]
pub(crate) struct Scanned {
    /// The declared and the reached files, in the order of their paths.
    pub files: Items<SeenFile>,
    /// The declared directories without files, and those that the name of an include passes and
    /// leaves again, in order, without the root.
    pub dirs: Items<RelPath>,
    /// The reached files, which were read.
    pub known: Items<InputFile>,
    /// The least path that keeps the command on this machine.
    pub hard: Option<RelPath>,
}

/// What includes reach, where they are followed at all.
fn reach_from<W: World, S: Sources<W>>(
    rt: &impl Wait,
    alloc: Global,
    sources: &mut S,
    sights: &mut Sights,
    cache: &DigestCache<W>,
    search: &Option<Search>,
) -> Result<Reached, SightFault>
    ensures ok { IfOk result (λ reached. Scans W.World S.Sources
        sources.old sources.new sights.old sights.new
        (λ scene. IsReachOf scene search.now reached)) }
    ensures sorted { IfOk result (λ reached. AreSorted (paths_of reached.files)) }
    ensures unsought { IfOk result (λ reached. search.now ≡ None → reached.hard ≡ None) }
    ensures seen { IfOk result (λ reached. AreSeen sights.new reached.files) }
    ensures known { IfOk result (λ reached. IfSome reached.hard (IsKnownAt sights.new)) }
    ensures digests { IfOk result (λ reached. W.stamps_honest →
        HaveDigests W.content reached.files) }
    ensures err { IfErr result (Ends W.World S.Sources sources.old sources.new sights.old) }
{
    match search {
        Some(search) => reach_files(rt, alloc, sources, sights, cache, search),
        None => Ok(nothing_reached(alloc)),
    }
}

fn nothing_reached(alloc: Global) -> Reached
    ensures { result ≡ record { files = []; hard = None; left = [] } }
{
    Reached {
        files: Items::new(alloc),
        hard: None,
        left: Items::new(alloc),
    }
}

/// Refuses more reached files than a scan may have.
fn refuse_many(reached: &[InputFile]) -> Result<(), GatherFault>
    ensures few { OnOk result (length reached.now ≤ 20000) }
    ensures many { IfErr result (OnlyTooMany (20000 < length reached.now)) }
{
    if reached.len() > MAX_SCAN_FILES {
        return Err(too_many());
    }
    Ok(())
}

/// Finds the paths of a command's files and directories.
fn find_paths<W: World, S: Sources<W>>(
    rt: &impl Wait,
    alloc: Global,
    sources: &mut S,
    sights: &mut Sights,
    cache: &DigestCache<W>,
    inputs: &[RelPath],
    meaning: &WordMeaning,
) -> Result<ScanPaths, GatherFault>
    ensures sorted { IfOk result (λ paths. AreSorted paths.files × AreSorted paths.dirs) }
    ensures unsought { IfOk result (λ paths. meaning.now.search ≡ None → paths.hard ≡ None) }
    ensures known { IfOk result (λ paths. IfSome paths.hard (IsKnownAt sights.new)) }
    ensures digests { IfOk result (λ paths. W.stamps_honest → HaveDigests W.content paths.known) }
    ensures found { MatchResult result
        (λ paths. Learns W.World S.Sources
        sources.old sources.new sights.old sights.new
        (λ scene. IsPathsOf scene inputs.now meaning.now paths))
        (λ fault. Fails W.World S.Sources
        sources.old sources.new sights.old sights.new (BlamesScan inputs.now meaning.now fault)) }
{
    let declared = take_inputs::<W, S>(alloc, sources, sights, inputs, meaning.roots.as_slice())?;
    let reached = reach_from(rt, alloc, sources, sights, cache, &meaning.search)?;
    let Declared { files, empty_dirs } = declared;
    let Reached {
        files: known,
        hard,
        left,
    } = reached;
    refuse_many(known.as_slice())?;
    let files = join_files(alloc, files, known.as_slice())?;
    let dirs = join_dirs(alloc, empty_dirs, left.as_slice())?;
    Ok(ScanPaths {
        files,
        dirs,
        known,
        hard,
    })
}

/// Scans for what a command runs on whose declared inputs are these, in order, and whose words say
/// this.
pub(crate) fn scan<W: World, S: Sources<W>>(
    rt: &impl Wait,
    alloc: Global,
    sources: &mut S,
    sights: &mut Sights,
    cache: &DigestCache<W>,
    inputs: &[RelPath],
    meaning: &WordMeaning,
) -> Result<Scanned, GatherFault>
    ensures few { IfOk result (λ scanned. length scanned.files ≤ 20000) }
    ensures sorted { IfOk result (λ scanned. AreSorted (seen_paths scanned.files)
        × AreSorted scanned.dirs) }
    ensures unsought { IfOk result (λ scanned. meaning.now.search ≡ None → scanned.hard ≡ None) }
    ensures seen { IfOk result (λ scanned. All (IsSeen sights.new) scanned.files
        × All (IsDirSeen sights.new) scanned.dirs) }
    ensures known { IfOk result (λ scanned. IfSome scanned.hard (IsKnownAt sights.new)) }
    ensures digests { IfOk result (λ scanned. W.stamps_honest →
        HaveDigests W.content scanned.known) }
    ensures scanned { MatchResult result
        (λ scanned. Learns W.World S.Sources
        sources.old sources.new sights.old sights.new
        (λ scene. IsScanOf scene inputs.now meaning.now scanned))
        (λ fault. Fails W.World S.Sources
        sources.old sources.new sights.old sights.new (BlamesScan inputs.now meaning.now fault)) }
{
    let found = find_paths(rt, alloc, sources, sights, cache, inputs, meaning)?;
    let ScanPaths {
        files,
        dirs,
        known,
        hard,
    } = found;
    look_at_both::<W, S>(alloc, sources, sights, files.as_slice(), dirs.as_slice())?;
    let files = files_seen(alloc, sights, files.as_slice())?;
    check_limits(alloc, Extent::Scan, files.as_slice())?;
    let dirs = dirs_seen(alloc, sights, dirs.as_slice())?;
    Ok(Scanned {
        files,
        dirs,
        known,
        hard,
    })
}
