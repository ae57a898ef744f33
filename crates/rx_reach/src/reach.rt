//! The files that includes can reach from a source.

ghost use Rattle.std.specs.Prelude.{◌≡◌, ◌≤◌, ◌+◌, ℕ, List, [], Contains, IfErr, IfOk, IfSome, OnOk, length};
ghost use Rattle.rx_base.specs.SortedPaths.{AreSorted};
ghost use Rattle.rx_reach.specs.Explored.{Advances, AreSeen, Explored, GoesOn, HaveDigests, IsExplored};
ghost use Rattle.rx_reach.specs.FileTables.{paths_of};
ghost use Rattle.rx_reach.specs.Opened.{IsOpened};
ghost use Rattle.rx_reach.specs.Progress.{AreApart};
ghost use Rattle.rx_reach.specs.Reach.{IsLeastPath, IsReach, most_tree_files};
ghost use Rattle.rx_reach.specs.Scans.{Ends, Scans};
ghost use Rattle.rx_reach.specs.Sights.{AreKnownAt, IsKnownAt};
ghost use Rattle.rx_reach.specs.Visits.{Begins};

use crate::faults::SightFault;
use crate::file_tables::FileTable;
use crate::path_sets::PathSet;
use crate::progress::Progress;
use crate::searches::Search;
use crate::seeks::seek_named;
use crate::sights::Sights;
use crate::visits::visit;
use rx_base::{Items, NoMemory, RelPath};
use rx_digest_cache::DigestCache;
use rx_world::{InputFile, Sources, World};
use std::alloc::Global;
use std::sync::Wait;

/// One more than the most files of a scanned tree.
const MOST_READS: usize = 20_001;

/// What a scan of includes found.
#[derive(Debug, Drop)]
pub struct Reached {
    /// The reached files, in the order of their paths.
    pub files: Items<InputFile>,
    /// The least path that makes the command hard.
    pub hard: Option<RelPath>,
    /// The directories that a candidate's name passes and leaves again, in order, each once.
    pub left: Items<RelPath>,
}

/// Begins at the source, the forced files and the ways to the paths that words name.
fn begin<W: World, S: Sources<W>>(
    alloc: Global,
    sources: &mut S,
    sights: &mut Sights,
    search: &Search,
) -> Result<Progress, SightFault>
    ensures ok { IfOk result (λ progress. Scans W.World S.Sources
        sources.old sources.new sights.old sights.new (λ scene. Begins scene search.now progress)) }
    ensures empty { IfOk result (λ progress. progress.read ≡ []) }
    ensures known { IfOk result (λ progress. AreKnownAt sights.new progress.hard) }
    ensures err { IfErr result (Ends W.World S.Sources sources.old sources.new sights.old) }
{
    let mut progress = Progress {
        waiting: PathSet::new(alloc),
        read: FileTable::new(alloc),
        hard: PathSet::new(alloc),
        left: PathSet::new(alloc),
    };
    let look = sights.look::<W, S>(alloc, sources, &search.source)?;
    progress.take_source(alloc, look, &search.source)?;
    seek_named::<W, S>(alloc, sources, sights, &mut progress, search)?;
    Ok(progress)
}

/// Reads the least file that waits. False where none does.
fn visit_next<W: World, S: Sources<W>>(
    rt: &impl Wait,
    alloc: Global,
    sources: &mut S,
    sights: &mut Sights,
    cache: &DigestCache<W>,
    progress: &mut Progress,
    search: &Search,
) -> Result<bool, SightFault>
    requires { AreApart progress.old }
    ensures ok { IfOk result (λ more. Scans W.World S.Sources
        sources.old sources.new sights.old sights.new
        (λ scene. Explored scene search.now progress.old →
        GoesOn scene search.now more progress.old progress.new)) }
    ensures apart { OnOk result (AreApart progress.new) }
    ensures count { OnOk result (length progress.new.read ≤ length progress.old.read + 1) }
    ensures seen { OnOk result (AreSeen sights.old progress.old.read →
        AreSeen sights.new progress.new.read) }
    ensures honest { OnOk result (W.stamps_honest → HaveDigests W.content progress.old.read →
        HaveDigests W.content progress.new.read) }
    ensures known { OnOk result (AreKnownAt sights.old progress.old.hard →
        AreKnownAt sights.new progress.new.hard) }
    ensures err { IfErr result (Ends W.World S.Sources sources.old sources.new sights.old) }
{
    match progress.waiting.pop_first() {
        Some(path) => {
            visit(rt, alloc, sources, sights, cache, progress, search, &path)?;
            Ok(true)
        }
        None => Ok(false),
    }
}

/// Reads files until none waits, or until there are more than may be.
fn visit_all<W: World, S: Sources<W>>(
    rt: &impl Wait,
    alloc: Global,
    sources: &mut S,
    sights: &mut Sights,
    cache: &DigestCache<W>,
    progress: &mut Progress,
    search: &Search,
) -> Result<(), SightFault>
    requires { AreApart progress.old }
    ensures ok { OnOk result (Scans W.World S.Sources
        sources.old sources.new sights.old sights.new
        (λ scene. Explored scene search.now progress.old →
        Advances scene search.now (most_tree_files + 1) progress.old progress.new)) }
    ensures count { OnOk result (length progress.new.read ≤ length progress.old.read +
        (most_tree_files + 1)) }
    ensures seen { OnOk result (AreSeen sights.old progress.old.read →
        AreSeen sights.new progress.new.read) }
    ensures honest { OnOk result (W.stamps_honest → HaveDigests W.content progress.old.read →
        HaveDigests W.content progress.new.read) }
    ensures known { OnOk result (AreKnownAt sights.old progress.old.hard →
        AreKnownAt sights.new progress.new.hard) }
    ensures err { IfErr result (Ends W.World S.Sources sources.old sources.new sights.old) }
{
    for _ in 0..MOST_READS {
        let more = visit_next(rt, alloc, sources, sights, cache, progress, search)?;
        if !more {
            return Ok(());
        }
    }
    Ok(())
}

/// All that is found from the source on.
fn find_all<W: World, S: Sources<W>>(
    rt: &impl Wait,
    alloc: Global,
    sources: &mut S,
    sights: &mut Sights,
    cache: &DigestCache<W>,
    search: &Search,
) -> Result<Progress, SightFault>
    ensures ok { IfOk result (λ progress. Scans W.World S.Sources
        sources.old sources.new sights.old sights.new
        (λ scene. IsExplored scene search.now (most_tree_files + 1) progress)) }
    ensures count { IfOk result (λ progress. length progress.read ≤ most_tree_files + 1) }
    ensures seen { IfOk result (λ progress. AreSeen sights.new progress.read) }
    ensures honest { IfOk result (λ progress. W.stamps_honest →
        HaveDigests W.content progress.read) }
    ensures known { IfOk result (λ progress. AreKnownAt sights.new progress.hard) }
    ensures err { IfErr result (Ends W.World S.Sources sources.old sources.new sights.old) }
{
    let mut progress = begin::<W, S>(alloc, sources, sights, search)?;
    visit_all(rt, alloc, sources, sights, cache, &mut progress, search)?;
    Ok(progress)
}

/// What was found, as lists.
fn reached_of(alloc: Global, progress: Progress) -> Result<Reached, NoMemory>
    ensures files { IfOk result (λ reached. reached.files ≡ progress.read) }
    ensures hard { IfOk result (λ reached. IsLeastPath (Contains progress.hard) reached.hard) }
    ensures left { IfOk result (λ reached. reached.left ≡ progress.left) }
    ensures sorted { IfOk result (λ reached. AreSorted (paths_of reached.files)
        × AreSorted reached.left) }
{
    let Progress {
        waiting: _,
        read,
        mut hard,
        left,
    } = progress;
    let files = read.into_items(alloc)?;
    let left = left.into_items(alloc)?;
    Ok(Reached {
        files,
        hard: hard.pop_first(),
        left,
    })
}

/// The files that includes can reach from the source. Where they are more than 20,000, the scan
/// stops at the next one. Each is read; its digest is the cache's, where that has one under the stamp
/// of the read.
pub fn reach_files<W: World, S: Sources<W>>(
    rt: &impl Wait,
    alloc: Global,
    sources: &mut S,
    sights: &mut Sights,
    cache: &DigestCache<W>,
    search: &Search,
) -> Result<Reached, SightFault>
    ensures scanned { IfOk result (λ reached. Scans W.World S.Sources
        sources.old sources.new sights.old sights.new
        (λ scene. IsReach most_tree_files scene search.now reached)) }
    ensures opened { IfOk result (λ reached. Scans W.World S.Sources
        sources.old sources.new sights.old sights.new
        (λ scene. length reached.files ≤ most_tree_files → (path : List ℕ) →
        IsOpened scene search.now path → Contains (paths_of reached.files) path)) }
    ensures sorted { IfOk result (λ reached. AreSorted (paths_of reached.files)
        × AreSorted reached.left × length reached.files ≤ most_tree_files + 1) }
    ensures seen { IfOk result (λ reached. AreSeen sights.new reached.files) }
    ensures digests { IfOk result (λ reached. W.stamps_honest →
        HaveDigests W.content reached.files) }
    ensures known { IfOk result (λ reached. IfSome reached.hard (IsKnownAt sights.new)) }
    ensures err { IfErr result (Ends W.World S.Sources sources.old sources.new sights.old) }
{
    let progress = find_all(rt, alloc, sources, sights, cache, search)?;
    let reached = reached_of(alloc, progress)?;
    Ok(reached)
}
