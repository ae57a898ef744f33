//! Paths that are looked at, so that all of an input tree was seen, and the directories among them.

ghost use Rattle.std.specs.Prelude.{◌≡◌, ◌≤◌, All, IfErr, IfOk, OnOk, filter};
ghost use Rattle.rx_reach.specs.Scans.{Ends, Scans};
ghost use Rattle.rx_reach.specs.Scenes.{AreRight};
ghost use Rattle.rx_scan.specs.SeenDirs.{is_dir_seen};
ghost use Rattle.rx_reach.specs.Sights.{AreKnownAt, seen_at};

use rx_base::{Items, NoMemory, RelPath, TryClone};
use rx_reach::{SightFault, Sights};
use rx_world::{Look, Sources, World};
use std::alloc::Global;

/// Looks at each of these paths. What was seen before isn't asked for again.
fn look_at_each<W: World, S: Sources<W>>(
    alloc: Global,
    sources: &mut S,
    sights: &mut Sights,
    paths: &[RelPath],
) -> Result<(), SightFault>
    ensures ok { OnOk result (Scans W.World S.Sources
        sources.old sources.new sights.old sights.new (λ scene. AreRight scene sights.new)) }
    ensures seen { OnOk result (AreKnownAt sights.new paths.now) }
    ensures err { IfErr result (Ends W.World S.Sources sources.old sources.new sights.old) }
{
    for path in paths {
        sights.look::<W, S>(alloc, sources, path)?;
    }
    Ok(())
}

/// Looks at the files and the directories of a scan.
pub(crate) fn look_at_both<W: World, S: Sources<W>>(
    alloc: Global,
    sources: &mut S,
    sights: &mut Sights,
    files: &[RelPath],
    dirs: &[RelPath],
) -> Result<(), SightFault>
    ensures ok { OnOk result (Scans W.World S.Sources
        sources.old sources.new sights.old sights.new (λ scene. AreRight scene sights.new)) }
    ensures files { OnOk result (AreKnownAt sights.new files.now) }
    ensures dirs { OnOk result (AreKnownAt sights.new dirs.now) }
    ensures err { IfErr result (Ends W.World S.Sources sources.old sources.new sights.old) }
{
    look_at_each::<W, S>(alloc, sources, sights, files)?;
    look_at_each::<W, S>(alloc, sources, sights, dirs)?;
    Ok(())
}

/// The paths at which a directory was seen.
pub(crate) fn dirs_seen(
    alloc: Global,
    sights: &Sights,
    paths: &[RelPath],
) -> Result<Items<RelPath>, NoMemory>
    ensures { IfOk result (λ dirs. dirs ≡ filter
        (λ path. is_dir_seen (seen_at sights.now path)) paths.now) }
{
    let mut dirs = Items::new(alloc);
    for path in paths {
        if is_dir_at(sights, path) {
            dirs.push(path.try_clone(alloc)?)?;
        }
    }
    Ok(dirs)
}

/// Whether a directory was seen at a path.
fn is_dir_at(sights: &Sights, path: &RelPath) -> bool
    ensures { result ≡ is_dir_seen (seen_at sights.now path.now) }
{
    matches!(sights.seen(path), Some(Look::Dir))
}
