//! The input tree of a command: which files and directories it has, before the digests of the files
//! are known, and whether anything stands in the way of the command.

ghost use Rattle.std.specs.Prelude.{◌≡◌, ◌≤◌, All, IfErr, IfOk, MatchResult, length};
ghost use Rattle.std.specs.Option.{is_some};
ghost use Rattle.rx_base.specs.SortedPaths.{AreSorted};
ghost use Rattle.rx_world.specs.declared.refusals.LocalCause.{LocalCause};
ghost use Rattle.rx_scan.specs.declared.gather_fault.GatherFault.TheVariants.{NotRemotable as not_remotable};
ghost use Rattle.rx_scan.specs.Digests.{IsSeen};
ghost use Rattle.rx_scan.specs.Gathering.{plan_of};
ghost use Rattle.rx_scan.specs.InputTrees.{BlamesTree, BlamesWholeIf, IsFilesIf, IsOrderlyTree, cause_of, paths_of};
ghost use Rattle.rx_scan.specs.Lists.{Fails, Learns};
ghost use Rattle.rx_scan.specs.SeenDirs.{IsDirSeen};

use crate::gather_fault::GatherFault;
use crate::path_lists::{with_directory, with_paths};
use crate::plans::{Choice, local_plan, ordinary_plan};
use crate::seen_files::SeenFile;
use crate::ways::check_way;
use crate::whole::take_whole;
use rx_base::{Items, RelPath, Text};
use rx_reach::Sights;
use rx_world::{Command, LocalCause, Plan, Sources, World};
use std::alloc::Global;

/// The input tree of a command, and which attempts are made of it.
#[derive(Debug, Drop)]
pub(crate) struct InputTree {
    /// The files, in the order of their paths.
    pub files: Items<SeenFile>,
    /// The directories beside those of the files, in order, without the root.
    pub dirs: Items<RelPath>,
    pub plan: Plan,
}

/// What keeps a command on this machine: a word, else a path.
pub(crate) fn cause_of(word: Option<Text>, hard: Option<RelPath>) -> Option<LocalCause>
    ensures { result ≡ cause_of word hard }
{
    match (word, hard) {
        (Some(word), _) => Some(LocalCause::Word { word }),
        (None, Some(path)) => Some(LocalCause::Path { path }),
        (None, None) => None,
    }
}

/// The plan of a command that is kept here for this cause, or isn't.
fn choose_plan(choice: Choice, cause: Option<LocalCause>) -> Result<Plan, GatherFault>
    ensures ok { IfOk result (λ plan. plan_of choice cause ≡ Some plan) }
    ensures err { IfErr result (λ fault. (kept : LocalCause) × (fault ≡ not_remotable kept)
        × (cause ≡ Some kept) × (plan_of choice cause ≡ None)) }
{
    match cause {
        None => Ok(ordinary_plan(choice)),
        Some(cause) => match local_plan(choice) {
            Some(plan) => Ok(plan),
            None => Err(GatherFault::NotRemotable { cause }),
        },
    }
}

/// The files of the tree: those of the scan; of a command that is kept here all but its outputs.
fn tree_files<W: World, S: Sources<W>>(
    alloc: Global,
    sources: &mut S,
    sights: &mut Sights,
    kept: bool,
    scanned: Items<SeenFile>,
    outputs: &[RelPath],
) -> Result<Items<SeenFile>, GatherFault>
    requires few { length scanned ≤ 50000 }
    requires sorted { AreSorted (paths_of scanned) }
    requires seen { All (IsSeen sights.old) scanned }
    requires outputs { AreSorted outputs.now }
    ensures few { IfOk result (λ files. length files ≤ 50000) }
    ensures sorted { IfOk result (λ files. AreSorted (paths_of files)) }
    ensures seen { IfOk result (All (IsSeen sights.new)) }
    ensures taken { MatchResult result
        (λ files. Learns W.World S.Sources
        sources.old sources.new sights.old sights.new
        (λ scene. IsFilesIf scene outputs.now scanned kept files))
        (λ fault. Fails W.World S.Sources
        sources.old sources.new sights.old sights.new (BlamesWholeIf kept fault)) }
{
    if !kept {
        return Ok(scanned);
    }
    let files = take_whole::<W, S>(alloc, sources, sights, outputs)?;
    Ok(files)
}

/// The input tree of a command, which has all its outputs. The files and the directories are those of
/// its scan, which were seen.
pub(crate) fn take_tree<W: World, S: Sources<W>>(
    alloc: Global,
    sources: &mut S,
    sights: &mut Sights,
    command: &Command,
    choice: Choice,
    cause: Option<LocalCause>,
    scanned: Items<SeenFile>,
    dirs: Items<RelPath>,
) -> Result<InputTree, GatherFault>
    requires few { length scanned ≤ 50000 }
    requires sorted { AreSorted (paths_of scanned) }
    requires seen { All (IsSeen sights.old) scanned }
    requires dirs { All (IsDirSeen sights.old) dirs }
    requires outputs { AreSorted command.now.outputs }
    ensures orderly { IfOk result (IsOrderlyTree command.now dirs) }
    ensures plan { IfOk result (λ tree. plan_of choice cause ≡ Some tree.plan) }
    ensures seen { IfOk result (λ tree. All (IsSeen sights.new) tree.files) }
    ensures taken { MatchResult result
        (λ tree. Learns W.World S.Sources
        sources.old sources.new sights.old sights.new
        (λ scene. IsFilesIf scene command.now.outputs scanned (is_some cause) tree.files))
        (λ fault. Fails W.World S.Sources
        sources.old sources.new sights.old sights.new
        (BlamesTree command.now scanned cause choice fault)) }
{
    let kept = cause.is_some();
    let plan = choose_plan(choice, cause)?;
    let files = tree_files::<W, S>(
        alloc,
        sources,
        sights,
        kept,
        scanned,
        command.outputs.as_slice(),
    )?;
    let paths = with_paths(alloc, Items::new(alloc), files.as_slice())?;
    check_way(
        alloc,
        command,
        files.as_slice(),
        paths.as_slice(),
        dirs.as_slice(),
    )?;
    let dirs = with_directory(alloc, dirs, &command.working_directory)?;
    Ok(InputTree { files, dirs, plan })
}
