//! The declared inputs of a command: looked at in the order of their paths, then listed where they
//! are directories.

ghost use Rattle.std.specs.Prelude.{◌≡◌, ◌≤◌, ◌++◌, [], IfErr, IfOk, MatchResult, OnOk, length};
ghost use Rattle.rx_base.specs.SortedPaths.{AreSorted, HasSameMembers};
ghost use Rattle.rx_scan.specs.Inputs.{AreOver, BlamesInputs, BlamesLists, HasListed, IsDeclaredBy, IsLooked, IsOver, OnlyTooMany, empty_among, is_absent, too_many, with_look};
ghost use Rattle.rx_scan.specs.Lists.{Fails, Learns, paths_of};

use crate::gather_fault::GatherFault;
use crate::limits::MAX_SCAN_FILES;
use crate::lists::list_noted;
use crate::path_lists::with_paths;
use rx_base::{Items, NoMemory, RelPath, TryClone, first_below, sort_paths};
use rx_reach::Sights;
use rx_world::{Found, Limit, Look, Sources, World};
use std::alloc::Global;

/// The declared inputs that are files, and those that are directories, each in order.
#[derive(Debug, Drop)]
pub(crate) struct LookedInputs {
    pub files: Items<RelPath>,
    pub dirs: Items<RelPath>,
}

/// What the declared inputs stand for.
#[derive(Debug, Drop)]
pub(crate) struct Declared {
    /// The files, sorted, each once.
    pub files: Items<RelPath>,
    /// The declared directories without a file below them, in order.
    pub empty_dirs: Items<RelPath>,
}

impl LookedInputs {
    fn add(&mut self, alloc: Global, path: &RelPath, look: Look) -> Result<(), NoMemory>
        ensures { OnOk result (self.new ≡ with_look self.old path.now look) }
    {
        match look {
            Look::File { .. } => self.files.push(path.try_clone(alloc)?)?,
            Look::Dir => self.dirs.push(path.try_clone(alloc)?)?,
            Look::Absent | Look::Other => {}
        }
        Ok(())
    }
}

fn is_absent(look: Look) -> bool
    ensures { result ≡ is_absent look }
{
    match look {
        Look::Absent => true,
        Look::File { .. } | Look::Dir | Look::Other => false,
    }
}

/// Looks at the declared inputs in their order, up to the first at which there is nothing.
fn look_all<W: World, S: Sources<W>>(
    alloc: Global,
    sources: &mut S,
    sights: &mut Sights,
    inputs: &[RelPath],
) -> Result<LookedInputs, GatherFault>
    ensures looked { MatchResult result
        (λ looked. Learns W.World S.Sources
        sources.old sources.new sights.old sights.new (λ scene. IsLooked scene inputs.now looked))
        (λ fault. Fails W.World S.Sources
        sources.old sources.new sights.old sights.new (BlamesInputs inputs.now [] fault)) }
{
    let mut looked = LookedInputs {
        files: Items::new(alloc),
        dirs: Items::new(alloc),
    };
    for input in inputs {
        let look = sights.look::<W, S>(alloc, sources, input)?;
        if is_absent(look) {
            return Err(GatherFault::InputMissing {
                path: input.try_clone(alloc)?,
            });
        }
        looked.add(alloc, input, look)?;
    }
    Ok(looked)
}

/// Adds all files that the source tree lists at or below these paths, up to one list after which they
/// are more than may be.
fn list_all<W: World, S: Sources<W>>(
    alloc: Global,
    sources: &mut S,
    sights: &mut Sights,
    mut files: Items<RelPath>,
    roots: &[RelPath],
) -> Result<Items<RelPath>, GatherFault>
    ensures listed { MatchResult result
        (λ all. Learns W.World S.Sources
        sources.old sources.new sights.old sights.new
        (λ scene. HasListed scene files roots.now all))
        (λ fault. Fails W.World S.Sources
        sources.old sources.new sights.old sights.new (BlamesLists files roots.now fault)) }
{
    for root in roots {
        let found = list_noted::<W, S>(alloc, sources, sights, root, MAX_SCAN_FILES)?;
        let more = add_found(alloc, files, found.as_slice())?;
        files = more;
    }
    Ok(files)
}

/// Adds the files of one list, which is whole where they are no more than a scan may have.
fn add_found(
    alloc: Global,
    files: Items<RelPath>,
    found: &[Found],
) -> Result<Items<RelPath>, GatherFault>
    ensures whole { IfOk result (λ all. (length found.now ≤ 20000)
        × HasSameMembers (files ++ paths_of found.now) all) }
    ensures many { IfErr result (OnlyTooMany (IsOver files (paths_of found.now))) }
{
    if found.len() > MAX_SCAN_FILES {
        return Err(too_many());
    }
    let all = with_paths(alloc, files, found)?;
    limit_count(all)
}

/// Leaves each path once where there are more than a scan may have.
fn limit_count(files: Items<RelPath>) -> Result<Items<RelPath>, GatherFault>
    ensures same { IfOk result (λ counted. HasSameMembers files counted) }
    ensures many { IfErr result (OnlyTooMany (AreOver files)) }
{
    if files.len() <= MAX_SCAN_FILES {
        return Ok(files);
    }
    let files = sort_paths(files)?;
    if files.len() > MAX_SCAN_FILES {
        return Err(too_many());
    }
    Ok(files)
}

/// The refusal of more files than a scan may have.
pub(crate) fn too_many() -> GatherFault
    ensures { result ≡ too_many }
{
    GatherFault::TooLarge {
        limit: Limit::ScanFiles,
        n: MAX_SCAN_FILES as u64 + 1,
        path: None,
    }
}

/// Looks at the declared inputs, which are in order, and finds what they stand for: a file for itself,
/// a directory for the files below it, and a system root for the files at or below it.
pub(crate) fn take_inputs<W: World, S: Sources<W>>(
    alloc: Global,
    sources: &mut S,
    sights: &mut Sights,
    inputs: &[RelPath],
    roots: &[RelPath],
) -> Result<Declared, GatherFault>
    ensures sorted { IfOk result (λ declared. AreSorted declared.files) }
    ensures taken { MatchResult result
        (λ declared. Learns W.World S.Sources
        sources.old sources.new sights.old sights.new
        (λ scene. IsDeclaredBy scene inputs.now roots.now declared))
        (λ fault. Fails W.World S.Sources
        sources.old sources.new sights.old sights.new (BlamesInputs inputs.now roots.now fault)) }
{
    let looked = look_all::<W, S>(alloc, sources, sights, inputs)?;
    let LookedInputs { files, dirs } = looked;
    let listed = list_all::<W, S>(alloc, sources, sights, files, dirs.as_slice())?;
    let all = list_all::<W, S>(alloc, sources, sights, listed, roots)?;
    let files = sort_paths(all)?;
    let empty_dirs = empty_among(alloc, files.as_slice(), dirs.as_slice())?;
    Ok(Declared { files, empty_dirs })
}

/// The directories below which there is none of these files, which are sorted.
fn empty_among(
    alloc: Global,
    files: &[RelPath],
    dirs: &[RelPath],
) -> Result<Items<RelPath>, NoMemory>
    requires { AreSorted files.now }
    ensures { IfOk result (λ empty. empty ≡ empty_among files.now dirs.now) }
{
    let mut empty = Items::new(alloc);
    for dir in dirs {
        if first_below(files, dir).is_none() {
            empty.push(dir.try_clone(alloc)?)?;
        }
    }
    Ok(empty)
}
