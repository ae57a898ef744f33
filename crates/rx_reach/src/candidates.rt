//! One try to find an include: a name in a directory, and the way to it.

ghost use Rattle.std.specs.Prelude.{◌≡◌, ◌≢◌, ◌≤◌, ◌<◌, ◌++◌, ◌∷◌, [], ℕ, All, IfErr, IfOk, IfSome, List, MatchOption, None, Ok, OnOk, false, length, true};
ghost use Rattle.std.specs.Str.{IsUtf8};
ghost use Rattle.rx_base.specs.Paths.{IsPath, Lacks, join_of, joined, longest, parts, with_part, with_text};
ghost use Rattle.rx_reach.specs.Candidates.{AreShort, Follows, IsTried, candidate_at_end, candidate_at_stop, is_dir, is_skipped, left_at, names_of, next_names, refusal, step_look, steps, try_in, way};
ghost use Rattle.rx_base.specs.declared.path_fault.PathFault.TheVariants.{NoMemory as lacks_memory};
ghost use Rattle.rx_reach.specs.declared.faults.SightFault.TheVariants.{NoMemory as no_memory};
ghost use Rattle.rx_reach.specs.Scans.{Ends, Scans};
ghost use Rattle.rx_reach.specs.Scenes.{Always, Sees};

use crate::faults::SightFault;
use crate::sights::Sights;
use crate::tries::{Candidate, Tried};
use rx_base::{Items, NoMemory, PathFault, RelPath, TryClone};
use rx_world::{Look, Sources, World};
use std::alloc::{AllocError, Global};

/// A directory that a way passes through, and whether its next part leaves it again.
#[derive(Debug, Drop)]
pub(crate) struct Step {
    pub path: RelPath,
    pub left: bool,
}

/// A way so far: the directories behind, and where it has come to.
#[derive(Debug, Drop)]
struct Walk {
    steps: Vec<Step>,
    at: RelPath,
}

/// One part more. None where it leads to too long a path.
fn pass_part(alloc: Global, walk: Walk, part: &str) -> Result<Option<Walk>, NoMemory>
    requires path { IsPath walk.at }
    requires no_slash { Lacks 47 part.now }
    requires no_zero { Lacks 0 part.now }
    requires leads { (next : List (List ℕ)) × (with_part (names_of walk.at) part.now ≡ Ok next) }
    ensures long { IfOk result (λ next. next ≡ None → (is_skipped part.now ≡ false)
        × (longest < length (joined (next_names (names_of walk.at) part.now)))) }
    ensures steps { IfOk result (λ next. IfSome next (λ w.
        w.steps.items ≡ walk.steps.items ++ steps (names_of walk.at) (part.now ∷ []))) }
    ensures names { IfOk result (λ next. IfSome next (λ w. IsPath w.at
        × (with_part (names_of walk.at) part.now ≡ Ok (names_of w.at)))) }
{
    if part.is_empty() || part == "." {
        return Ok(Some(walk));
    }
    let Walk { mut steps, at } = walk;
    match at.join(alloc, part) {
        Ok(next) => {
            let left = part == "..";
            steps.push(Step { path: at, left })?;
            Ok(Some(Walk { steps, at: next }))
        }
        Err(fault) => match fault {
            PathFault::NoMemory => Err(AllocError),
            _ => Ok(None),
        },
    }
}

/// All parts of a text. None where one of them leads to too long a path.
fn pass(alloc: Global, mut walk: Walk, text: &str) -> Result<Option<Walk>, NoMemory>
    requires path { IsPath walk.at }
    requires short { AreShort walk.steps.items }
    requires no_zero { Lacks 0 text.now }
    requires leads { (all : List (List ℕ)) × (with_text (names_of walk.at) text.now ≡ Ok all)
        × (length (joined all) ≤ longest) }
    ensures long { IfOk result (λ next. next ≡ None →
        AreShort (steps (names_of walk.at) (parts text.now)) → ⊥) }
    ensures steps { IfOk result (λ next. IfSome next (λ w.
        w.steps.items ≡ walk.steps.items ++ steps (names_of walk.at) (parts text.now))) }
    ensures short { IfOk result (λ next. IfSome next (λ w. AreShort w.steps.items)) }
    ensures names { IfOk result (λ next. IfSome next (λ w. IsPath w.at
        × (with_text (names_of walk.at) text.now ≡ Ok (names_of w.at)))) }
{
    for part in text.split('/') {
        match pass_part(alloc, walk, part)? {
            Some(next) => walk = next,
            None => return Ok(None),
        }
    }
    Ok(Some(walk))
}

/// The directories that a name passes from a directory on, from the root. None where one of their
/// paths is too long to be looked at.
fn way_of(alloc: Global, dir: &RelPath, name: &str) -> Result<Option<Vec<Step>>, NoMemory>
    requires { (path : List ℕ) × (join_of dir.now name.now ≡ Ok path) }
    ensures long { IfOk result (λ found. found ≡ None →
        AreShort (way (try_in dir.now name.now)) → ⊥) }
    ensures steps { IfOk result (λ found. IfSome found
        (λ passed. passed.items ≡ way (try_in dir.now name.now))) }
    ensures short { IfOk result (λ found. IfSome found (λ passed. AreShort passed.items)) }
{
    let start = Walk {
        steps: Vec::new(alloc),
        at: RelPath::root(alloc),
    };
    match pass(alloc, start, dir.as_str())? {
        Some(there) => match pass(alloc, there, name)? {
            Some(whole) => Ok(Some(whole.steps)),
            None => Ok(None),
        },
        None => Ok(None),
    }
}

/// What stands at a step; the root is a directory.
fn look_at<W: World, S: Sources<W>>(
    alloc: Global,
    sources: &mut S,
    sights: &mut Sights,
    path: &RelPath,
) -> Result<Look, SightFault>
    ensures ok { IfOk result (λ look. Scans W.World S.Sources
        sources.old sources.new sights.old sights.new Always) }
    ensures right { IfOk result (λ look. Sees sights.new
        (λ scene. look ≡ step_look scene path.now)) }
    ensures err { IfErr result (Ends W.World S.Sources sources.old sources.new sights.old) }
{
    if path.is_root() {
        return Ok(Look::Dir);
    }
    sights.look::<W, S>(alloc, sources, path)
}

fn is_dir(look: Look) -> bool
    ensures { result ≡ is_dir look }
{
    matches!(look, Look::Dir)
}

/// What was found where a way is at its end.
fn candidate_at_end(path: RelPath, look: Look) -> Candidate
    ensures { result ≡ candidate_at_end look path }
{
    match look {
        Look::File { .. } => Candidate::Found(path),
        Look::Other => Candidate::Other(path),
        Look::Absent | Look::Dir => Candidate::Nothing,
    }
}

/// What was found at a step that is no directory.
fn candidate_at_stop(alloc: Global, path: &RelPath, look: Look) -> Result<Candidate, NoMemory>
    ensures { IfOk result (λ found. found ≡ candidate_at_stop look path.now) }
{
    match look {
        Look::Other => Ok(Candidate::Other(path.try_clone(alloc)?)),
        Look::File { .. } | Look::Absent | Look::Dir => Ok(Candidate::Nothing),
    }
}

/// Keeps the path of a directory that is left again.
fn keep_left(
    alloc: Global,
    step: &Step,
    look: Look,
    left: &mut Items<RelPath>,
) -> Result<(), SightFault>
    ensures ok { OnOk result (left.new ≡ left.old ++ left_at look step.now) }
    ensures err { IfErr result (λ fault. fault ≡ no_memory) }
{
    if is_dir(look) && step.left {
        left.push(step.path.try_clone(alloc)?)?;
    }
    Ok(())
}

/// Goes through a step: what stands there tells whether the way goes on.
fn pass_step<W: World, S: Sources<W>>(
    alloc: Global,
    sources: &mut S,
    sights: &mut Sights,
    step: &Step,
    left: &mut Items<RelPath>,
) -> Result<Look, SightFault>
    ensures ok { IfOk result (λ look. Scans W.World S.Sources
        sources.old sources.new sights.old sights.new Always) }
    ensures right { IfOk result (λ look. Sees sights.new
        (λ scene. look ≡ step_look scene step.now.path)) }
    ensures left { IfOk result (λ look. left.new ≡ left.old ++ left_at look step.now) }
    ensures err { IfErr result (Ends W.World S.Sources sources.old sources.new sights.old) }
{
    let look = look_at::<W, S>(alloc, sources, sights, &step.path)?;
    keep_left(alloc, step, look, left)?;
    Ok(look)
}

/// Where a way ends: at its candidate, or at the first step that is no directory.
fn follow<W: World, S: Sources<W>>(
    alloc: Global,
    sources: &mut S,
    sights: &mut Sights,
    passed: &[Step],
    path: RelPath,
) -> Result<Tried, SightFault>
    ensures ok { IfOk result (λ tried. Scans W.World S.Sources
        sources.old sources.new sights.old sights.new Always) }
    ensures right { IfOk result (λ tried. Sees sights.new (λ scene.
        Follows scene passed.now path tried)) }
    ensures err { IfErr result (Ends W.World S.Sources sources.old sources.new sights.old) }
{
    let mut left = Items::new(alloc);
    for step in passed {
        let look = pass_step::<W, S>(alloc, sources, sights, step, &mut left)?;
        if !is_dir(look) {
            let candidate = candidate_at_stop(alloc, &step.path, look)?;
            return Ok(Tried { candidate, left });
        }
    }
    let look = sights.look::<W, S>(alloc, sources, &path)?;
    Ok(Tried {
        candidate: candidate_at_end(path, look),
        left,
    })
}

/// What is found where a directory and a name make no path.
fn refused(fault: PathFault) -> Result<Candidate, NoMemory>
    ensures ok { IfOk result (λ found. (fault ≢ lacks_memory) × (found ≡ refusal fault)) }
{
    match fault {
        PathFault::Absolute | PathFault::AboveRoot => Ok(Candidate::Outside),
        PathFault::Empty | PathFault::TooLong | PathFault::BadByte(_) => Ok(Candidate::Nothing),
        PathFault::NoMemory => Err(AllocError),
    }
}

/// Looks for the candidate of a name in a directory.
pub(crate) fn seek<W: World, S: Sources<W>>(
    alloc: Global,
    sources: &mut S,
    sights: &mut Sights,
    dir: &RelPath,
    name: &str,
) -> Result<Tried, SightFault>
    ensures ok { IfOk result (λ tried. Scans W.World S.Sources
        sources.old sources.new sights.old sights.new Always) }
    ensures right { IfOk result (λ tried. Sees sights.new (λ scene.
        IsTried scene (try_in dir.now name.now) tried)) }
    ensures err { IfErr result (Ends W.World S.Sources sources.old sources.new sights.old) }
{
    let left = Items::new(alloc);
    match dir.join(alloc, name) {
        Ok(path) => match way_of(alloc, dir, name)? {
            Some(passed) => follow::<W, S>(alloc, sources, sights, &passed, path),
            None => {
                let candidate = Candidate::Nothing;
                Ok(Tried { candidate, left })
            }
        },
        Err(fault) => {
            let candidate = refused(fault)?;
            Ok(Tried { candidate, left })
        }
    }
}
