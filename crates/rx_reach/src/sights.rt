//! What a scan saw: the first look at each path. No path is asked for twice.

ghost use Rattle.std.specs.Prelude.{◌≡◌, ◌≤◌, ◌↔◌, ℕ, [], ◌∷◌, IfErr, IfOk, IfSome, IsTrue, List, MatchResult, None, OnErr, OnOk, Option, Some, map};
ghost use Rattle.rx_world.specs.Answers.{Gives};
ghost use Rattle.rx_world.specs.declared.sources.Given.{Given};
ghost use Rattle.rx_base.specs.SortedPaths.{AreSorted};
ghost use Rattle.rx_reach.specs.Candidates.{IsTried, try_in};
ghost use Rattle.rx_reach.specs.Scans.{Ends, Scans};
ghost use Rattle.rx_reach.specs.Scenes.{Sees};
ghost use Rattle.rx_reach.specs.Sights.{Blames, Notes, answer_of, found_of, seen_at, sights_of};

use crate::faults::SightFault;
use crate::tries::{Tried, Tries};
use rx_base::{Items, NoMemory, RelPath, TryClone};
use rx_world::{ChangedInput, Found, Look, Seen, Sources, World};
use std::alloc::Global;
use std::collections::BTreeMap;
use std::marker::Model;

/// The first look at each path that was looked at. It is seen as the paths with their looks, in the
/// order of the paths. Beside them it keeps what tries gave, which follows from the looks, so that
/// none is made twice.
#[derive(Drop)]
pub struct Sights {
    looks: BTreeMap<RelPath, Look>,
    tries: Tries,
}

impl Model for Sights {
    ghost use Rattle.std.specs.Prelude.{List, ℕ, map};
    ghost use Rattle.rx_base.specs.SortedPaths.{AreSorted};
    ghost use Rattle.rx_world.specs.declared.looks.Look.{Look};
    ghost use Rattle.rx_reach.specs.Tries.{AreKept};

    ghost Value = { List (List ℕ × Look) };

    ghost view = { λ s. s.looks.entries };

    ghost invariant = { λ s. AreSorted (map (λ entry. entry.0) s.looks.entries)
        × AreKept s.looks.entries s.tries.by_dir };
}

/// Whether two looks are one.
fn is_same(first: Look, second: Look) -> bool
    ensures { IsTrue result ↔ (first ≡ second) }
{
    first == second
}

impl Sights {
    /// Nothing was seen yet. It takes no memory.
    pub fn new(alloc: Global) -> Sights
        ensures { result ≡ [] }
    {
        Sights {
            looks: BTreeMap::new(alloc),
            tries: Tries::new(alloc),
        }
    }

    /// Adds the first look at a path.
    fn add(&mut self, alloc: Global, path: &RelPath, look: Look) -> Result<(), NoMemory>
        requires { seen_at self.old path.now ≡ None }
        ensures added { OnOk result ((bytes : Option (List ℕ)) →
            Notes self.old self.new (answer_of path.now look bytes ∷ [])) }
        ensures seen { OnOk result (seen_at self.new path.now ≡ Some look) }
    {
        self.looks.insert(path.try_clone(alloc)?, look)?;
        Ok(())
    }

    /// What stands at a path: what was seen there, or else what the source tree tells now.
    pub fn look<W: World, S: Sources<W>>(
        &mut self,
        alloc: Global,
        sources: &mut S,
        path: &RelPath,
    ) -> Result<Look, SightFault>
        ensures ok { IfOk result (λ look. Scans W.World S.Sources
            sources.old sources.new self.old self.new (λ scene. look ≡ scene.look path.now)) }
        ensures seen { IfOk result (λ look. seen_at self.new path.now ≡ Some look) }
        ensures err { IfErr result (Ends W.World S.Sources sources.old sources.new self.old) }
    {
        if let Some(look) = self.looks.get(path) {
            return Ok(*look);
        }
        match sources.look(path) {
            Ok(look) => {
                self.add(alloc, path, look)?;
                Ok(look)
            }
            Err(_) => Err(SightFault::SourceFault {
                path: path.try_clone(alloc)?,
            }),
        }
    }

    /// One more look at a path, which the source tree told by a read or a list: the first one, or
    /// the same again.
    pub fn note(&mut self, alloc: Global, path: &RelPath, look: Look) -> Result<(), SightFault>
        ensures noted { OnOk result ((bytes : Option (List ℕ)) →
            Notes self.old self.new (answer_of path.now look bytes ∷ [])) }
        ensures changed { IfErr result (λ fault. (bytes : Option (List ℕ)) (before now : ℕ) →
            Blames self.old (answer_of path.now look bytes ∷ []) before now fault) }
    {
        if let Some(first) = self.looks.get(path) {
            if !is_same(*first, look) {
                return Err(SightFault::InputChanged(ChangedInput {
                    path: path.try_clone(alloc)?,
                    first: Seen::from(*first),
                    second: Seen::from(look),
                }));
            }
            return Ok(());
        }
        self.add(alloc, path, look)?;
        Ok(())
    }

    /// What a name gave in a directory, where that is kept. It takes no memory.
    pub(crate) fn find_try(&self, dir: &RelPath, name: &str) -> Option<&Tried>
        ensures { IfSome result (λ tried. Sees self.now (λ scene.
            IsTried scene (try_in dir.now name.now) tried.now)) }
    {
        self.tries.find(dir, name)
    }

    /// Keeps what a name gave in a directory.
    pub(crate) fn keep_try(
        &mut self,
        alloc: Global,
        dir: &RelPath,
        name: &str,
        tried: Tried,
    ) -> Result<(), NoMemory>
        requires { Sees self.old (λ scene. IsTried scene (try_in dir.now name.now) tried) }
        ensures { self.new ≡ self.old }
    {
        self.tries.keep(alloc, dir, name, tried)?;
        Ok(())
    }

    /// What was seen at a path. It takes no memory.
    pub fn seen(&self, path: &RelPath) -> Option<Look>
        ensures { result ≡ seen_at self.now path.now }
    {
        self.looks.get(path).copied()
    }

    /// All that was seen, in the order of the paths.
    pub fn into_view(self, alloc: Global) -> Result<Items<Found>, NoMemory>
        ensures seen { IfOk result (λ view. sights_of view ≡ self) }
        ensures sorted { IfOk result (λ view. AreSorted (map (λ found. found.path) view)) }
    {
        let Sights { looks, tries: _ } = self;
        let view = list_looks(alloc, looks)?;
        Ok(view)
    }
}

/// The entries of a map of looks.
fn list_looks(alloc: Global, looks: BTreeMap<RelPath, Look>) -> Result<Items<Found>, NoMemory>
    ensures { IfOk result (λ view. view ≡ map found_of looks.entries) }
{
    let mut view = Items::new(alloc);
    for (path, look) in looks {
        view.push(Found { path, look })?;
    }
    Ok(view)
}
