//! What a scan of includes has found so far.

ghost use Rattle.std.specs.Prelude.{◌≡◌, ◌↔◌, ◌⊎◌, ℕ, [], Contains, IfErr, List, OnOk};
ghost use Rattle.rx_reach.specs.declared.tries.Candidate.TheVariants as candidate;
ghost use Rattle.rx_reach.specs.declared.faults.SightFault.TheVariants.{NoMemory as no_memory};
ghost use Rattle.rx_reach.specs.Progress.{Finds, Stays, Takes, TakesSource};

use crate::faults::SightFault;
use crate::file_tables::FileTable;
use crate::path_sets::PathSet;
use crate::tries::{Candidate, Tried};
use rx_base::RelPath;
use rx_world::Look;
use std::alloc::Global;

/// What a scan of includes has found so far.
#[derive(Drop)]
pub(crate) struct Progress {
    /// The files that were found and not read yet.
    pub waiting: PathSet,
    pub read: FileTable,
    /// The paths that make the command hard.
    pub hard: PathSet,
    /// The directories that a candidate's name passes and leaves again.
    pub left: PathSet,
}

/// Adds some paths to a set.
fn insert_all(alloc: Global, set: &mut PathSet, paths: &[RelPath]) -> Result<(), SightFault>
    ensures ok { OnOk result ((path : List ℕ) → Contains set.new path ↔ (Contains set.old path
        ⊎ Contains paths.now path)) }
    ensures err { IfErr result (λ fault. fault ≡ no_memory) }
{
    for path in paths {
        set.insert(alloc, path)?;
    }
    Ok(())
}

impl Progress {
    /// Adds a file that was found, unless it is known.
    pub(crate) fn find(&mut self, alloc: Global, path: &RelPath) -> Result<(), SightFault>
        ensures stays { OnOk result (Stays self.old self.new) }
        ensures finds { OnOk result (Finds self.old self.new path.now) }
        ensures err { IfErr result (λ fault. fault ≡ no_memory) }
    {
        if self.read.contains(path) {
            return Ok(());
        }
        self.waiting.insert(alloc, path)?;
        Ok(())
    }

    /// Adds the source, by what stands there.
    pub(crate) fn take_source(
        &mut self,
        alloc: Global,
        look: Look,
        source: &RelPath,
    ) -> Result<(), SightFault>
        ensures stays { OnOk result (Stays self.old self.new) }
        ensures takes { OnOk result (TakesSource source.now look self.old self.new) }
        ensures err { IfErr result (λ fault. fault ≡ no_memory) }
    {
        match look {
            Look::File { .. } => self.find(alloc, source),
            Look::Other => {
                self.hard.insert(alloc, source)?;
                Ok(())
            }
            Look::Absent | Look::Dir => Ok(()),
        }
    }

    /// Adds what a try found. A name that leads outside makes the blamed path hard.
    pub(crate) fn take(
        &mut self,
        alloc: Global,
        tried: &Tried,
        blamed: &RelPath,
    ) -> Result<(), SightFault>
        ensures stays { OnOk result (Stays self.old self.new) }
        ensures takes { OnOk result (Takes blamed.now tried.now self.old self.new) }
        ensures err { IfErr result (λ fault. fault ≡ no_memory) }
    {
        insert_all(alloc, &mut self.left, tried.left.as_slice())?;
        match &tried.candidate {
            Candidate::Nothing => Ok(()),
            Candidate::Outside => {
                self.hard.insert(alloc, blamed)?;
                Ok(())
            }
            Candidate::Other(path) => {
                self.hard.insert(alloc, path)?;
                Ok(())
            }
            Candidate::Found(path) => self.find(alloc, path),
        }
    }
}
