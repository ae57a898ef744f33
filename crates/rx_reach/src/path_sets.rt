//! Sets of paths.

ghost use Rattle.std.specs.Prelude.{◌≡◌, ◌↔◌, ◌⊎◌, ℕ, [], ◌∷◌, Contains, IfOk, IsTrue, List, MatchOption, OnOk, Some};
ghost use Rattle.rx_base.specs.SortedPaths.{AreSorted};
ghost use Rattle.rx_reach.specs.PathSets.{Adds};

use rx_base::{Items, NoMemory, RelPath, TryClone};
use std::alloc::Global;
use std::collections::BTreeSet;
use std::marker::Model;

/// Paths, each once. It is seen as the list of them in the order of their bytes.
#[derive(Drop)]
pub(crate) struct PathSet {
    paths: BTreeSet<RelPath>,
}

impl Model for PathSet {
    ghost use Rattle.std.specs.Prelude.{List, ℕ};
    ghost use Rattle.rx_base.specs.SortedPaths.{AreSorted};

    ghost Value = { List (List ℕ) };

    ghost view = { λ s. s.paths.keys };

    ghost invariant = { λ s. AreSorted s.paths.keys };
}

impl PathSet {
    /// No paths. It takes no memory.
    pub(crate) fn new(alloc: Global) -> PathSet
        ensures { result ≡ [] }
    {
        PathSet {
            paths: BTreeSet::new(alloc),
        }
    }

    /// Whether a path is among them.
    pub(crate) fn contains(&self, path: &RelPath) -> bool
        ensures { IsTrue result ↔ Contains self.now path.now }
    {
        self.paths.contains(path)
    }

    /// Adds a path, unless it is there already.
    pub(crate) fn insert(&mut self, alloc: Global, path: &RelPath) -> Result<(), NoMemory>
        ensures { OnOk result (Adds self.old self.new path.now) }
    {
        if self.paths.contains(path) {
            return Ok(());
        }
        self.paths.insert(path.try_clone(alloc)?)?;
        Ok(())
    }

    /// Takes the first path out.
    pub(crate) fn pop_first(&mut self) -> Option<RelPath>
        ensures taken { MatchOption result ((self.old ≡ []) × (self.new ≡ []))
            (λ path. self.old ≡ path ∷ self.new) }
        ensures sorted { AreSorted self.old }
    {
        self.paths.pop_first()
    }

    /// The paths as a list, in the order of their bytes.
    pub(crate) fn into_items(self, alloc: Global) -> Result<Items<RelPath>, NoMemory>
        ensures items { IfOk result (λ items. items ≡ self) }
        ensures sorted { IfOk result (λ items. AreSorted items) }
    {
        let PathSet { paths } = self;
        let mut items = Items::new(alloc);
        for path in paths {
            items.push(path)?;
        }
        Ok(items)
    }
}
