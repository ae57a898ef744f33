//! What tries to find an include gave, kept by directory and name.

ghost use Rattle.std.specs.Prelude.{◌≡◌, ℕ, List, None, OnErr, OnOk, if◌then◌else◌};
ghost use Rattle.std.specs.BTreeMap.{get_by_text};
ghost use Rattle.std.specs.Option.{option_copied};
ghost use Rattle.std.specs.Str.{bytes_eq};
ghost use Rattle.rx_reach.specs.Candidates.{Try, try_in};
ghost use Rattle.rx_reach.specs.Tries.{NamesPut, Puts, try_at};

use rx_base::{Items, NoMemory, RelPath, TryClone};
use std::alloc::Global;
use std::collections::BTreeMap;

/// What stands where a name leads from a directory.
#[derive(Debug, Drop)]
pub(crate) enum Candidate {
    /// No file, or the name names no path.
    Nothing,
    /// The name begins with a slash or leaves the root.
    Outside,
    /// A file.
    Found(RelPath),
    /// Neither a file nor a directory, and yet something, at the end or on the way.
    Other(RelPath),
}

/// What a try gives.
#[derive(Debug, Drop)]
pub(crate) struct Tried {
    pub candidate: Candidate,
    /// The existing directories that the way leaves again by `..`.
    pub left: Items<RelPath>,
}

/// What each try gave that was kept: for a directory the names that were sought in it.
#[derive(Drop)]
pub(crate) struct Tries {
    by_dir: BTreeMap<RelPath, BTreeMap<String, Tried>>,
}

/// Puts what a name gave among the names of a directory.
fn put_name(
    alloc: Global,
    names: &mut BTreeMap<String, Tried>,
    name: &str,
    tried: Tried,
) -> Result<(), NoMemory>
    ensures put { OnOk result (NamesPut names.old names.new name.now tried) }
    ensures same { OnErr result ((other : List ℕ) →
        get_by_text names.new other ≡ get_by_text names.old other) }
{
    let name = String::from_str(alloc, name)?;
    names.insert(name, tried)?;
    Ok(())
}

impl Tries {
    /// Nothing is kept yet. It takes no memory.
    pub(crate) fn new(alloc: Global) -> Tries
        ensures { (t : Try) → try_at result.by_dir t ≡ None }
    {
        Tries {
            by_dir: BTreeMap::new(alloc),
        }
    }

    /// What a name gave in a directory, where that is kept. It takes no memory.
    pub(crate) fn find(&self, dir: &RelPath, name: &str) -> Option<&Tried>
        ensures { option_copied result ≡ try_at self.now.by_dir (try_in dir.now name.now) }
    {
        self.by_dir.get(dir)?.get(name)
    }

    /// Keeps what a name gave in a directory.
    pub(crate) fn keep(
        &mut self,
        alloc: Global,
        dir: &RelPath,
        name: &str,
        tried: Tried,
    ) -> Result<(), NoMemory>
        ensures put { OnOk result (Puts self.old.by_dir self.new.by_dir
            (try_in dir.now name.now) tried) }
        ensures same { OnErr result ((t : Try) →
            try_at self.new.by_dir t ≡ try_at self.old.by_dir t) }
    {
        if let Some(names) = self.by_dir.get_mut(dir) {
            put_name(alloc, names, name, tried)?;
            return Ok(());
        }
        let mut names = BTreeMap::new(alloc);
        put_name(alloc, &mut names, name, tried)?;
        self.by_dir.insert(dir.try_clone(alloc)?, names)?;
        Ok(())
    }
}
