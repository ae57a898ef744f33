//! The files that a scan has read, by their paths.

ghost use Rattle.std.specs.Prelude.{◌≡◌, ◌↔◌, ◌⊎◌, ◌+◌, ℕ, [], Contains, IfOk, IsTrue, OnOk, length, map};
ghost use Rattle.rx_base.specs.SortedPaths.{AreSorted};
ghost use Rattle.rx_world.specs.declared.input_files.InputFile.{InputFile};
ghost use Rattle.rx_reach.specs.FileTables.{file_of, paths_of};

use rx_base::{Digest, Items, NoMemory, RelPath};
use rx_world::{InputFile, Stamp};
use std::alloc::Global;
use std::collections::BTreeMap;
use std::marker::Model;

/// What is kept of a file beside its path.
#[derive(Clone, Copy, Debug, PartialEq, Eq)]
pub(crate) struct ReadFile {
    pub digest: Digest,
    pub stamp: Stamp,
    pub executable: bool,
}

/// Files with different paths. It is seen as the list of them in the order of their paths.
#[derive(Drop)]
pub(crate) struct FileTable {
    files: BTreeMap<RelPath, ReadFile>,
}

impl Model for FileTable {
    ghost use Rattle.std.specs.Prelude.{List, map};
    ghost use Rattle.rx_base.specs.SortedPaths.{AreSorted};
    ghost use Rattle.rx_world.specs.declared.input_files.InputFile.{InputFile};
    ghost use Rattle.rx_reach.specs.FileTables.{file_of};

    ghost Value = { List InputFile };

    ghost view = { λ t. map file_of t.files.entries };

    ghost invariant = { λ t. AreSorted (map (λ entry. entry.0) t.files.entries) };
}

impl FileTable {
    /// No files. It takes no memory.
    pub(crate) fn new(alloc: Global) -> FileTable
        ensures { result ≡ [] }
    {
        FileTable {
            files: BTreeMap::new(alloc),
        }
    }

    /// Whether a file of this path is among them.
    pub(crate) fn contains(&self, path: &RelPath) -> bool
        ensures { IsTrue result ↔ Contains (paths_of self.now) path.now }
    {
        self.files.contains_key(path)
    }

    /// Adds a file whose path is new.
    pub(crate) fn insert(&mut self, path: RelPath, file: ReadFile) -> Result<(), NoMemory>
        requires { Contains (paths_of self.old) path → ⊥ }
        ensures added { OnOk result ((other : InputFile) → Contains self.new other ↔
            ((other ≡ file_of (path, file)) ⊎ Contains self.old other)) }
        ensures len { OnOk result (length self.new ≡ length self.old + 1) }
    {
        self.files.insert(path, file)?;
        Ok(())
    }

    /// The files as a list, in the order of their paths.
    pub(crate) fn into_items(self, alloc: Global) -> Result<Items<InputFile>, NoMemory>
        ensures items { IfOk result (λ items. items ≡ self) }
        ensures sorted { IfOk result (λ items. AreSorted (paths_of items)) }
    {
        let FileTable { files } = self;
        list_files(alloc, files)
    }
}

/// The entries of a table as files.
fn list_files(
    alloc: Global,
    files: BTreeMap<RelPath, ReadFile>,
) -> Result<Items<InputFile>, NoMemory>
    ensures { IfOk result (λ items. items ≡ map file_of files.entries) }
{
    let mut items = Items::new(alloc);
    for (path, file) in files {
        items.push(InputFile {
            path,
            digest: file.digest,
            stamp: file.stamp,
            executable: file.executable,
        })?;
    }
    Ok(items)
}
