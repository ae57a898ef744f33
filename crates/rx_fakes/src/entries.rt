//! The paths of a source tree in memory.

ghost use Rattle.std.specs.Prelude.{◌≡◌, [], IfOk, None, OnErr, OnOk, Some, map};
ghost use Rattle.rx_fakes.specs.Entries.{IsGenuine, entry_of, file_entry, stamp_of, with_entry};
ghost use Rattle.rx_world.specs.declared.looks.Look.TheVariants.{Dir, Other};
ghost use Rattle.rx_world.specs.Sources.{GivesContent, HasBytes, HoldContent, IsRead, Lists, entry_at};

use crate::found::list_files;
use rx_base::{Bytes, Items, NoMemory, RelPath, TryClone};
use rx_world::{Contents, Found, Look, Stamp};
use std::alloc::Global;
use std::collections::BTreeMap;
use std::marker::{Model, PhantomData};

/// What stands at a path.
#[derive(Debug, Drop)]
pub(crate) struct Node {
    pub look: Look,
    pub bytes: Bytes,
}

/// What stands at the paths of a source tree, seen as its entries in the order of their paths. A caller
/// picks what the world holds: where its stamps are honest, each file has just the bytes that the world
/// holds under its stamp.
#[derive(Drop)]
pub struct SourceEntries<K: Contents> {
    nodes: BTreeMap<RelPath, Node>,
    contents: PhantomData<K>,
}

impl<K: Contents> Model for SourceEntries<K> {
    ghost use Rattle.std.specs.Prelude.{List, map};
    ghost use Rattle.rx_fakes.specs.Entries.{AreEntries, entry_of};
    ghost use Rattle.rx_world.specs.declared.sources.SourceEntry.{SourceEntry};

    ghost Value = { List SourceEntry };

    ghost view = { λ e. map entry_of e.nodes.entries };

    ghost invariant = { λ e. AreEntries K.honest K.holds e.nodes.entries };
}

impl<K: Contents> SourceEntries<K> {
    /// No path.
    pub fn new(alloc: Global) -> SourceEntries<K>
        ensures { result ≡ [] }
    {
        SourceEntries {
            nodes: BTreeMap::new(alloc),
            contents: PhantomData,
        }
    }

    /// Adds a file. Its stamp has the size of its bytes. Of two entries at one path the first counts.
    pub fn add_file(
        &mut self,
        path: RelPath,
        mark: u128,
        executable: bool,
        bytes: Bytes,
    ) -> Result<(), NoMemory>
        requires { K.honest → bytes ≡ K.holds path (stamp_of bytes mark) }
        ensures ok { OnOk result
            (self.new ≡ with_entry
            (file_entry path (stamp_of bytes mark) executable bytes) self.old) }
        ensures err { OnErr result (self.new ≡ self.old) }
    {
        let stamp = Stamp {
            size: bytes.len() as u64,
            mark,
        };
        self.add_stamped(path, stamp, executable, bytes)
    }

    /// Adds a file whose stamp may have another size than its bytes.
    pub fn add_stamped(
        &mut self,
        path: RelPath,
        stamp: Stamp,
        executable: bool,
        bytes: Bytes,
    ) -> Result<(), NoMemory>
        requires { K.honest → bytes ≡ K.holds path stamp }
        ensures ok { OnOk result
            (self.new ≡ with_entry (file_entry path stamp executable bytes) self.old) }
        ensures err { OnErr result (self.new ≡ self.old) }
    {
        let look = Look::File { stamp, executable };
        self.add(path, Node { look, bytes })
    }

    /// Adds a directory.
    pub fn add_dir(&mut self, alloc: Global, path: RelPath) -> Result<(), NoMemory>
        ensures ok { OnOk result
            (self.new ≡ with_entry (record { path = path; look = Dir; bytes = [] }) self.old) }
        ensures err { OnErr result (self.new ≡ self.old) }
    {
        let bytes = Bytes::new(alloc);
        let look = Look::Dir;
        self.add(path, Node { look, bytes })
    }

    /// Adds what is neither a file nor a directory.
    pub fn add_other(&mut self, alloc: Global, path: RelPath) -> Result<(), NoMemory>
        ensures ok { OnOk result
            (self.new ≡ with_entry (record { path = path; look = Other; bytes = [] }) self.old) }
        ensures err { OnErr result (self.new ≡ self.old) }
    {
        let bytes = Bytes::new(alloc);
        let look = Look::Other;
        self.add(path, Node { look, bytes })
    }

    /// Adds a path that is new. Of two the first counts.
    fn add(&mut self, path: RelPath, node: Node) -> Result<(), NoMemory>
        requires { IsGenuine K.honest K.holds (entry_of (path, node)) }
        ensures ok { OnOk result (self.new ≡ with_entry (entry_of (path, node)) self.old) }
        ensures err { OnErr result (self.new ≡ self.old) }
    {
        if self.nodes.contains_key(&path) {
            return Ok(());
        }
        self.nodes.insert(path, node)?;
        Ok(())
    }

    /// Takes over other entries, where there are some.
    pub(crate) fn change_to(&mut self, other: Option<SourceEntries<K>>)
        ensures none { other ≡ None → self.new ≡ self.old }
        ensures holds { K.honest → HoldContent K.holds self.new }
    {
        if let Some(other) = other {
            *self = other;
        }
        let _ = &self.nodes;
    }

    /// What stands at a path.
    pub(crate) fn look(&self, path: &RelPath) -> Look
        ensures look { result ≡ (entry_at path.now self.now).look }
        ensures holds { K.honest → HoldContent K.holds self.now }
    {
        match self.nodes.get(path) {
            Some(node) => node.look,
            None => Look::Absent,
        }
    }

    /// What stands at a path, with a copy of a file's bytes.
    pub(crate) fn read(&self, alloc: Global, path: &RelPath) -> Result<(Look, Bytes), NoMemory>
        ensures read { IfOk result (λ read. IsRead self.now path.now read.0 read.1) }
        ensures bytes { IfOk result (λ read. HasBytes read.0 read.1) }
        ensures honest { IfOk result (λ read. K.honest →
            GivesContent K.holds path.now read.0 read.1) }
        ensures holds { K.honest → HoldContent K.holds self.now }
    {
        read_node(alloc, &self.nodes, path)
    }

    /// The files at or below a path, in the order of their paths: at most one more than `most`.
    pub(crate) fn list(
        &self,
        alloc: Global,
        under: &RelPath,
        most: usize,
    ) -> Result<Items<Found>, NoMemory>
        ensures list { IfOk result (Lists (Some self.now) under.now most) }
        ensures holds { K.honest → HoldContent K.holds self.now }
    {
        list_files(alloc, &self.nodes, under, most)
    }
}

fn read_node(
    alloc: Global,
    nodes: &BTreeMap<RelPath, Node>,
    path: &RelPath,
) -> Result<(Look, Bytes), NoMemory>
    ensures { IfOk result (λ read. IsRead (map entry_of nodes.now.entries) path.now read.0 read.1) }
{
    match nodes.get(path) {
        Some(node) => Ok((node.look, node.bytes.try_clone(alloc)?)),
        None => Ok((Look::Absent, Bytes::new(alloc))),
    }
}
