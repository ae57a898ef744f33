//! What is directly in a directory, in its one form (`remote_execution.proto`, Directory).

ghost use Rattle.std.specs.Prelude.{◌≡◌, IfOk};
ghost use Rattle.rx_messages.specs.Directories.{entry_names, is_canonical, lists_hold};

use crate::names::{Entry, are_distinct, entries_hold, push_names};
use crate::nodes::{DirectoryNode, FileNode, SymlinkNode};
use crate::numbers::directory;
use rx_base::{Items, NoMemory, Text};
use rx_codec::{FieldList, Message, MessageFault, Shape, Writer, check_message};
use rx_wire::{Fields, Value, WireFault};
use std::alloc::Global;

/// What is directly in a directory. It may be written in one
/// form alone: each list sorted by the bytes of the names, no name twice in the whole, each a name
/// of a path, each file and directory with its digest, and no byte that isn't written for these.
#[derive(Debug, Drop)]
pub struct Directory {
    pub files: Items<FileNode>,
    pub directories: Items<DirectoryNode>,
    pub symlinks: Items<SymlinkNode>,
}

impl Shape for Directory {
    ghost use Rattle.rx_messages.specs.Directories.{directory_parts};

    ghost parts = { directory_parts };
}

impl Message for Directory {
    ghost use Rattle.rx_messages.specs.Directories.{directory_fields, directory_from, directory_has_one_form, directory_is_readable};

    ghost fields = { directory_fields };

    ghost from = { directory_from };

    ghost is_canonical = { directory_has_one_form };

    ghost IsReadable = { directory_is_readable };

    #[tactic(auto, unfolding(rx_codec::specs::Parts::part_checked))]
    fn check_field(number: u32, value: Value<'_>, read: &Fields<'_>) -> Result<(), WireFault> {
        match number {
            directory::FILES => check_message::<FileNode>(number, value, read),
            directory::DIRECTORIES => check_message::<DirectoryNode>(number, value, read),
            directory::SYMLINKS => check_message::<SymlinkNode>(number, value, read),
            _ => Ok(()),
        }
    }

    #[tactic(auto, unfolding(crate::specs::Directories::directory_from))]
    fn from_fields(
        alloc: Global,
        list: &FieldList<'_, Directory>,
    ) -> Result<Directory, MessageFault> {
        let files = list.messages(alloc, directory::FILES)?;
        let directories = list.messages(alloc, directory::DIRECTORIES)?;
        let symlinks = list.messages(alloc, directory::SYMLINKS)?;
        Ok(Directory {
            files,
            directories,
            symlinks,
        })
    }

    #[tactic(auto, unfolding(crate::specs::Directories::directory_fields))]
    fn write(&self, alloc: Global, out: &mut Writer<Directory>) -> Result<(), NoMemory> {
        out.messages(alloc, directory::FILES, &self.files)?;
        out.messages(alloc, directory::DIRECTORIES, &self.directories)?;
        out.messages(alloc, directory::SYMLINKS, &self.symlinks)
    }

    #[tactic(auto, unfolding(crate::specs::Directories::directory_has_one_form))]
    fn has_one_form(&self, alloc: Global, bytes: &[u8]) -> Result<bool, NoMemory> {
        if !is_canonical(alloc, self)? {
            return Ok(false);
        }
        let mut out = Writer::new(alloc);
        self.write(alloc, &mut out)?;
        Ok(bytes == out.finish().as_slice())
    }
}

/// Whether a Directory may be written.
#[tactic(auto, unfolding(crate::specs::Directories::is_canonical))]
fn is_canonical(alloc: Global, directory: &Directory) -> Result<bool, NoMemory>
    ensures { IfOk result (λ canonical. canonical ≡ is_canonical directory.now) }
{
    if !lists_hold(directory) {
        return Ok(false);
    }
    are_distinct(entry_names(alloc, directory)?)
}

/// Whether each list is sorted, with names of paths and with digests.
#[tactic(auto, unfolding(crate::specs::Directories::lists_hold))]
fn lists_hold(directory: &Directory) -> bool
    ensures { result ≡ lists_hold directory.now }
{
    if !entries_hold(directory.files.as_slice()) {
        return false;
    }
    if !entries_hold(directory.directories.as_slice()) {
        return false;
    }
    entries_hold(directory.symlinks.as_slice())
}

/// Copies of all names.
fn entry_names(alloc: Global, directory: &Directory) -> Result<Vec<Text>, NoMemory>
    ensures { IfOk result (λ names. names.items ≡ entry_names directory.now) }
{
    let mut names = Vec::new(alloc);
    push_names(alloc, &mut names, directory.files.as_slice())?;
    push_names(alloc, &mut names, directory.directories.as_slice())?;
    push_names(alloc, &mut names, directory.symlinks.as_slice())?;
    Ok(names)
}

impl Entry for FileNode {
    ghost use Rattle.std.specs.Prelude.{is_some, true};

    ghost name = { λ node. node.name };

    ghost is_whole = { λ node. is_some node.digest };

    fn name(&self) -> &Text {
        &self.name
    }

    fn is_whole(&self) -> bool {
        self.digest.is_some()
    }
}

impl Entry for DirectoryNode {
    ghost use Rattle.std.specs.Prelude.{is_some, true};

    ghost name = { λ node. node.name };

    ghost is_whole = { λ node. is_some node.digest };

    fn name(&self) -> &Text {
        &self.name
    }

    fn is_whole(&self) -> bool {
        self.digest.is_some()
    }
}

impl Entry for SymlinkNode {
    ghost use Rattle.std.specs.Prelude.{is_some, true};

    ghost name = { λ node. node.name };

    ghost is_whole = { λ node. true };

    fn name(&self) -> &Text {
        &self.name
    }

    fn is_whole(&self) -> bool {
        true
    }
}
