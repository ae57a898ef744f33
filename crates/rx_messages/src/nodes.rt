//! The entries of a Directory (`remote_execution.proto`, FileNode, DirectoryNode, SymlinkNode).

use crate::numbers::{directory_node, file_node, symlink_node};
use rx_base::{Digest, NoMemory, Text};
use rx_codec::{FieldList, Message, MessageFault, Shape, Writer, check_message, check_text};
use rx_wire::{Fields, Value, WireFault};
use std::alloc::Global;

/// A file in a directory.
#[derive(Debug, Drop)]
pub struct FileNode {
    pub name: Text,
    pub digest: Option<Digest>,
    pub is_executable: bool,
}

impl Shape for FileNode {
    ghost use Rattle.rx_messages.specs.Nodes.{file_node_parts};

    ghost parts = { file_node_parts };
}

impl Message for FileNode {
    ghost use Rattle.rx_codec.specs.Decoding.{any_form};
    ghost use Rattle.rx_messages.specs.Nodes.{file_node_fields, file_node_from, file_node_is_readable};

    ghost fields = { file_node_fields };

    ghost from = { file_node_from };

    ghost is_canonical = { any_form };

    ghost IsReadable = { file_node_is_readable };

    #[tactic(auto, unfolding(rx_codec::specs::Parts::part_checked))]
    fn check_field(number: u32, value: Value<'_>, read: &Fields<'_>) -> Result<(), WireFault> {
        match number {
            file_node::NAME => check_text(number, value, read),
            file_node::DIGEST => check_message::<Digest>(number, value, read),
            _ => Ok(()),
        }
    }

    #[tactic(auto, unfolding(crate::specs::Nodes::file_node_from))]
    fn from_fields(
        alloc: Global,
        list: &FieldList<'_, FileNode>,
    ) -> Result<FileNode, MessageFault> {
        let name = list.text(alloc, file_node::NAME)?;
        let digest = list.message(alloc, file_node::DIGEST)?;
        let is_executable = list.truth(file_node::IS_EXECUTABLE);
        Ok(FileNode {
            name,
            digest,
            is_executable,
        })
    }

    #[tactic(auto, unfolding(crate::specs::Nodes::file_node_fields))]
    fn write(&self, alloc: Global, out: &mut Writer<FileNode>) -> Result<(), NoMemory> {
        out.text(file_node::NAME, self.name.as_str())?;
        out.message(alloc, file_node::DIGEST, &self.digest)?;
        out.truth(file_node::IS_EXECUTABLE, self.is_executable)
    }

    fn has_one_form(&self, alloc: Global, bytes: &[u8]) -> Result<bool, NoMemory> {
        Ok(true)
    }
}

/// A directory within another, by the digest of its Directory's bytes.
#[derive(Debug, Drop)]
pub struct DirectoryNode {
    pub name: Text,
    pub digest: Option<Digest>,
}

impl Shape for DirectoryNode {
    ghost use Rattle.rx_messages.specs.Nodes.{directory_node_parts};

    ghost parts = { directory_node_parts };
}

impl Message for DirectoryNode {
    ghost use Rattle.rx_codec.specs.Decoding.{any_form};
    ghost use Rattle.rx_messages.specs.Nodes.{directory_node_fields, directory_node_from, directory_node_is_readable};

    ghost fields = { directory_node_fields };

    ghost from = { directory_node_from };

    ghost is_canonical = { any_form };

    ghost IsReadable = { directory_node_is_readable };

    #[tactic(auto, unfolding(rx_codec::specs::Parts::part_checked))]
    fn check_field(number: u32, value: Value<'_>, read: &Fields<'_>) -> Result<(), WireFault> {
        match number {
            directory_node::NAME => check_text(number, value, read),
            directory_node::DIGEST => check_message::<Digest>(number, value, read),
            _ => Ok(()),
        }
    }

    #[tactic(auto, unfolding(crate::specs::Nodes::directory_node_from))]
    fn from_fields(
        alloc: Global,
        list: &FieldList<'_, DirectoryNode>,
    ) -> Result<DirectoryNode, MessageFault> {
        let name = list.text(alloc, directory_node::NAME)?;
        let digest = list.message(alloc, directory_node::DIGEST)?;
        Ok(DirectoryNode { name, digest })
    }

    #[tactic(auto, unfolding(crate::specs::Nodes::directory_node_fields))]
    fn write(&self, alloc: Global, out: &mut Writer<DirectoryNode>) -> Result<(), NoMemory> {
        out.text(directory_node::NAME, self.name.as_str())?;
        out.message(alloc, directory_node::DIGEST, &self.digest)
    }

    fn has_one_form(&self, alloc: Global, bytes: &[u8]) -> Result<bool, NoMemory> {
        Ok(true)
    }
}

/// A symbolic link.
#[derive(Debug, Drop)]
pub struct SymlinkNode {
    pub name: Text,
    pub target: Text,
}

impl Shape for SymlinkNode {
    ghost use Rattle.rx_messages.specs.Nodes.{symlink_node_parts};

    ghost parts = { symlink_node_parts };
}

impl Message for SymlinkNode {
    ghost use Rattle.rx_codec.specs.Decoding.{any_form};
    ghost use Rattle.rx_messages.specs.Nodes.{symlink_node_fields, symlink_node_from, symlink_node_is_readable};

    ghost fields = { symlink_node_fields };

    ghost from = { symlink_node_from };

    ghost is_canonical = { any_form };

    ghost IsReadable = { symlink_node_is_readable };

    #[tactic(auto, unfolding(rx_codec::specs::Parts::part_checked))]
    fn check_field(number: u32, value: Value<'_>, read: &Fields<'_>) -> Result<(), WireFault> {
        match number {
            symlink_node::NAME | symlink_node::TARGET => check_text(number, value, read),
            _ => Ok(()),
        }
    }

    #[tactic(auto, unfolding(crate::specs::Nodes::symlink_node_from))]
    fn from_fields(
        alloc: Global,
        list: &FieldList<'_, SymlinkNode>,
    ) -> Result<SymlinkNode, MessageFault> {
        let name = list.text(alloc, symlink_node::NAME)?;
        let target = list.text(alloc, symlink_node::TARGET)?;
        Ok(SymlinkNode { name, target })
    }

    #[tactic(auto, unfolding(crate::specs::Nodes::symlink_node_fields))]
    fn write(&self, alloc: Global, out: &mut Writer<SymlinkNode>) -> Result<(), NoMemory> {
        out.text(symlink_node::NAME, self.name.as_str())?;
        out.text(symlink_node::TARGET, self.target.as_str())
    }

    fn has_one_form(&self, alloc: Global, bytes: &[u8]) -> Result<bool, NoMemory> {
        Ok(true)
    }
}
