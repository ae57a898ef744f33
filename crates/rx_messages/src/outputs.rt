//! What a command left (`remote_execution.proto`, OutputFile, OutputDirectory, OutputSymlink).

use crate::numbers::{output_directory, output_file, output_symlink};
use rx_base::{Bytes, Digest, NoMemory, Text};
use rx_codec::{FieldList, Message, MessageFault, Shape, Writer, check_message, check_text};
use rx_wire::{Fields, Value, WireFault};
use std::alloc::Global;

/// A file that a command wrote; its contents may stand here too.
#[derive(Debug, Drop)]
pub struct OutputFile {
    pub path: Text,
    pub digest: Option<Digest>,
    pub is_executable: bool,
    pub contents: Bytes,
}

impl Shape for OutputFile {
    ghost use Rattle.rx_messages.specs.Outputs.{output_file_parts};

    ghost parts = { output_file_parts };
}

impl Message for OutputFile {
    ghost use Rattle.rx_codec.specs.Decoding.{any_form};
    ghost use Rattle.rx_messages.specs.Outputs.{output_file_fields, output_file_from, output_file_is_readable};

    ghost fields = { output_file_fields };

    ghost from = { output_file_from };

    ghost is_canonical = { any_form };

    ghost IsReadable = { output_file_is_readable };

    #[tactic(auto, unfolding(rx_codec::specs::Parts::part_checked))]
    fn check_field(number: u32, value: Value<'_>, read: &Fields<'_>) -> Result<(), WireFault> {
        match number {
            output_file::PATH => check_text(number, value, read),
            output_file::DIGEST => check_message::<Digest>(number, value, read),
            _ => Ok(()),
        }
    }

    #[tactic(auto, unfolding(crate::specs::Outputs::output_file_from))]
    fn from_fields(
        alloc: Global,
        list: &FieldList<'_, OutputFile>,
    ) -> Result<OutputFile, MessageFault> {
        let path = list.text(alloc, output_file::PATH)?;
        let digest = list.message(alloc, output_file::DIGEST)?;
        let is_executable = list.truth(output_file::IS_EXECUTABLE);
        let contents = list.bytes(alloc, output_file::CONTENTS)?;
        Ok(OutputFile {
            path,
            digest,
            is_executable,
            contents,
        })
    }

    #[tactic(auto, unfolding(crate::specs::Outputs::output_file_fields))]
    fn write(&self, alloc: Global, out: &mut Writer<OutputFile>) -> Result<(), NoMemory> {
        out.text(output_file::PATH, self.path.as_str())?;
        out.message(alloc, output_file::DIGEST, &self.digest)?;
        out.truth(output_file::IS_EXECUTABLE, self.is_executable)?;
        out.bytes(output_file::CONTENTS, self.contents.as_slice())
    }

    fn has_one_form(&self, alloc: Global, bytes: &[u8]) -> Result<bool, NoMemory> {
        Ok(true)
    }
}

/// A directory that a command wrote, by the digest of its Tree's bytes.
#[derive(Debug, Drop)]
pub struct OutputDirectory {
    pub path: Text,
    pub tree_digest: Option<Digest>,
}

impl Shape for OutputDirectory {
    ghost use Rattle.rx_messages.specs.Outputs.{output_directory_parts};

    ghost parts = { output_directory_parts };
}

impl Message for OutputDirectory {
    ghost use Rattle.rx_codec.specs.Decoding.{any_form};
    ghost use Rattle.rx_messages.specs.Outputs.{output_directory_fields, output_directory_from, output_directory_is_readable};

    ghost fields = { output_directory_fields };

    ghost from = { output_directory_from };

    ghost is_canonical = { any_form };

    ghost IsReadable = { output_directory_is_readable };

    #[tactic(auto, unfolding(rx_codec::specs::Parts::part_checked))]
    fn check_field(number: u32, value: Value<'_>, read: &Fields<'_>) -> Result<(), WireFault> {
        match number {
            output_directory::PATH => check_text(number, value, read),
            output_directory::TREE_DIGEST => check_message::<Digest>(number, value, read),
            _ => Ok(()),
        }
    }

    #[tactic(auto, unfolding(crate::specs::Outputs::output_directory_from))]
    fn from_fields(
        alloc: Global,
        list: &FieldList<'_, OutputDirectory>,
    ) -> Result<OutputDirectory, MessageFault> {
        let path = list.text(alloc, output_directory::PATH)?;
        let tree_digest = list.message(alloc, output_directory::TREE_DIGEST)?;
        Ok(OutputDirectory { path, tree_digest })
    }

    #[tactic(auto, unfolding(crate::specs::Outputs::output_directory_fields))]
    fn write(&self, alloc: Global, out: &mut Writer<OutputDirectory>) -> Result<(), NoMemory> {
        out.text(output_directory::PATH, self.path.as_str())?;
        out.message(alloc, output_directory::TREE_DIGEST, &self.tree_digest)
    }

    fn has_one_form(&self, alloc: Global, bytes: &[u8]) -> Result<bool, NoMemory> {
        Ok(true)
    }
}

/// A symbolic link that a command made.
#[derive(Debug, Drop)]
pub struct OutputSymlink {
    pub path: Text,
    pub target: Text,
}

impl Shape for OutputSymlink {
    ghost use Rattle.rx_messages.specs.Outputs.{output_symlink_parts};

    ghost parts = { output_symlink_parts };
}

impl Message for OutputSymlink {
    ghost use Rattle.rx_codec.specs.Decoding.{any_form};
    ghost use Rattle.rx_messages.specs.Outputs.{output_symlink_fields, output_symlink_from, output_symlink_is_readable};

    ghost fields = { output_symlink_fields };

    ghost from = { output_symlink_from };

    ghost is_canonical = { any_form };

    ghost IsReadable = { output_symlink_is_readable };

    #[tactic(auto, unfolding(rx_codec::specs::Parts::part_checked))]
    fn check_field(number: u32, value: Value<'_>, read: &Fields<'_>) -> Result<(), WireFault> {
        match number {
            output_symlink::PATH | output_symlink::TARGET => check_text(number, value, read),
            _ => Ok(()),
        }
    }

    #[tactic(auto, unfolding(crate::specs::Outputs::output_symlink_from))]
    fn from_fields(
        alloc: Global,
        list: &FieldList<'_, OutputSymlink>,
    ) -> Result<OutputSymlink, MessageFault> {
        let path = list.text(alloc, output_symlink::PATH)?;
        let target = list.text(alloc, output_symlink::TARGET)?;
        Ok(OutputSymlink { path, target })
    }

    #[tactic(auto, unfolding(crate::specs::Outputs::output_symlink_fields))]
    fn write(&self, alloc: Global, out: &mut Writer<OutputSymlink>) -> Result<(), NoMemory> {
        out.text(output_symlink::PATH, self.path.as_str())?;
        out.text(output_symlink::TARGET, self.target.as_str())
    }

    fn has_one_form(&self, alloc: Global, bytes: &[u8]) -> Result<bool, NoMemory> {
        Ok(true)
    }
}
