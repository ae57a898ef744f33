//! How a command ended (`remote_execution.proto`, ActionResult).

use crate::numbers::action_result;
use crate::outputs::{OutputDirectory, OutputFile, OutputSymlink};
use rx_base::{Bytes, Digest, Items, NoMemory};
use rx_codec::{FieldList, Message, MessageFault, Shape, Writer, check_message};
use rx_wire::{Fields, Value, WireFault};
use std::alloc::Global;

/// How a command ended. Of execution_metadata only the bytes of its pieces, joined, are kept.
#[derive(Debug, Drop)]
pub struct ActionResult {
    pub output_files: Items<OutputFile>,
    pub output_directories: Items<OutputDirectory>,
    pub exit_code: i32,
    pub stdout_raw: Bytes,
    pub stdout_digest: Option<Digest>,
    pub stderr_raw: Bytes,
    pub stderr_digest: Option<Digest>,
    pub execution_metadata: Bytes,
    pub output_symlinks: Items<OutputSymlink>,
}

impl Shape for ActionResult {
    ghost use Rattle.rx_messages.specs.Results.{action_result_parts};

    ghost parts = { action_result_parts };
}

impl Message for ActionResult {
    ghost use Rattle.rx_codec.specs.Decoding.{any_form};
    ghost use Rattle.rx_messages.specs.Results.{action_result_fields, action_result_from, action_result_is_readable};

    ghost fields = { action_result_fields };

    ghost from = { action_result_from };

    ghost is_canonical = { any_form };

    ghost IsReadable = { action_result_is_readable };

    #[tactic(auto, unfolding(rx_codec::specs::Parts::part_checked))]
    fn check_field(number: u32, value: Value<'_>, read: &Fields<'_>) -> Result<(), WireFault> {
        match number {
            action_result::OUTPUT_FILES => check_message::<OutputFile>(number, value, read),
            action_result::OUTPUT_DIRECTORIES => check_message::<OutputDirectory>(
                number, value, read,
            ),
            action_result::STDOUT_DIGEST | action_result::STDERR_DIGEST => check_message::<Digest>(
                number, value, read,
            ),
            action_result::OUTPUT_SYMLINKS => check_message::<OutputSymlink>(number, value, read),
            _ => Ok(()),
        }
    }

    #[tactic(auto, unfolding(crate::specs::Results::action_result_from))]
    fn from_fields(
        alloc: Global,
        list: &FieldList<'_, ActionResult>,
    ) -> Result<ActionResult, MessageFault> {
        let output_files = list.messages(alloc, action_result::OUTPUT_FILES)?;
        let output_directories = list.messages(alloc, action_result::OUTPUT_DIRECTORIES)?;
        let exit_code = list.int32(action_result::EXIT_CODE);
        let stdout_raw = list.bytes(alloc, action_result::STDOUT_RAW)?;
        let stdout_digest = list.message(alloc, action_result::STDOUT_DIGEST)?;
        let stderr_raw = list.bytes(alloc, action_result::STDERR_RAW)?;
        let stderr_digest = list.message(alloc, action_result::STDERR_DIGEST)?;
        let execution_metadata = list.joined(alloc, action_result::EXECUTION_METADATA)?;
        let output_symlinks = list.messages(alloc, action_result::OUTPUT_SYMLINKS)?;
        Ok(ActionResult {
            output_files,
            output_directories,
            exit_code,
            stdout_raw,
            stdout_digest,
            stderr_raw,
            stderr_digest,
            execution_metadata,
            output_symlinks,
        })
    }

    #[tactic(auto, unfolding(crate::specs::Results::action_result_fields))]
    fn write(&self, alloc: Global, out: &mut Writer<ActionResult>) -> Result<(), NoMemory> {
        let exit_code = self.exit_code;
        out.messages(alloc, action_result::OUTPUT_FILES, &self.output_files)?;
        out.messages(
            alloc,
            action_result::OUTPUT_DIRECTORIES,
            &self.output_directories,
        )?;
        out.int32(action_result::EXIT_CODE, exit_code)?;
        out.bytes(action_result::STDOUT_RAW, self.stdout_raw.as_slice())?;
        out.message(alloc, action_result::STDOUT_DIGEST, &self.stdout_digest)?;
        out.bytes(action_result::STDERR_RAW, self.stderr_raw.as_slice())?;
        out.message(alloc, action_result::STDERR_DIGEST, &self.stderr_digest)?;
        out.bytes(
            action_result::EXECUTION_METADATA,
            self.execution_metadata.as_slice(),
        )?;
        out.messages(alloc, action_result::OUTPUT_SYMLINKS, &self.output_symlinks)
    }

    fn has_one_form(&self, alloc: Global, bytes: &[u8]) -> Result<bool, NoMemory> {
        Ok(true)
    }
}
