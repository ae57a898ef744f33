//! A result of a farm, read once for its command: what is wrong with it, what has to be fetched for
//! it, and the outcome that comes of it.

ghost use Rattle.std.specs.Prelude.{◌≡◌, ◌||◌, IfOk, map};
ghost use Rattle.rx_base.specs.SortedPaths.{AreSorted};
ghost use Rattle.rx_results.specs.ResultOutputs.{slot_at};
ghost use Rattle.rx_results.specs.Readings.{AreWantedOf, IsCleanOf, IsFaultOf, IsNoneIfAgreed, IsOutcomeOf, IsProperOf, IsReading, IsSpoiledOf, IsWithinLimitsOf};
ghost use Rattle.rx_results.specs.Results.{are_files_too_large, is_text_too_large};

use crate::matching::match_outputs;
use crate::output_lists::{
    add_all_wanted, add_wanted, are_too_large, fill_outputs, first_mismatch, has_any_no_digest,
    is_any_absent, is_any_repeated,
};
use crate::result_outputs::ResultOutput;
use crate::slots::{DigestMismatch, Slot};
use rx_base::{Bytes, Digest, Items, NoMemory};
use rx_messages::ActionResult;
use rx_world::{Command, Exit, Outcome, ResultFault};
use std::alloc::Global;
use std::collections::VecDeque;

/// What a farm's result (`remote_execution.proto`, ActionResult) says of its command: how the command
/// ended, where the bytes of its texts come from, and what the result has at each output that counts.
/// At another code than 0 no output counts.
#[derive(Debug, Drop)]
pub(crate) struct Reading {
    code: i32,
    stdout: Slot,
    stderr: Slot,
    outputs: Items<ResultOutput>,
}

impl Reading {
    /// Reads a result of the command. Each path of the result is read on from the working directory
    /// once and sought among the outputs, which are sorted, each once. A path that is refused, or is
    /// no output, counts nowhere. The error is want of memory.
    pub(crate) fn new(
        alloc: Global,
        command: &Command,
        given: ActionResult,
    ) -> Result<Reading, NoMemory>
        requires { AreSorted command.now.outputs }
        ensures { IfOk result (λ reading. IsReading command.now given reading) }
    {
        let ActionResult {
            output_files,
            output_directories,
            exit_code,
            stdout_raw,
            stdout_digest,
            stderr_raw,
            stderr_digest,
            output_symlinks,
            ..
        } = given;
        let directories = output_directories.as_slice();
        let links = output_symlinks.as_slice();
        let outputs = if exit_code == 0 {
            match_outputs(alloc, command, output_files, directories, links)?
        } else {
            Vec::new(alloc)
        };
        Ok(Reading {
            code: exit_code,
            stdout: Slot {
                inline: stdout_raw,
                digest: stdout_digest,
            },
            stderr: Slot {
                inline: stderr_raw,
                digest: stderr_digest,
            },
            outputs: Items::from_vec(outputs),
        })
    }

    /// What is wrong with the result, the first of the faults in their order. It takes no memory.
    pub(crate) fn fault(&self) -> Option<ResultFault>
        ensures { IsFaultOf self.now result }
    {
        let outputs = self.outputs.as_slice();
        if is_any_repeated(outputs) {
            return Some(ResultFault::PathTwice);
        }
        if is_any_absent(outputs) {
            return Some(ResultFault::OutputAbsent);
        }
        if has_any_no_digest(outputs) {
            return Some(ResultFault::NoDigest);
        }
        if self.is_too_large() {
            return Some(ResultFault::TooLarge);
        }
        None
    }

    /// Whether a file, all files together or a text is too large.
    fn is_too_large(&self) -> bool
        ensures { result ≡ (are_files_too_large (map slot_at self.now.outputs)
            || (is_text_too_large self.now.stdout || is_text_too_large self.now.stderr)) }
    {
        are_too_large(self.outputs.as_slice())
            || self.stdout.is_too_large_text()
            || self.stderr.is_too_large_text()
    }

    /// Of the first output whose contents in the result haven't the digest that it names: both
    /// digests. Each of the contents is hashed.
    pub(crate) fn spoiled(&self) -> Option<DigestMismatch>
        ensures first { IsSpoiledOf self.now result }
        ensures agreed { IsNoneIfAgreed self.now result }
    {
        first_mismatch(self.outputs.as_slice())
    }

    /// The digests that have to be fetched: for standard output, for standard error, and for the
    /// outputs in their order. One that stands there twice is asked for twice.
    pub(crate) fn wanted(&self, alloc: Global) -> Result<Items<Digest>, NoMemory>
        ensures { IfOk result (AreWantedOf self.now) }
    {
        let mut digests = Items::new(alloc);
        add_wanted(&mut digests, &self.stdout)?;
        add_wanted(&mut digests, &self.stderr)?;
        add_all_wanted(&mut digests, self.outputs.as_slice())?;
        Ok(digests)
    }

    /// The outcome that comes of the result and the texts that were fetched for it, in the order of
    /// the digests. Bytes are moved, and none are copied. Where texts are wanting, the last that need
    /// one have no bytes.
    pub(crate) fn outcome(self, alloc: Global, texts: Items<Bytes>) -> Result<Outcome, NoMemory>
        ensures is { IfOk result (IsOutcomeOf self texts) }
        ensures proper { IfOk result (IsProperOf self) }
        ensures limits { IfOk result (IsWithinLimitsOf self texts) }
        ensures clean { IfOk result (IsCleanOf self texts) }
    {
        let mut texts = VecDeque::from_vec(texts.into_vec());
        let stdout = self.stdout.fill(&mut texts);
        let stderr = self.stderr.fill(&mut texts);
        let files = fill_outputs(alloc, self.outputs, texts)?;
        Ok(Outcome {
            exit: Exit {
                code: self.code,
                stdout,
                stderr,
            },
            files,
        })
    }
}
