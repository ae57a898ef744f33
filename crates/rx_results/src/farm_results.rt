//! A result of a farm together with the command that it is for.

ghost use Rattle.std.specs.Prelude.{◌≡◌, ℕ, IfOk, List, None};
ghost use Rattle.rx_base.specs.SortedPaths.{AreSorted};
ghost use Rattle.rx_base.specs.declared.digests.Digest.{Digest as AnyDigest};
ghost use Rattle.rx_world.specs.declared.commands.Command.{Command as AnyCommand};
ghost use Rattle.rx_world.specs.declared.outcomes.Outcome.{Outcome as AnyOutcome};
ghost use Rattle.rx_world.specs.declared.trees.Tree.{Tree};
ghost use Rattle.rx_world.specs.Outcomes.{IsClean, IsProper};
ghost use Rattle.rx_results.specs.Agreement.{Agrees};
ghost use Rattle.rx_results.specs.Outcomes.{IsWithinLimits, outcome_of};
ghost use Rattle.rx_results.specs.Readings.{IsFetched, IsHonest};
ghost use Rattle.rx_results.specs.Results.{fault_of, spoiled_of, wanted_of};

use crate::DigestMismatch;
use crate::readings::Reading;
use rx_base::{Bytes, Digest, Items, NoMemory};
use rx_messages::ActionResult;
use rx_world::{Command, Outcome, ResultFault};
use std::alloc::Global;
use std::marker::Model;
use std::snapshot::Snapshot;

/// A farm's result (`remote_execution.proto`, ActionResult) with the command that it is for. It is
/// read once, and seen as the two.
#[derive(Drop)]
pub struct FarmResult {
    reading: Reading,
    command: Snapshot<Command>,
    given: Snapshot<ActionResult>,
}

impl Model for FarmResult {
    ghost use Rattle.rx_results.specs.FarmResults.{FarmResultOf};
    ghost use Rattle.rx_results.specs.Readings.{IsReading};

    ghost Value = { FarmResultOf };

    ghost view = { λ r. record { command = r.command.value; result = r.given.value } };

    ghost invariant = { λ r. IsReading r.command.value r.given.value r.reading };
}

impl FarmResult {
    /// Reads a result of the command. Each path of the result is read on from the working directory
    /// once and sought among the outputs, which are sorted, each once. A path that is refused, or is
    /// no output, counts nowhere. The error is want of memory.
    pub fn new(
        alloc: Global,
        command: &Command,
        given: ActionResult,
    ) -> Result<FarmResult, NoMemory>
        requires { AreSorted command.now.outputs }
        ensures { IfOk result (λ read. read ≡ record { command = command.now; result = given }) }
    {
        let kept_command = Snapshot::of(command);
        let kept_given = Snapshot::of(&given);
        Ok(FarmResult {
            reading: Reading::new(alloc, command, given)?,
            command: kept_command,
            given: kept_given,
        })
    }

    /// What is wrong with the result, the first of the faults in their order. It takes no memory.
    pub fn fault(&self) -> Option<ResultFault>
        ensures { result ≡ fault_of self.now.command self.now.result }
    {
        self.reading.fault()
    }

    /// Of the first output whose contents in the result haven't the digest that it names: both
    /// digests. Each of the contents is hashed. Where the result agrees with an outcome, there is
    /// none.
    pub fn spoiled(&self) -> Option<DigestMismatch>
        ensures first { result ≡ spoiled_of self.now.command self.now.result }
        ensures agreed { (blob : AnyDigest → List ℕ) (outcome : AnyOutcome) →
            Agrees blob self.now.command outcome self.now.result → result ≡ None }
    {
        self.reading.spoiled()
    }

    /// The digests that have to be fetched: for standard output, for standard error, and for the
    /// outputs in their order. One that stands there twice is asked for twice.
    pub fn wanted(&self, alloc: Global) -> Result<Items<Digest>, NoMemory>
        ensures { IfOk result (λ digests.
            digests ≡ wanted_of self.now.command self.now.result) }
    {
        self.reading.wanted(alloc)
    }

    /// The outcome that comes of the result and the texts that were fetched for it, in the order of
    /// the digests. Bytes are moved, and none are copied. Where texts are wanting, the last that need
    /// one have no bytes.
    pub fn outcome(self, alloc: Global, texts: Items<Bytes>) -> Result<Outcome, NoMemory>
        ensures is { IfOk result (λ outcome.
            outcome ≡ outcome_of self.command self.result texts) }
        ensures proper { IfOk result (IsProper self.command) }
        ensures limits { IfOk result (λ outcome.
            IsFetched self.command self.result texts → IsWithinLimits outcome) }
        ensures clean { IfOk result (λ outcome.
            (blob : AnyDigest → List ℕ) (tool : AnyCommand → Tree → AnyOutcome) (tree : Tree) →
            IsHonest blob tool tree self.command self.result texts →
            IsClean tool self.command tree outcome) }
    {
        self.reading.outcome(alloc, texts)
    }
}
