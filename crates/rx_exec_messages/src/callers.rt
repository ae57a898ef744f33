//! One client's view of a farm: its calls, and what they mean.

ghost use Rattle.std.specs.Prelude.{◌≡◌, ℕ, [], ◌∷◌, List, None, Option, IfErr, IfOk, IfSome, OnOk, length};
ghost use Rattle.rx_base.specs.declared.digests.Digest.{Digest};
ghost use Rattle.rx_world.specs.declared.commands.Command.{Command};
ghost use Rattle.rx_world.specs.declared.outcomes.Outcome.{Outcome};
ghost use Rattle.rx_world.specs.declared.versions.Dialect.{Dialect};
ghost use Rattle.rx_exec_messages.specs.declared.exchanges.Exchange.{Exchange};
ghost use Rattle.rx_exec_messages.specs.declared.exchanges.Exchange.TheVariants as exchanges;
ghost use Rattle.rx_exec_messages.specs.Calls.{AddsCall, AgreesWithAll, AreBlobs, HasCallCause, IsNamedFor, IsPartOf, RefusesOneOf, ResponseAgrees, Stays, digests_of};
ghost use Rattle.rx_exec_messages.specs.Dialects.{dialect_of};
ghost use Rattle.rx_exec_messages.specs.StateFaults.{as_call};

use crate::{Capabilities, NamedBlob, Operation, StateFault};
use rx_base::{Bytes, Digest, Items};
use rx_messages::ActionResult;
use rx_world::{CallFault, World};

/// One client's view of a farm (`remote_execution.proto`, services Capabilities, ActionCache,
/// ContentAddressableStorage and Execution; `bytestream.proto`). Each answer but success raises its
/// count of faults; that the action cache has no result is a success.
pub trait Caller<W: World> {
    /// Its calls with their answers so far, where told.
    ghost conversation: { Self → Option (List Exchange) };

    /// At this digest it vouches for this outcome of a command: each result that it answers for the
    /// digest agrees with that outcome.
    ghost vouches: { Self → Digest → Command → Outcome → Type 0 };

    /// Each blob that it answers is the world's, each name belongs to the running action, and the
    /// versions that it answers are those of its farm.
    ghost genuine: { Self → Type 0 };

    /// Where its farm looks for the outputs of a Command.
    ghost dialect: { Self → Dialect };

    /// The action of the last execution that was begun or waited for.
    ghost running: { Self → Digest };

    /// Since an execution was begun or waited for, it answered only operations that aren't done.
    ghost streaming: { Self → Type 0 };

    /// How often a call failed.
    ghost faults: { Self → ℕ };

    /// What the farm says of itself.
    fn capabilities(&mut self) -> Result<Capabilities, CallFault>
        ensures honest { IfOk result (λ told. genuine self.old →
            dialect_of told.low told.high ≡ dialect self.old) }
        ensures told { AddsCall (conversation self.old) (conversation self.new)
            (exchanges.Capabilities result) }
        ensures stays { Stays vouches genuine dialect self.old self.new }
        ensures cause { HasCallCause (faults self.old) (faults self.new) result };

    /// The result that the action cache has for an action, or none.
    fn get_result(&mut self, action: &Digest) -> Result<Option<ActionResult>, CallFault>
        ensures agrees { IfOk result (λ found. IfSome found (λ r.
            AgreesWithAll W.blob (vouches self.old) action.now r)) }
        ensures told { AddsCall (conversation self.old) (conversation self.new)
            (exchanges.GetResult action.now result) }
        ensures stays { Stays vouches genuine dialect self.old self.new }
        ensures cause { HasCallCause (faults self.old) (faults self.new) result };

    /// Which of these blobs the farm lacks: a part of them, in their order.
    fn find_missing(&mut self, digests: &[Digest]) -> Result<Items<Digest>, CallFault>
        ensures part { IfOk result (λ missing. IsPartOf missing digests.now) }
        ensures told { AddsCall (conversation self.old) (conversation self.new)
            (exchanges.FindMissing digests.now result) }
        ensures stays { Stays vouches genuine dialect self.old self.new }
        ensures cause { HasCallCause (faults self.old) (faults self.new) result };

    /// Stores these blobs in one batch. BlobRefused names the first that the farm doesn't take.
    fn update(&mut self, blobs: &[NamedBlob]) -> Result<(), CallFault>
        ensures refused { IfErr result (RefusesOneOf (digests_of blobs.now)) }
        ensures told { AddsCall (conversation self.old) (conversation self.new)
            (exchanges.Update blobs.now result) }
        ensures stays { Stays vouches genuine dialect self.old self.new }
        ensures cause { HasCallCause (faults self.old) (faults self.new) result };

    /// The bytes of these blobs in one batch, a text for each in their order. BlobRefused names the
    /// first that the farm doesn't give.
    fn read(&mut self, digests: &[Digest]) -> Result<Items<Bytes>, CallFault>
        ensures each { IfOk result (λ texts. length texts ≡ length digests.now) }
        ensures honest { IfOk result (λ texts. genuine self.old →
            AreBlobs W.blob digests.now texts) }
        ensures refused { IfErr result (RefusesOneOf digests.now) }
        ensures told { AddsCall (conversation self.old) (conversation self.new)
            (exchanges.Read digests.now result) }
        ensures stays { Stays vouches genuine dialect self.old self.new }
        ensures cause { HasCallCause (faults self.old) (faults self.new) result };

    /// Stores one blob as a stream.
    fn write_stream(&mut self, digest: &Digest, bytes: &[u8]) -> Result<(), CallFault>
        ensures told { AddsCall (conversation self.old) (conversation self.new)
            (exchanges.WriteStream digest.now bytes.now result) }
        ensures stays { Stays vouches genuine dialect self.old self.new }
        ensures cause { HasCallCause (faults self.old) (faults self.new) result };

    /// The bytes of one blob, as a stream.
    fn read_stream(&mut self, digest: &Digest) -> Result<Bytes, CallFault>
        ensures honest { IfOk result (λ text. genuine self.old →
            AreBlobs W.blob (digest.now ∷ []) (text ∷ [])) }
        ensures refused { IfErr result (RefusesOneOf (digest.now ∷ [])) }
        ensures told { AddsCall (conversation self.old) (conversation self.new)
            (exchanges.ReadStream digest.now result) }
        ensures stays { Stays vouches genuine dialect self.old self.new }
        ensures cause { HasCallCause (faults self.old) (faults self.new) result };

    /// Begins an execution. `skip_cache` asks the farm not to answer from its action cache.
    fn execute(&mut self, action: &Digest, skip_cache: bool) -> Result<(), CallFault>
        ensures running { OnOk result (running self.new ≡ action.now) }
        ensures streaming { OnOk result (streaming self.new) }
        ensures told { AddsCall (conversation self.old) (conversation self.new)
            (exchanges.Execute action.now skip_cache result) }
        ensures stays { Stays vouches genuine dialect self.old self.new }
        ensures cause { HasCallCause (faults self.old) (faults self.new) result };

    /// Waits for the execution of this name, which was begun before.
    fn wait(&mut self, name: &str) -> Result<(), CallFault>
        ensures running { OnOk result (running self.new ≡ W.operation name.now) }
        ensures streaming { OnOk result (streaming self.new) }
        ensures told { AddsCall (conversation self.old) (conversation self.new)
            (exchanges.Wait name.now result) }
        ensures stays { Stays vouches genuine dialect self.old self.new }
        ensures cause { HasCallCause (faults self.old) (faults self.new) result };

    /// The next state of the execution that was begun or waited for last. A fault tells whether the
    /// stream failed, or the execution, which then is over.
    fn next_operation(&mut self) -> Result<Operation, StateFault>
        requires streaming { streaming self.old }
        ensures agrees { IfOk result (λ operation. IfSome operation.done
            (ResponseAgrees W.blob (vouches self.old) (running self.old))) }
        ensures named { IfOk result (λ operation. genuine self.old →
            IsNamedFor W.operation (running self.old) operation.name) }
        ensures running { running self.new ≡ running self.old }
        ensures streaming { IfOk result (λ operation.
            operation.done ≡ None → streaming self.new) }
        ensures told { AddsCall (conversation self.old) (conversation self.new)
            (exchanges.NextOperation result) }
        ensures stays { Stays vouches genuine dialect self.old self.new }
        ensures cause { HasCallCause (faults self.old) (faults self.new) (as_call result) };
}
