//! A script's answer to each call: what the next line has for it, or a fault.

ghost use Rattle.std.specs.Prelude.{◌≡◌, ◌∷◌, [], IfErr, IfOk, IfSome, None, OnOk, length, true};
ghost use Rattle.rx_exec_messages.specs.Calls.{AgreesWithAll, AreBlobs, HasCallCause, IsNamedFor, IsPartOf, RefusesOneOf, ResponseAgrees, digests_of};
ghost use Rattle.rx_exec_messages.specs.Dialects.{dialect_of};
ghost use Rattle.rx_exec_messages.specs.Scripts.{IsGenuine, Keeps, Vouches, running_of};
ghost use Rattle.rx_exec_messages.specs.StateFaults.{as_call};

use crate::script_answers::{all_go_by, digests_of, missing_of, only_text, texts_of};
use crate::script_lines::Running;
use crate::script_state::ScriptState;
use crate::{Ask, Capabilities, NamedBlob, Operation, ScriptLine, StateFault};
use rx_base::{Bytes, Digest, Items, NoMemory, Text, TryClone};
use rx_messages::ActionResult;
use rx_world::{CallFault, World};

impl ScriptState {
    /// An answer to `capabilities`.
    pub(crate) fn capabilities<W: World>(&mut self) -> Result<Capabilities, CallFault>
        ensures honest { IfOk result (λ told. IsGenuine W.blob W.operation self.old →
            dialect_of told.low told.high ≡ self.old.dialect) }
        ensures stays { Keeps W.blob W.operation self.old self.new }
        ensures cause { HasCallCause self.old.faults self.new.faults result }
    {
        self.keep(Ok(Ask::Capabilities))?;
        match self.lines.pop_front() {
            Some(ScriptLine::Capabilities(told)) => Ok(told),
            line => Err(self.fail(line)),
        }
    }

    /// An answer to `get_result`.
    pub(crate) fn get_result<W: World>(
        &mut self,
        action: &Digest,
    ) -> Result<Option<ActionResult>, CallFault>
        ensures agrees { IfOk result (λ found. IfSome found (λ r.
            AgreesWithAll W.blob (Vouches W.blob self.old) action.now r)) }
        ensures stays { Keeps W.blob W.operation self.old self.new }
        ensures cause { HasCallCause self.old.faults self.new.faults result }
    {
        self.keep(Ok(Ask::GetResult(*action)))?;
        match self.lines.pop_front() {
            Some(ScriptLine::Cached(found)) => Ok(found),
            line => Err(self.fail(line)),
        }
    }

    /// An answer to `find_missing`: of the digests, in their order, those that the line has.
    pub(crate) fn find_missing<W: World>(
        &mut self,
        digests: &[Digest],
    ) -> Result<Items<Digest>, CallFault>
        ensures part { IfOk result (λ missing. IsPartOf missing digests.now) }
        ensures stays { Keeps W.blob W.operation self.old self.new }
        ensures cause { HasCallCause self.old.faults self.new.faults result }
    {
        let ask = Items::copy_of(self.alloc, digests).map(Ask::FindMissing);
        self.keep(ask)?;
        match self.lines.pop_front() {
            Some(ScriptLine::Lacks(lacks)) => {
                missing_of(self.alloc, digests, &lacks).map_err(|_| CallFault::NoMemory)
            }
            line => Err(self.fail(line)),
        }
    }

    /// An answer to `update` and `write_stream`: that these blobs are stored.
    fn store<W: World>(
        &mut self,
        ask: Result<Ask, NoMemory>,
        digests: &[Digest],
    ) -> Result<(), CallFault>
        ensures refused { IfErr result (RefusesOneOf digests.now) }
        ensures stays { Keeps W.blob W.operation self.old self.new }
        ensures cause { HasCallCause self.old.faults self.new.faults result }
    {
        self.keep(ask)?;
        match self.lines.pop_front() {
            Some(ScriptLine::Stored) => Ok(()),
            line => Err(self.refuse(line, digests)),
        }
    }

    /// An answer to `read` and `read_stream`: the bytes of these blobs.
    #[tactic(auto, using(crate::proofs::ScriptLemmas::genuine_texts))]
    fn give<W: World>(
        &mut self,
        ask: Result<Ask, NoMemory>,
        digests: &[Digest],
    ) -> Result<Items<Bytes>, CallFault>
        ensures each { IfOk result (λ texts. length texts ≡ length digests.now) }
        ensures honest { IfOk result (λ texts. IsGenuine W.blob W.operation self.old →
            AreBlobs W.blob digests.now texts) }
        ensures refused { IfErr result (RefusesOneOf digests.now) }
        ensures stays { Keeps W.blob W.operation self.old self.new }
        ensures cause { HasCallCause self.old.faults self.new.faults result }
    {
        self.keep(ask)?;
        match self.lines.pop_front() {
            Some(ScriptLine::Blobs(blobs)) => {
                if !all_go_by(blobs.as_slice(), digests) {
                    return Err(self.count(CallFault::BadMessage(0)));
                }
                match texts_of(self.alloc, blobs) {
                    Ok(texts) => Ok(texts),
                    Err(_) => Err(CallFault::NoMemory),
                }
            }
            line => Err(self.refuse(line, digests)),
        }
    }

    /// An answer to `update`.
    pub(crate) fn update<W: World>(&mut self, blobs: &[NamedBlob]) -> Result<(), CallFault>
        ensures refused { IfErr result (RefusesOneOf (digests_of blobs.now)) }
        ensures stays { Keeps W.blob W.operation self.old self.new }
        ensures cause { HasCallCause self.old.faults self.new.faults result }
    {
        let Ok(digests) = digests_of(self.alloc, blobs) else {
            return Err(CallFault::NoMemory);
        };
        let ask = digests.try_clone(self.alloc).map(Ask::Update);
        self.store::<W>(ask, digests.as_slice())
    }

    /// An answer to `write_stream`.
    pub(crate) fn write_stream<W: World>(&mut self, digest: &Digest) -> Result<(), CallFault>
        ensures stays { Keeps W.blob W.operation self.old self.new }
        ensures cause { HasCallCause self.old.faults self.new.faults result }
    {
        self.store::<W>(Ok(Ask::WriteStream(*digest)), &[*digest])
    }

    /// An answer to `read`.
    pub(crate) fn read<W: World>(&mut self, digests: &[Digest]) -> Result<Items<Bytes>, CallFault>
        ensures each { IfOk result (λ texts. length texts ≡ length digests.now) }
        ensures honest { IfOk result (λ texts. IsGenuine W.blob W.operation self.old →
            AreBlobs W.blob digests.now texts) }
        ensures refused { IfErr result (RefusesOneOf digests.now) }
        ensures stays { Keeps W.blob W.operation self.old self.new }
        ensures cause { HasCallCause self.old.faults self.new.faults result }
    {
        let ask = Items::copy_of(self.alloc, digests).map(Ask::Read);
        self.give::<W>(ask, digests)
    }

    /// An answer to `read_stream`.
    pub(crate) fn read_stream<W: World>(&mut self, digest: &Digest) -> Result<Bytes, CallFault>
        ensures honest { IfOk result (λ text. IsGenuine W.blob W.operation self.old →
            AreBlobs W.blob (digest.now ∷ []) (text ∷ [])) }
        ensures refused { IfErr result (RefusesOneOf (digest.now ∷ [])) }
        ensures stays { Keeps W.blob W.operation self.old self.new }
        ensures cause { HasCallCause self.old.faults self.new.faults result }
    {
        let texts = self.give::<W>(Ok(Ask::ReadStream(*digest)), &[*digest])?;
        Ok(only_text(texts))
    }

    /// An answer to `execute`. A line for another action doesn't fit.
    pub(crate) fn execute<W: World>(
        &mut self,
        action: &Digest,
        skip_cache: bool,
    ) -> Result<(), CallFault>
        ensures running { OnOk result (running_of W.operation self.new ≡ action.now) }
        ensures streaming { OnOk result (self.new.is_streaming ≡ true) }
        ensures stays { Keeps W.blob W.operation self.old self.new }
        ensures cause { HasCallCause self.old.faults self.new.faults result }
    {
        self.keep(Ok(Ask::Execute {
            action: *action,
            skip_cache,
        }))?;
        match self.lines.pop_front() {
            Some(ScriptLine::Executes(begun)) => {
                if begun != *action {
                    return Err(self.fail(None));
                }
                self.running = Running::Action(begun);
                self.is_streaming = true;
                Ok(())
            }
            line => Err(self.fail(line)),
        }
    }

    /// An answer to `wait`. A line for another name doesn't fit.
    pub(crate) fn wait<W: World>(&mut self, name: &str) -> Result<(), CallFault>
        ensures running { OnOk result (running_of W.operation self.new ≡ W.operation name.now) }
        ensures streaming { OnOk result (self.new.is_streaming ≡ true) }
        ensures stays { Keeps W.blob W.operation self.old self.new }
        ensures cause { HasCallCause self.old.faults self.new.faults result }
    {
        let ask = Text::copy_of(self.alloc, name).map(Ask::Wait);
        self.keep(ask)?;
        match self.lines.pop_front() {
            Some(ScriptLine::Resumes(begun)) => {
                if begun.as_str() != name {
                    return Err(self.fail(None));
                }
                self.running = Running::Name(begun);
                self.is_streaming = true;
                Ok(())
            }
            line => Err(self.fail(line)),
        }
    }

    /// An answer to `next_operation`.
    pub(crate) fn next_operation<W: World>(&mut self) -> Result<Operation, StateFault>
        requires { self.old.is_streaming ≡ true }
        ensures agrees { IfOk result (λ operation. IfSome operation.done
            (ResponseAgrees W.blob (Vouches W.blob self.old) (running_of W.operation self.old))) }
        ensures named { IfOk result (λ operation. IsGenuine W.blob W.operation self.old →
            IsNamedFor W.operation (running_of W.operation self.old) operation.name) }
        ensures running { running_of W.operation self.new ≡ running_of W.operation self.old }
        ensures streaming { IfOk result (λ operation.
            operation.done ≡ None → self.new.is_streaming ≡ true) }
        ensures stays { Keeps W.blob W.operation self.old self.new }
        ensures cause { HasCallCause self.old.faults self.new.faults (as_call result) }
    {
        if let Err(fault) = self.keep(Ok(Ask::NextOperation)) {
            return Err(StateFault::Stream(fault));
        }
        match self.lines.pop_front() {
            Some(ScriptLine::Operation(operation)) => {
                if operation.done.is_some() {
                    self.is_streaming = false;
                }
                Ok(operation)
            }
            Some(ScriptLine::Over(code)) => {
                self.is_streaming = false;
                self.count(CallFault::Status(code));
                Err(StateFault::Over(code))
            }
            line => Err(StateFault::Stream(self.fail(line))),
        }
    }
}
