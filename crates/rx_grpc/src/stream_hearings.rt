//! The calls of a farm's client that are answered by streams, each with what it heard, as the bytes of its link show it, and what
//! is made of it. Each fault but want of memory is counted.

ghost use Rattle.std.specs.Prelude.{◌≡◌, ◌∷◌, [], length, true, List, ℕ, None, IfErr, IfOk, IfSome, OnOk};
ghost use Rattle.rx_base.specs.Results.{Gives};
ghost use Rattle.rx_world.specs.declared.call_faults.CallFault.TheVariants.{NoMemory as starved};
ghost use Rattle.rx_exec_messages.specs.declared.state_faults.StateFault.TheVariants.{Stream as by_bytes};
ghost use Rattle.rx_exec_messages.specs.Calls.{HasCallCause, RefusesOneOf};
ghost use Rattle.rx_exec_messages.specs.StateFaults.{as_call};
ghost use Rattle.rx_grpc.specs.declared.caller.Begun.TheVariants.{Executed as executed, Waited as waited};
ghost use Rattle.rx_codec.specs.FieldBytes.{fields_bytes};
ghost use Rattle.rx_grpc.specs.Caller.{Hears};
ghost use Rattle.rx_grpc.specs.Honest.{HonestName, HonestResponse, HonestTexts, StaysHonest};
ghost use Rattle.rx_grpc.specs.Questions.{AsksBegun, asks_blob, asks_execute, asks_wait, asks_write, execute_question, one, wait_question};
ghost use Rattle.rx_grpc.specs.Resources.{write_name};
ghost use Rattle.rx_grpc.specs.StreamedCalls.{HearsItems, HearsState, joined_of, kept_of, state_of};
ghost use Rattle.rx_grpc.specs.Writes.{written_by};

use crate::blob_streams::read_blob;
use crate::caller::{Begun, GrpcCaller};
use crate::method::Method;
use crate::resources::write_name;
use crate::streamed_calls::{begin_states, next_state};
use crate::uploads::write_blob;
use rx_base::{Bytes, Digest, NoMemory, Text, TryClone};
use rx_codec::Message;
use rx_exec_messages::{ExecuteRequest, Operation, StateFault, WaitExecutionRequest};
use rx_world::{CallFault, Dial};
use std::alloc::Global;
use uuid::Uuid;

/// The question to run an action.
fn execute_question(
    alloc: Global,
    instance: &Text,
    action: &Digest,
    skip_cache: bool,
) -> Result<ExecuteRequest, NoMemory>
    ensures { IfOk result (λ question.
        question ≡ execute_question instance.now action.now skip_cache) }
{
    Ok(ExecuteRequest {
        instance_name: instance.try_clone(alloc)?,
        skip_cache_lookup: skip_cache,
        action_digest: Some(*action),
    })
}

/// The question for the states of the execution of this name, and the name as it is kept.
fn wait_question(alloc: Global, name: &str) -> Result<(WaitExecutionRequest, Text), NoMemory>
    ensures asks { IfOk result (λ question. question.0 ≡ wait_question name.now) }
    ensures name { IfOk result (λ question. question.1 ≡ name.now) }
{
    let request = WaitExecutionRequest {
        name: Text::copy_of(alloc, name)?,
    };
    Ok((request, Text::copy_of(alloc, name)?))
}

impl<D: Dial + Drop> GrpcCaller<D> {
    /// Begins an execution or a wait for one, and keeps the first message that it hears.
    fn start<Q: Message>(
        &mut self,
        begun: Begun,
        method: Method,
        question: &Q,
    ) -> Result<(), CallFault>
        requires { AsksBegun self.old.instance begun
            (one method (fields_bytes (Q.fields question.now))) }
        ensures heard { HearsItems D.faults D.rule D.L.Link
            (one method (fields_bytes (Q.fields question.now))) self.old.channel self.new.channel
            (λ begun items. Gives starved (λ x. self.new.first) result (kept_of begun items)) }
        ensures stays { StaysHonest D.rule self.old self.new }
        ensures begun { self.new.begun ≡ begun }
        ensures streaming { OnOk result (self.new.streaming ≡ true) }
        ensures faults { self.new.faults ≡ self.old.faults }
    {
        self.streaming = false;
        self.begun = begun;
        match begin_states(self.alloc, &mut self.channel, method, question) {
            Ok(message) => {
                self.first = Some(message);
                self.streaming = true;
                Ok(())
            }
            Err(fault) => Err(fault),
        }
    }

    /// Begins an execution. `skip_cache` asks the farm not to answer from its action cache.
    pub fn hear_execute(&mut self, action: &Digest, skip_cache: bool) -> Result<(), CallFault>
        ensures heard { HearsItems D.faults D.rule D.L.Link
            (asks_execute self.old.instance action.now skip_cache) self.old.channel self.new.channel
            (λ begun items. Gives starved (λ x. self.new.first) result (kept_of begun items)) }
        ensures stays { StaysHonest D.rule self.old self.new }
        ensures begun { OnOk result (self.new.begun ≡ executed action.now) }
        ensures streaming { OnOk result (self.new.streaming ≡ true) }
        ensures cause { HasCallCause self.old.faults self.new.faults result }
    {
        let Ok(question) = execute_question(self.alloc, &self.instance, action, skip_cache) else {
            return Err(CallFault::NoMemory);
        };
        let answer = self.start(Begun::Executed(*action), Method::Execute, &question);
        self.count_fault(answer)
    }

    /// Waits for the execution of this name.
    pub fn hear_wait(&mut self, name: &str) -> Result<(), CallFault>
        ensures heard { HearsItems D.faults D.rule D.L.Link
            (asks_wait name.now) self.old.channel self.new.channel
            (λ begun items. Gives starved (λ x. self.new.first) result (kept_of begun items)) }
        ensures stays { StaysHonest D.rule self.old self.new }
        ensures begun { OnOk result (self.new.begun ≡ waited name.now) }
        ensures streaming { OnOk result (self.new.streaming ≡ true) }
        ensures cause { HasCallCause self.old.faults self.new.faults result }
    {
        let Ok((question, kept)) = wait_question(self.alloc, name) else {
            return Err(CallFault::NoMemory);
        };
        let answer = self.start(Begun::Waited(kept), Method::WaitExecution, &question);
        self.count_fault(answer)
    }

    /// Counts the fault of a state, unless it is want of memory.
    fn count_state(
        &mut self,
        answer: Result<Operation, StateFault>,
    ) -> Result<Operation, StateFault>
        ensures same { result ≡ answer }
        ensures cause { HasCallCause self.old.faults self.new.faults (as_call result) }
        ensures rest { self.new ≡ record self.old { faults = self.new.faults } }
    {
        match answer {
            Ok(state) => Ok(state),
            Err(fault) => {
                let _ = self.count_fault::<Operation>(Err(fault.call_fault()));
                Err(fault)
            }
        }
    }

    /// The next state of the execution that was begun or waited for last.
    pub fn hear_operation(&mut self) -> Result<Operation, StateFault>
        requires { self.old.streaming ≡ true }
        ensures heard { HearsState D.rule D.L.Link self.old.first self.old.channel self.new.channel
            (λ message. Gives (by_bytes starved) (λ x. x) result (state_of message)) }
        ensures agrees { IfOk result (λ operation.
            IfSome operation.done (HonestResponse D.rule self.old)) }
        ensures named { IfOk result (λ operation. HonestName D.rule self.old operation.name) }
        ensures stays { StaysHonest D.rule self.old self.new }
        ensures begun { self.new.begun ≡ self.old.begun }
        ensures streaming { IfOk result (λ operation.
            operation.done ≡ None → self.new.streaming ≡ true) }
        ensures cause { HasCallCause self.old.faults self.new.faults (as_call result) }
    {
        let first = self.first.take();
        self.streaming = false;
        let answer = next_state(self.alloc, &mut self.channel, first);
        if let Ok(operation) = &answer {
            self.streaming = operation.done.is_none();
        }
        self.count_state(answer)
    }

    /// The bytes of one blob, as a stream.
    pub fn hear_blob(&mut self, digest: &Digest) -> Result<Bytes, CallFault>
        ensures heard { HearsItems D.faults D.rule D.L.Link
            (asks_blob self.old.instance digest.now) self.old.channel self.new.channel
            (λ begun items. Gives starved (λ x. x) result (joined_of begun items)) }
        ensures refused { IfErr result (RefusesOneOf (digest.now ∷ [])) }
        ensures honest { IfOk result (λ text.
            HonestTexts D.rule self.old (digest.now ∷ []) (text ∷ [])) }
        ensures stays { StaysHonest D.rule self.old self.new }
        ensures begun { self.new.begun ≡ self.old.begun }
        ensures cause { HasCallCause self.old.faults self.new.faults result }
    {
        self.streaming = false;
        let answer = read_blob(self.alloc, &mut self.channel, &self.instance, digest);
        self.count_fault(answer)
    }

    /// Stores one blob as a stream.
    pub fn hear_write(&mut self, digest: &Digest, bytes: &[u8]) -> Result<(), CallFault>
        ensures heard { (upload : List ℕ) × Hears D.faults D.rule D.L.Link
            (asks_write (write_name self.old.instance upload digest.now) bytes.now)
            self.old.channel self.new.channel (λ heard.
            Gives starved (λ x. x) result (written_by (length bytes.now) heard)) }
        ensures stays { StaysHonest D.rule self.old self.new }
        ensures begun { self.new.begun ≡ self.old.begun }
        ensures cause { HasCallCause self.old.faults self.new.faults result }
    {
        self.streaming = false;
        let upload = Uuid::new_v4(&mut self.names);
        let Ok(name) = write_name(self.alloc, &self.instance, upload, digest) else {
            return Err(CallFault::NoMemory);
        };
        let answer = write_blob(self.alloc, &mut self.channel, name, bytes);
        self.count_fault(answer)
    }
}
