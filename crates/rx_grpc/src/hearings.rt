//! The calls of one message of a farm's client, each with what it heard: the channel's answer, which the bytes of its link show,
//! and what is made of it. Each fault but want of memory is counted.

ghost use Rattle.std.specs.Prelude.{◌≡◌, IfErr, IfOk, IfSome, length};
ghost use Rattle.rx_base.specs.Results.{Gives};
ghost use Rattle.rx_world.specs.declared.call_faults.CallFault.TheVariants.{NoMemory as starved};
ghost use Rattle.rx_exec_messages.specs.Calls.{HasCallCause, IsPartOf, RefusesOneOf, digests_of};
ghost use Rattle.rx_grpc.specs.Caller.{Hears};
ghost use Rattle.rx_grpc.specs.Honest.{HonestResult, HonestTexts, HonestVersions, StaysHonest};
ghost use Rattle.rx_grpc.specs.Questions.{asks_capabilities, asks_missing, asks_read, asks_result, asks_update};
ghost use Rattle.rx_grpc.specs.Results.{capabilities_by, found_by, missing_by, read_by, updated_by};

use crate::asks::{ask_capabilities, ask_missing, ask_read, ask_result, ask_update};
use crate::caller::GrpcCaller;
use rx_base::{Bytes, Digest, Items};
use rx_exec_messages::{Capabilities, NamedBlob};
use rx_messages::ActionResult;
use rx_world::{CallFault, Dial};

impl<D: Dial + Drop> GrpcCaller<D> {
    /// What the farm says of itself.
    pub fn hear_capabilities(&mut self) -> Result<Capabilities, CallFault>
        ensures heard { Hears D.faults D.rule D.L.Link (asks_capabilities self.old.instance)
            self.old.channel self.new.channel (λ heard.
            Gives starved (λ x. x) result (capabilities_by heard)) }
        ensures honest { IfOk result (HonestVersions D.rule self.old) }
        ensures stays { StaysHonest D.rule self.old self.new }
        ensures instance { self.new.instance ≡ self.old.instance }
        ensures begun { self.new.begun ≡ self.old.begun }
        ensures cause { HasCallCause self.old.faults self.new.faults result }
    {
        self.streaming = false;
        let answer = ask_capabilities(self.alloc, &mut self.channel, &self.instance);
        self.count_fault(answer)
    }

    /// The result that the action cache has for an action, or none.
    pub fn hear_result(&mut self, action: &Digest) -> Result<Option<ActionResult>, CallFault>
        ensures heard { Hears D.faults D.rule D.L.Link (asks_result self.old.instance action.now)
            self.old.channel self.new.channel (λ heard.
            Gives starved (λ x. x) result (found_by heard)) }
        ensures agrees { IfOk result (λ found.
            IfSome found (HonestResult D.rule self.old action.now)) }
        ensures stays { StaysHonest D.rule self.old self.new }
        ensures begun { self.new.begun ≡ self.old.begun }
        ensures cause { HasCallCause self.old.faults self.new.faults result }
    {
        self.streaming = false;
        let answer = ask_result(self.alloc, &mut self.channel, &self.instance, action);
        self.count_fault(answer)
    }

    /// Which of these blobs the farm lacks.
    pub fn hear_missing(&mut self, digests: &[Digest]) -> Result<Items<Digest>, CallFault>
        ensures heard { Hears D.faults D.rule D.L.Link (asks_missing self.old.instance digests.now)
            self.old.channel self.new.channel (λ heard.
            Gives starved (λ x. x) result (missing_by digests.now heard)) }
        ensures part { IfOk result (λ missing. IsPartOf missing digests.now) }
        ensures stays { StaysHonest D.rule self.old self.new }
        ensures begun { self.new.begun ≡ self.old.begun }
        ensures cause { HasCallCause self.old.faults self.new.faults result }
    {
        self.streaming = false;
        let answer = ask_missing(self.alloc, &mut self.channel, &self.instance, digests);
        self.count_fault(answer)
    }

    /// Stores these blobs in one batch.
    pub fn hear_update(&mut self, blobs: &[NamedBlob]) -> Result<(), CallFault>
        ensures heard { Hears D.faults D.rule D.L.Link (asks_update self.old.instance blobs.now)
            self.old.channel self.new.channel (λ heard.
            Gives starved (λ x. x) result (updated_by (digests_of blobs.now) heard)) }
        ensures refused { IfErr result (RefusesOneOf (digests_of blobs.now)) }
        ensures stays { StaysHonest D.rule self.old self.new }
        ensures begun { self.new.begun ≡ self.old.begun }
        ensures cause { HasCallCause self.old.faults self.new.faults result }
    {
        self.streaming = false;
        let answer = ask_update(self.alloc, &mut self.channel, &self.instance, blobs);
        self.count_fault(answer)
    }

    /// The bytes of these blobs in one batch.
    pub fn hear_read(&mut self, digests: &[Digest]) -> Result<Items<Bytes>, CallFault>
        ensures heard { Hears D.faults D.rule D.L.Link (asks_read self.old.instance digests.now)
            self.old.channel self.new.channel (λ heard.
            Gives starved (λ x. x) result (read_by digests.now heard)) }
        ensures each { IfOk result (λ texts. length texts ≡ length digests.now) }
        ensures refused { IfErr result (RefusesOneOf digests.now) }
        ensures honest { IfOk result (HonestTexts D.rule self.old digests.now) }
        ensures stays { StaysHonest D.rule self.old self.new }
        ensures begun { self.new.begun ≡ self.old.begun }
        ensures cause { HasCallCause self.old.faults self.new.faults result }
    {
        self.streaming = false;
        let answer = ask_read(self.alloc, &mut self.channel, &self.instance, digests);
        self.count_fault(answer)
    }
}
