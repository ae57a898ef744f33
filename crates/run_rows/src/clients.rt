//! Clients of desks' farms: clients whose calls may wait.

ghost use Rattle.std.specs.Prelude.{◌≡◌, ◌≤◌, ◌⊎◌, IfErr, None, true};
ghost use Rattle.rx_exec_messages.specs.Calls.{HasCallCause};
ghost use Rattle.rx_world.specs.declared.call_faults.CallFault.TheVariants.{Link as link, NoMemory as no_memory};
ghost use Rattle.rx_world.specs.Causes.{Rose};

use crate::seats::{Hands, Seat};
use rx_base::{Bytes, Digest, Items};
use rx_exec_messages::{Caller, Capabilities, NamedBlob, Operation, StateFault};
use rx_messages::ActionResult;
use rx_world::{CallFault, Refused, World};

/// A farm's client that vouches for what another one does, and doesn't tell its calls. Where a wait ends
/// too late, the call's fault is that of a lost link.
#[derive(Drop)]
pub(crate) struct MeetingClient<C, H> {
    pub client: C,
    pub seat: Seat<H>,
}

impl<C, H: Hands> MeetingClient<C, H> {
    /// Begins a call.
    fn enter(&mut self) -> Result<(), CallFault>
        ensures client { self.new.client ≡ self.old.client }
        ensures fault { IfErr result (λ fault. (fault ≡ link) ⊎ (fault ≡ no_memory)) }
        ensures cause { HasCallCause self.old.seat.faults self.new.seat.faults result }
    {
        match self.seat.enter() {
            Ok(()) => Ok(()),
            Err(Refused::Failed) => Err(CallFault::Link),
            Err(Refused::NoMemory) => Err(CallFault::NoMemory),
        }
    }

    /// Counts a fault, where a call failed.
    fn count(&mut self, has_failed: bool)
        ensures client { self.new.client ≡ self.old.client }
        ensures later { self.old.seat.faults ≤ self.new.seat.faults }
        ensures rose { has_failed ≡ true → Rose self.old.seat.faults self.new.seat.faults }
    {
        if has_failed {
            self.seat.fault();
        }
    }
}

impl<W: World, C: Caller<W>, H: Hands> Caller<W> for MeetingClient<C, H> {
    ghost conversation = { λ c. None };

    ghost vouches = { λ c. C.vouches c.client };

    ghost genuine = { λ c. C.genuine c.client };

    ghost dialect = { λ c. C.dialect c.client };

    ghost running = { λ c. C.running c.client };

    ghost streaming = { λ c. C.streaming c.client };

    ghost faults = { λ c. c.seat.faults };

    fn capabilities(&mut self) -> Result<Capabilities, CallFault> {
        self.enter()?;
        let answer = self.client.capabilities();
        self.count(answer.is_err());
        answer
    }

    fn get_result(&mut self, action: &Digest) -> Result<Option<ActionResult>, CallFault> {
        self.enter()?;
        let answer = self.client.get_result(action);
        self.count(answer.is_err());
        answer
    }

    fn find_missing(&mut self, digests: &[Digest]) -> Result<Items<Digest>, CallFault> {
        self.enter()?;
        let answer = self.client.find_missing(digests);
        self.count(answer.is_err());
        answer
    }

    fn update(&mut self, blobs: &[NamedBlob]) -> Result<(), CallFault> {
        self.enter()?;
        let answer = self.client.update(blobs);
        self.count(answer.is_err());
        answer
    }

    fn read(&mut self, digests: &[Digest]) -> Result<Items<Bytes>, CallFault> {
        self.enter()?;
        let answer = self.client.read(digests);
        self.count(answer.is_err());
        answer
    }

    fn write_stream(&mut self, digest: &Digest, bytes: &[u8]) -> Result<(), CallFault> {
        self.enter()?;
        let answer = self.client.write_stream(digest, bytes);
        self.count(answer.is_err());
        answer
    }

    fn read_stream(&mut self, digest: &Digest) -> Result<Bytes, CallFault> {
        self.enter()?;
        let answer = self.client.read_stream(digest);
        self.count(answer.is_err());
        answer
    }

    fn execute(&mut self, action: &Digest, skip_cache: bool) -> Result<(), CallFault> {
        self.enter()?;
        let answer = self.client.execute(action, skip_cache);
        self.count(answer.is_err());
        answer
    }

    fn wait(&mut self, name: &str) -> Result<(), CallFault> {
        self.enter()?;
        let answer = self.client.wait(name);
        self.count(answer.is_err());
        answer
    }

    fn next_operation(&mut self) -> Result<Operation, StateFault> {
        if let Err(fault) = self.enter() {
            return Err(StateFault::Stream(fault));
        }
        let answer = self.client.next_operation();
        self.count(answer.is_err());
        answer
    }
}
