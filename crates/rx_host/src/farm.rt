//! The client of a farm over TCP, as an attempt calls it: each call by what `rx_grpc` hears over the connection.

ghost use Rattle.std.specs.Prelude.{◌≡◌, ◌≤◌, IfSome, None, true};
ghost use Rattle.rx_exec_messages.specs.Dialects.{dialect_of};
ghost use Rattle.rx_world.specs.declared.versions.Dialect.TheVariants.{New as new_dialect};
ghost use Rattle.rx_grpc.specs.Begun.{action_of};
ghost use Rattle.rx_grpc.specs.Honest.{IsGenuine, Vouches};
ghost use Rattle.rx_host.specs.Farms.{any_bytes};

use crate::dial::HostDial;
use crate::hands::Hands;
use crate::pauses::Pauses;
use crate::timed::Unread;
use crate::untried::{hear_execute, hear_missing, hear_result};
use crate::world::HostWorld;
use rx_base::{Bytes, Digest, Items};
use rx_exec_messages::{Caller, Capabilities, NamedBlob, Operation, StateFault};
use rx_grpc::GrpcCaller;
use rx_messages::ActionResult;
use rx_world::{CallFault, Dialect, World};
use std::marker::Model;

/// What the farm said of itself, and how many connections had been made by then.
#[derive(Clone, Copy, Debug, Drop)]
struct Told {
    capabilities: Capabilities,
    made: u64,
}

impl Told {
    /// What the farm said of itself on the last of so many connections, if anything.
    fn on(self, made: u64) -> Option<Capabilities> {
        if self.made == made {
            Some(self.capabilities)
        } else {
            None
        }
    }
}

/// A farm's client over TCP, with or without a connection. That tells nothing of its bytes, so the client vouches for an outcome
/// only where all bytes would tell it, which is never: that the farm is an honest one is its user's own premise.
#[derive(Drop)]
pub struct HostFarm<H: Hands> {
    caller: GrpcCaller<HostDial<H>>,
    /// Whether an execution goes on, also where the connection was closed here: then its next state is a fault.
    streaming: bool,
    pauses: Pauses,
    told: Option<Told>,
}

impl<H: Hands> Model for HostFarm<H> {
    ghost use Rattle.rx_host.specs.Farms.{FarmOf};

    ghost Value = { FarmOf };

    ghost view = { λ f. record {
      authority = f.caller.channel.authority;
      instance = f.caller.instance;
      begun = f.caller.begun;
      streaming = f.streaming;
      faults = f.caller.faults;
    } };
}

impl<H: Hands> HostFarm<H> {
    /// The client that makes its calls so.
    pub fn new(caller: GrpcCaller<HostDial<H>>) -> HostFarm<H> {
        HostFarm {
            caller,
            streaming: false,
            pauses: Pauses::new(),
            told: None,
        }
    }

    /// Goes on on a connection that another session left, if there is one, and answers what the farm said of itself on it.
    /// Where it wasn't asked there, or something came meanwhile, it is asked anew; where it doesn't answer there, the
    /// connection is closed, and that is no fault of the attempt.
    fn take_up(&mut self) -> Option<Capabilities>
        ensures newer { IfSome result (λ told. dialect_of told.low told.high ≡ new_dialect) }
        ensures later { self.old.faults ≤ self.new.faults }
        ensures rest { self.new ≡ record self.old { faults = self.new.faults } }
    {
        if self.caller.channel().link().is_some() {
            return None;
        }
        let (kept, unread) = self.caller.channel().dial().take_kept()?;
        self.caller.resume(kept.resting);
        let told = match (unread, kept.told) {
            (Unread::Nothing, Some(told)) => told,
            _ => self.ask_again()?,
        };
        match told.dialect() {
            Dialect::New => {
                self.note(told);
                Some(told)
            }
            Dialect::Old => None,
        }
    }

    /// Asks the farm on a connection that another session left what it can do. Where no answer comes, the connection is closed.
    fn ask_again(&mut self) -> Option<Capabilities>
        ensures later { self.old.faults ≤ self.new.faults }
        ensures rest { self.new ≡ record self.old { faults = self.new.faults } }
    {
        self.caller.channel().dial().begin_call(0, None);
        match self.caller.hear_capabilities() {
            Ok(told) => Some(told),
            Err(_) => {
                self.caller.hang_up();
                None
            }
        }
    }

    /// The farm said this of itself on the connection that is there. Other sessions use its connections where it looks for
    /// outputs as those farms do that sessions are meant for.
    fn note(&mut self, capabilities: Capabilities)
        ensures { self.new ≡ self.old }
    {
        let made = self.caller.channel().dial().made();
        self.told = match capabilities.dialect() {
            Dialect::New => Some(Told { capabilities, made }),
            Dialect::Old => None,
        };
    }

    /// Whether the last connection brought nothing, or there was none.
    fn is_unheard(&self) -> bool {
        match self.caller.channel().link() {
            Some(link) => !link.is_heard(),
            None => true,
        }
    }

    /// Tells on standard error what the farm said where it refused a call. Where an attempt is over and got nothing from
    /// the farm, that is away.
    fn follow_up<T>(&self, answer: &Result<T, CallFault>) {
        if let Err(CallFault::Status(code)) = answer {
            self.caller
                .channel()
                .dial()
                .tell_status(*code, self.caller.status_text());
        }
        if self.pauses.is_over() && self.is_unheard() {
            self.caller.channel().dial().give_up();
        }
    }

    /// Leaves the connection, if there is one, as its session ends: to the sessions after it, where they can use it, and else it is
    /// closed. What is kept of the session's connections for halting is let go of. What is told of the client stays; its next call
    /// makes another connection.
    pub fn hang_up(self) -> HostFarm<H>
        ensures { result ≡ self }
    {
        let told = self.told;
        let made = self.caller.channel().dial().made();
        let mut caller = self.caller;
        let resting = caller.rest();
        caller.channel().dial().let_go();
        if let (Some(resting), Some(told)) = (resting, told) {
            caller.channel().dial().keep(resting, told.on(made));
        }
        HostFarm {
            caller,
            streaming: self.streaming,
            pauses: self.pauses,
            told: None,
        }
    }
}

/// Whether a state came, or why not, as of a call.
fn as_call(answer: &Result<Operation, StateFault>) -> Result<(), CallFault> {
    match answer {
        Ok(_) => Ok(()),
        Err(fault) => Err(fault.call_fault()),
    }
}

impl<H: Hands> Caller<HostWorld> for HostFarm<H> {
    ghost conversation = { λ c. None };

    ghost vouches = { λ c. Vouches any_bytes c.authority c.instance
        ⟦<HostWorld as World>⟧.blob ⟦<HostWorld as World>⟧.operation };

    ghost genuine = { λ c. IsGenuine any_bytes c.authority c.instance
        ⟦<HostWorld as World>⟧.blob ⟦<HostWorld as World>⟧.operation new_dialect };

    ghost dialect = { λ c. new_dialect };

    ghost running = { λ c. action_of ⟦<HostWorld as World>⟧.operation c.begun };

    ghost streaming = { λ c. c.streaming ≡ true };

    ghost faults = { λ c. c.faults };

    fn capabilities(&mut self) -> Result<Capabilities, CallFault> {
        if let Some(told) = self.take_up() {
            return Ok(told);
        }
        self.caller
            .channel()
            .dial()
            .begin_call(0, self.pauses.take());
        let answer = self.caller.hear_capabilities();
        let asked = self.caller.retry_delay();
        self.pauses.heed(&answer, asked);
        self.follow_up(&answer);
        if let Ok(told) = &answer {
            self.note(*told);
        }
        answer
    }

    fn get_result(&mut self, action: &Digest) -> Result<Option<ActionResult>, CallFault> {
        self.caller
            .channel()
            .dial()
            .begin_call(0, self.pauses.take());
        let answer = hear_result(&mut self.caller, action);
        let asked = self.caller.retry_delay();
        self.pauses.heed(&answer, asked);
        self.follow_up(&answer);
        answer
    }

    fn find_missing(&mut self, digests: &[Digest]) -> Result<Items<Digest>, CallFault> {
        self.caller
            .channel()
            .dial()
            .begin_call(0, self.pauses.take());
        let answer = hear_missing(&mut self.caller, digests);
        let asked = self.caller.retry_delay();
        self.pauses.heed(&answer, asked);
        self.follow_up(&answer);
        answer
    }

    fn update(&mut self, blobs: &[NamedBlob]) -> Result<(), CallFault> {
        self.caller
            .channel()
            .dial()
            .begin_call(0, self.pauses.take());
        let answer = self.caller.hear_update(blobs);
        let asked = self.caller.retry_delay();
        self.pauses.heed(&answer, asked);
        self.follow_up(&answer);
        answer
    }

    fn read(&mut self, digests: &[Digest]) -> Result<Items<Bytes>, CallFault> {
        self.caller
            .channel()
            .dial()
            .begin_call(0, self.pauses.take());
        let answer = self.caller.hear_read(digests);
        let asked = self.caller.retry_delay();
        self.pauses.heed(&answer, asked);
        self.follow_up(&answer);
        answer
    }

    fn write_stream(&mut self, digest: &Digest, bytes: &[u8]) -> Result<(), CallFault> {
        self.caller
            .channel()
            .dial()
            .begin_call(bytes.len() as u64, self.pauses.take());
        let answer = self.caller.hear_write(digest, bytes);
        let asked = self.caller.retry_delay();
        self.pauses.heed(&answer, asked);
        self.follow_up(&answer);
        answer
    }

    fn read_stream(&mut self, digest: &Digest) -> Result<Bytes, CallFault> {
        self.caller
            .channel()
            .dial()
            .begin_call(digest.size, self.pauses.take());
        let answer = self.caller.hear_blob(digest);
        let asked = self.caller.retry_delay();
        self.pauses.heed(&answer, asked);
        self.follow_up(&answer);
        answer
    }

    fn execute(&mut self, action: &Digest, skip_cache: bool) -> Result<(), CallFault> {
        self.caller
            .channel()
            .dial()
            .begin_command(self.pauses.take());
        let answer = hear_execute(&mut self.caller, action, skip_cache);
        let asked = self.caller.retry_delay();
        self.pauses.heed(&answer, asked);
        self.follow_up(&answer);
        self.streaming = answer.is_ok();
        answer
    }

    fn wait(&mut self, name: &str) -> Result<(), CallFault> {
        self.caller
            .channel()
            .dial()
            .begin_command(self.pauses.take());
        let answer = self.caller.hear_wait(name);
        let asked = self.caller.retry_delay();
        self.pauses.heed(&answer, asked);
        self.follow_up(&answer);
        self.streaming = answer.is_ok();
        answer
    }

    fn next_operation(&mut self) -> Result<Operation, StateFault> {
        self.caller
            .channel()
            .dial()
            .begin_command(self.pauses.take());
        if !self.caller.is_streaming() {
            self.streaming = false;
            let answer = self.caller.count_fault::<Operation>(Err(CallFault::Cut));
            self.pauses.heed(&answer, None);
            return Err(StateFault::Stream(CallFault::Cut));
        }
        let answer = self.caller.hear_operation();
        let told = as_call(&answer);
        let asked = self.caller.retry_delay();
        self.pauses.heed(&told, asked);
        self.follow_up(&told);
        self.streaming = self.caller.is_streaming();
        answer
    }
}
