//! A farm's client over a channel: what it keeps, and its count of faults. Its calls stand in files of their own.

ghost use Rattle.std.specs.Prelude.{◌≡◌, ◌≢◌, ◌<◌, ◌^◌, ◌≤◌, length, None, string_bytes, IfErr};
ghost use Rattle.rx_world.specs.declared.call_faults.CallFault.TheVariants.{NoMemory as starved};
ghost use Rattle.rx_world.specs.Causes.{Rose};
ghost use Rattle.rx_exec_messages.specs.Calls.{HasCallCause};
ghost use Rattle.rx_world.specs.Links.{SameRule};
ghost use Rattle.rx_grpc.specs.Caller.{hung_up, rested_by, resumed};
ghost use Rattle.rx_grpc.specs.Channel.{IsRuled};
ghost use Rattle.rx_grpc.specs.RetryDelay.{retry_delay_of};
ghost use Rattle.rx_grpc.specs.StatusText.{details_in, text_in};
ghost use Rattle.rx_grpc.specs.declared.caller.Begun.TheVariants.{Executed as executed};

use crate::channel::Channel;
use crate::resting::Resting;
use rand_chacha::ChaCha20Rng;
use rand_core::SeedableRng;
use rx_base::{Bytes, Digest, Text, digest_of};
use rx_world::{CallFault, Dial};
use std::alloc::Global;
use std::marker::Model;

/// What was begun last.
#[derive(Debug, Drop)]
pub enum Begun {
    /// An execution of this action.
    Executed(Digest),
    /// A wait for the execution of this name.
    Waited(Text),
}

/// A farm's client over gRPC.
#[derive(Drop)]
pub struct GrpcCaller<D: Dial + Drop> {
    pub(crate) alloc: Global,
    pub(crate) channel: Channel<D>,
    /// The instance of the farm; empty where it has but one.
    pub(crate) instance: Text,
    /// Draws the names of uploads.
    pub(crate) names: ChaCha20Rng,
    pub(crate) begun: Begun,
    /// The first message of the execution that goes on, until it is read.
    pub(crate) first: Option<Bytes>,
    /// Whether an execution goes on.
    pub(crate) streaming: bool,
    /// How often a call failed; it stops at the end of 64 bits.
    pub(crate) faults: u64,
}

impl<D: Dial + Drop> Model for GrpcCaller<D> {
    ghost use Rattle.rx_grpc.specs.Caller.{CallerOf};

    ghost Value = { CallerOf D D.L };

    ghost use Rattle.std.specs.Prelude.{◌≡◌, true};
    ghost use Rattle.rx_grpc.specs.Running.{IsRunning};
    ghost use Rattle.rx_grpc.specs.Streamed.{is_answering};

    ghost view = { λ c. record {
      channel = c.channel;
      instance = c.instance;
      begun = c.begun;
      first = c.first;
      streaming = c.streaming;
      faults = c.faults;
    } };

    ghost invariant = { λ c. c.streaming ≡ true → (is_answering c.channel.transport ≡ true)
        × IsRunning D.rule D.L.Link c.channel c.instance c.begun c.first };
}

impl<D: Dial + Drop> GrpcCaller<D> {
    /// A client that has called nothing, of the farm that the dial makes links to. `authority` is the farm's name as HTTP/2
    /// has it (`HOST:PORT`), and `instance` that of its instance. The names of uploads are drawn from `seed`, so two
    /// clients of one farm need two seeds.
    pub fn new(
        alloc: Global,
        dial: D,
        authority: Vec<u8>,
        instance: Text,
        seed: [u8; 32],
    ) -> GrpcCaller<D>
        requires { length authority.items < 2 ^ 32 }
        ensures dial { result.channel.dial ≡ dial }
        ensures transport { result.channel.transport ≡ None }
        ensures authority { result.channel.authority ≡ authority.items }
        ensures instance { result.instance ≡ instance }
        ensures faults { result.faults ≡ 0 }
    {
        GrpcCaller {
            alloc,
            channel: Channel::new(alloc, dial, authority),
            instance,
            names: ChaCha20Rng::from_seed(seed),
            begun: Begun::Executed(digest_of(&[])),
            first: None,
            streaming: false,
            faults: 0,
        }
    }

    /// How often a call failed.
    pub fn faults(&self) -> u64
        ensures { result ≡ self.now.faults }
    {
        self.faults
    }

    /// Whether an execution that was begun or waited for goes on.
    pub fn is_streaming(&self) -> bool
        ensures { result ≡ self.now.streaming }
    {
        self.streaming
    }

    /// What the farm said with the status of the last answer ("Status-Message"), where its escapes are bytes: why it refused, in
    /// words for people. It is empty where it said nothing.
    pub fn status_text(&self) -> &[u8]
        ensures { result.now ≡ text_in self.now.channel.transport }
    {
        self.channel.status_text()
    }

    /// How many milliseconds the farm asks to wait before the call is made again, by the details of the status of the last answer
    /// ("RetryInfo"): nanoseconds are rounded up, and a negative time is 0. `None` where it asked for nothing, and where what it said
    /// can't be read.
    pub fn retry_delay(&self) -> Option<u64>
        ensures { result ≡ retry_delay_of (details_in self.now.channel.transport) }
    {
        self.channel.retry_delay()
    }

    /// The channel.
    pub fn channel(&self) -> &Channel<D>
        ensures { result.now ≡ self.now.channel }
    {
        &self.channel
    }

    /// The instance of the farm; empty where it has but one.
    pub fn instance(&self) -> &Text
        ensures { result.now ≡ self.now.instance }
    {
        &self.instance
    }

    /// Closes the connection, if there is one; an execution that goes on is given up. The next call makes another connection.
    pub fn hang_up(&mut self)
        ensures { self.new ≡ hung_up self.old }
    {
        self.streaming = false;
        self.first = None;
        self.channel.hang_up();
    }

    /// Takes the connection out, for another client of the same farm, where another call can be made on it and no execution goes on;
    /// else it is closed, as `hang_up` does. The next call makes another connection.
    pub fn rest(&mut self) -> Option<Resting<D::L>>
        ensures rests { result ≡ rested_by self.old }
        ensures ruled { IsRuled (D.rule self.old.channel.dial) D.L.rule result }
        ensures left { self.new ≡ hung_up self.old }
    {
        let is_streaming = self.streaming;
        self.streaming = false;
        self.first = None;
        let resting = self.channel.rest();
        if is_streaming { None } else { resting }
    }

    /// The next call is made on this connection, unless the farm takes no more calls on it. An execution that goes on is given up.
    pub fn resume(&mut self, resting: Resting<D::L>)
        requires { SameRule (D.rule self.old.channel.dial) (D.L.rule resting.link) }
        ensures { self.new ≡ resumed self.old resting }
    {
        self.streaming = false;
        self.first = None;
        self.channel.resume(resting);
    }

    /// Counts the fault of an answer, unless it is want of memory.
    pub fn count_fault<T: Drop>(&mut self, answer: Result<T, CallFault>) -> Result<T, CallFault>
        ensures same { result ≡ answer }
        ensures cause { HasCallCause self.old.faults self.new.faults result }
        ensures rest { self.new ≡ record self.old { faults = self.new.faults } }
    {
        match answer {
            Ok(given) => Ok(given),
            Err(fault) => {
                self.count(fault);
                Err(fault)
            }
        }
    }

    /// Counts a fault, unless it is want of memory.
    fn count(&mut self, fault: CallFault)
        ensures later { self.old.faults ≤ self.new.faults }
        ensures rose { fault ≢ starved → Rose self.old.faults self.new.faults }
        ensures rest { self.new ≡ record self.old { faults = self.new.faults } }
    {
        if fault != CallFault::NoMemory {
            self.faults = self.faults.saturating_add(1);
        }
    }
}
