//! The client as an attempt on the farm calls it: each call by what it hears. It vouches and is genuine by what the bytes of its
//! dial's links meet.

ghost use Rattle.std.specs.Prelude.{◌≡◌, None, true};
ghost use Rattle.rx_grpc.specs.Begun.{action_of};
ghost use Rattle.rx_grpc.specs.Honest.{IsGenuineBy, VouchesBy};

use crate::caller::GrpcCaller;
use rx_base::{Bytes, Digest, Items};
use rx_exec_messages::{Caller, Capabilities, NamedBlob, Operation, StateFault};
use rx_messages::ActionResult;
use rx_world::{CallFault, Dial, World};

impl<W: World, D: Dial + Drop> Caller<W> for GrpcCaller<D> {
    ghost conversation = { λ c. None };

    ghost vouches = { VouchesBy D.rule W.blob W.operation };

    ghost genuine = { IsGenuineBy D.rule W.blob W.operation D.dialect };

    ghost dialect = { λ c. D.dialect };

    ghost running = { λ c. action_of W.operation c.begun };

    ghost streaming = { λ c. c.streaming ≡ true };

    ghost faults = { λ c. c.faults };

    fn capabilities(&mut self) -> Result<Capabilities, CallFault> {
        self.hear_capabilities()
    }

    fn get_result(&mut self, action: &Digest) -> Result<Option<ActionResult>, CallFault> {
        self.hear_result(action)
    }

    fn find_missing(&mut self, digests: &[Digest]) -> Result<Items<Digest>, CallFault> {
        self.hear_missing(digests)
    }

    fn update(&mut self, blobs: &[NamedBlob]) -> Result<(), CallFault> {
        self.hear_update(blobs)
    }

    fn read(&mut self, digests: &[Digest]) -> Result<Items<Bytes>, CallFault> {
        self.hear_read(digests)
    }

    fn write_stream(&mut self, digest: &Digest, bytes: &[u8]) -> Result<(), CallFault> {
        self.hear_write(digest, bytes)
    }

    fn read_stream(&mut self, digest: &Digest) -> Result<Bytes, CallFault> {
        self.hear_blob(digest)
    }

    fn execute(&mut self, action: &Digest, skip_cache: bool) -> Result<(), CallFault> {
        self.hear_execute(action, skip_cache)
    }

    fn wait(&mut self, name: &str) -> Result<(), CallFault> {
        self.hear_wait(name)
    }

    fn next_operation(&mut self) -> Result<Operation, StateFault> {
        self.hear_operation()
    }
}
