//! The farm as a client of itself: each call with its count of faults.

ghost use Rattle.std.specs.Prelude.{◌≡◌, None, true};
ghost use Rattle.std.specs.Option.{is_some};
ghost use Rattle.rx_world.specs.Toy.{toy_operation};
ghost use Rattle.rx_toyfarm.specs.Farms.{action_of, dialect_by};

use crate::farm::ToyFarm;
use rx_base::{Bytes, Digest, Items};
use rx_exec_messages::{Caller, Capabilities, NamedBlob, Operation, StateFault};
use rx_messages::ActionResult;
use rx_world::{CallFault, Contents, Toy};

impl<K: Contents> Caller<Toy<K>> for ToyFarm {
    ghost conversation = { λ f. None };

    ghost vouches = { λ f digest command outcome. ⊥ };

    ghost genuine = { λ f. ⊥ };

    ghost dialect = { λ f. dialect_by f.says };

    ghost running = { λ f. action_of f.begun };

    ghost streaming = { λ f. is_some f.execution ≡ true };

    ghost faults = { λ f. f.faults };

    fn capabilities(&mut self) -> Result<Capabilities, CallFault> {
        Ok(self.says)
    }

    fn get_result(&mut self, action: &Digest) -> Result<Option<ActionResult>, CallFault> {
        let answer = self.cached_result(action);
        self.count_fault(answer)
    }

    fn find_missing(&mut self, digests: &[Digest]) -> Result<Items<Digest>, CallFault> {
        match self.missing_of(digests) {
            Ok(missing) => Ok(missing),
            Err(_) => Err(CallFault::NoMemory),
        }
    }

    fn update(&mut self, blobs: &[NamedBlob]) -> Result<(), CallFault> {
        let answer = self.take_all(blobs);
        self.count_fault(answer)
    }

    fn read(&mut self, digests: &[Digest]) -> Result<Items<Bytes>, CallFault> {
        let answer = self.give_all(digests);
        self.count_fault(answer)
    }

    fn write_stream(&mut self, digest: &Digest, bytes: &[u8]) -> Result<(), CallFault> {
        let answer = self.take(digest, bytes);
        self.count_fault(answer)
    }

    fn read_stream(&mut self, digest: &Digest) -> Result<Bytes, CallFault> {
        let answer = self.give(digest);
        self.count_fault(answer)
    }

    fn execute(&mut self, action: &Digest, skip_cache: bool) -> Result<(), CallFault> {
        let answer = self.begin(action, skip_cache);
        self.count_fault(answer)
    }

    fn wait(&mut self, name: &str) -> Result<(), CallFault> {
        let answer = self.resume(name);
        self.count_fault(answer)
    }

    fn next_operation(&mut self) -> Result<Operation, StateFault> {
        match self.go_on() {
            Ok(operation) => Ok(operation),
            Err(fault) => {
                let _ = self.count_fault::<Operation>(Err(fault.call_fault()));
                Err(fault)
            }
        }
    }
}
