//! What the farm keeps, and its count of faults. Its calls stand in files of their own.

ghost use Rattle.std.specs.Prelude.{◌≡◌, None};
ghost use Rattle.std.specs.Option.{is_some};
ghost use Rattle.rx_exec_messages.specs.Calls.{HasCallCause};

use crate::execution::{Begun, Execution, Mishap};
use crate::results::Kept;
use crate::store::Store;
use rx_base::{Digest, digest_of};
use rx_exec_messages::Capabilities;
use rx_world::CallFault;
use std::alloc::Global;
use std::collections::BTreeMap;

/// A farm in memory, which is its own client. It keeps each blob that it is given, under the digest of its bytes; runs
/// an action by the tool of the Toy world, at once and on the tree that its blobs tell; keeps the result, unless the
/// Action forbids it (`do_not_cache`); and names the operation of an action `HASH/SIZE`, by the digest of the Action.
///
/// It tells no conversation, vouches for no outcome and doesn't claim to be genuine.
///
/// A call that isn't served is a counted fault, as on a farm over gRPC: a blob under a digest that isn't that of its
/// bytes is refused with 3 (INVALID_ARGUMENT), a blob that isn't there with 5 (NOT_FOUND), `execute` with 9
/// (FAILED_PRECONDITION) where a blob of the action isn't there and with 3 where one isn't what it has to be, and
/// `wait` with 5 where no action of that name was run.
#[derive(Drop)]
pub struct ToyFarm {
    pub(crate) alloc: Global,
    pub(crate) says: Capabilities,
    pub(crate) store: Store,
    pub(crate) results: BTreeMap<Digest, Kept>,
    pub(crate) begun: Begun,
    pub(crate) execution: Option<Execution>,
    pub(crate) mishap: Option<Mishap>,
    pub(crate) faults: u64,
}

impl ToyFarm {
    /// A farm without blobs and results, which says this of itself. Where its highest version is 2.0 it reads the
    /// outputs of a Command in `output_files`, and else in `output_paths`.
    pub fn new(alloc: Global, says: Capabilities) -> ToyFarm
        ensures says { result.says ≡ says }
        ensures execution { result.execution ≡ None }
        ensures faults { result.faults ≡ 0 }
    {
        ToyFarm {
            alloc,
            says,
            store: Store::new(alloc),
            results: BTreeMap::new(alloc),
            begun: Begun::Executed(digest_of(&[])),
            execution: None,
            mishap: None,
            faults: 0,
        }
    }

    /// How often a call failed; it stops at the end of 64 bits.
    pub fn faults(&self) -> u64
        ensures { result ≡ self.now.faults }
    {
        self.faults
    }

    /// Whether an execution that was begun or waited for goes on.
    pub fn is_streaming(&self) -> bool
        ensures { result ≡ is_some self.now.execution }
    {
        self.execution.is_some()
    }

    /// Has a mishap befall the next execution: its action isn't run, and it is over with this status, as where its worker
    /// is lost.
    pub fn fail_next(&mut self, code: u32)
        ensures { self.new ≡ record self.old { mishap = self.new.mishap } }
    {
        self.mishap = Some(Mishap {
            code,
            loses_blobs: false,
        });
    }

    /// The same, and by then the farm has lost each of its blobs.
    pub fn lose_next(&mut self, code: u32)
        ensures { self.new ≡ record self.old { mishap = self.new.mishap } }
    {
        self.mishap = Some(Mishap {
            code,
            loses_blobs: true,
        });
    }

    /// Counts the fault of an answer, unless it is want of memory.
    pub(crate) fn count_fault<T: Drop>(
        &mut self,
        answer: Result<T, CallFault>,
    ) -> Result<T, CallFault>
        ensures same { result ≡ answer }
        ensures cause { HasCallCause self.old.faults self.new.faults result }
        ensures rest { self.new ≡ record self.old { faults = self.new.faults } }
    {
        match answer {
            Ok(given) => Ok(given),
            Err(fault) => {
                if fault != CallFault::NoMemory {
                    self.faults = self.faults.saturating_add(1);
                }
                Err(fault)
            }
        }
    }
}
