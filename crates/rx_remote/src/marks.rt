//! What a history of asks and answers shows, as far as the next ask depends on it.

ghost use Rattle.std.specs.Prelude.{◌≡◌, OnOk};
ghost use Rattle.rx_remote.specs.Faults.{with_blobs, with_fault};
ghost use Rattle.rx_remote.specs.Marks.{is_cached, marks_since, with_name};

use crate::Phase;
use crate::retries::{NOT_FOUND, is_no_memory};
use rx_base::{Items, NoMemory, Text};
use rx_blobs::BlobFault;
use rx_results::FarmResult;
use rx_world::{CallFault, Origin};
use std::alloc::{AllocError, Global};

/// A result that was heard, and where it comes from.
#[derive(Drop)]
pub struct Found {
    pub reading: FarmResult,
    pub origin: Origin,
}

/// What a history shows.
#[derive(Drop)]
pub struct Marks {
    /// Its faults, in their order.
    pub faults: Items<CallFault>,
    /// The last name that was heard since the last execute.
    pub name: Text,
    /// Whether a result of the cache counted as a miss, since a blob of it is gone.
    pub missed: bool,
    /// How many states of executions were heard that weren't done.
    pub waits: u32,
    /// The last result that was heard.
    pub found: Option<Found>,
}

impl Marks {
    /// What a history shows, once an ask of this phase was made.
    pub(crate) fn since(self, alloc: Global, phase: Phase) -> Marks
        ensures { result ≡ marks_since self phase }
    {
        let mut marks = self;
        if let Phase::Execute = phase {
            marks.name = Text::new(alloc);
        }
        marks
    }

    /// The same with the name that was heard, unless it is empty.
    pub(crate) fn with_name(self, name: Text) -> Marks
        ensures { result ≡ with_name self name }
    {
        let mut marks = self;
        if !name.is_empty() {
            marks.name = name;
        }
        marks
    }

    /// Whether the last result that was heard comes from the farm's action cache.
    pub(crate) fn is_cached(&self) -> bool
        ensures { result ≡ is_cached self.now.found }
    {
        match &self.found {
            None => false,
            Some(found) => found.origin == Origin::Cache,
        }
    }
}

/// One fault more. Want of memory is none.
pub(crate) fn add_fault(faults: &mut Items<CallFault>, fault: CallFault) -> Result<(), NoMemory>
    ensures { OnOk result (faults.new ≡ with_fault faults.old fault) }
{
    if is_no_memory(fault) {
        return Ok(());
    }
    match faults.push(fault) {
        Ok(()) => Ok(()),
        Err(_) => Err(AllocError),
    }
}

/// One fault more, where blobs failed by a call. A blob that is missing was refused as not found.
pub(crate) fn add_blobs(faults: &mut Items<CallFault>, fault: &BlobFault) -> Result<(), NoMemory>
    ensures { OnOk result (faults.new ≡ with_blobs faults.old fault.now) }
{
    match fault {
        BlobFault::Call(fault) => add_fault(faults, *fault),
        BlobFault::Missing(digest) => add_fault(faults, CallFault::BlobRefused(*digest, NOT_FOUND)),
        BlobFault::Refused(digest, code) => {
            add_fault(faults, CallFault::BlobRefused(*digest, *code))
        }
        BlobFault::BadBlob {
            expected: _,
            got: _,
        } => Ok(()),
        BlobFault::InputChanged(_) => Ok(()),
        BlobFault::SourceFault { path: _ } => Ok(()),
        BlobFault::NoMemory => Ok(()),
    }
}
