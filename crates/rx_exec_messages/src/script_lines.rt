//! The lines of a script, and what is kept of the calls that they answered.

use crate::{Capabilities, NamedBlob, Operation};
use rx_base::{Digest, Items, Text};
use rx_messages::ActionResult;
use rx_world::CallFault;
use std::collections::BTreeSet;

/// What a farm answers to one call.
#[derive(Drop)]
pub enum ScriptLine {
    /// To `capabilities`: this.
    Capabilities(Capabilities),
    /// To `get_result`: this result, or none.
    Cached(Option<ActionResult>),
    /// To `find_missing`: of the digests asked, those that stand here.
    Lacks(BTreeSet<Digest>),
    /// To `update` and `write_stream`: that all is stored.
    Stored,
    /// To `read` and `read_stream`: the bytes of these. The call is answered BadMessage(0) unless their
    /// digests are just those that were asked for, in this order; the bytes may have others.
    Blobs(Items<NamedBlob>),
    /// To `execute` of this action: that it begins.
    Executes(Digest),
    /// To `wait` for the execution of this name: that it goes on.
    Resumes(Text),
    /// To `next_operation`: this state.
    Operation(Operation),
    /// To `next_operation`: that the execution is over, and failed with this status.
    Over(u32),
    /// To any call: this fault. A refusal of a blob fits the calls that ask for that blob.
    Fault(CallFault),
}

/// A call as a script's log has it: its name, and which digests or which name it was about.
#[derive(Debug, Drop)]
pub enum Ask {
    Capabilities,
    GetResult(Digest),
    FindMissing(Items<Digest>),
    Update(Items<Digest>),
    Read(Items<Digest>),
    WriteStream(Digest),
    ReadStream(Digest),
    Execute { action: Digest, skip_cache: bool },
    Wait(Text),
    NextOperation,
}

/// The execution that was begun or waited for last.
#[derive(Debug, Drop)]
pub(crate) enum Running {
    /// It was begun, for this action.
    Action(Digest),
    /// It was waited for, by this name.
    Name(Text),
}
