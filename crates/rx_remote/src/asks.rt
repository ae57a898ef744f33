//! What a remote attempt asks of a farm, and what it hears.

use rx_base::{Bytes, Digest, Items, Text};
use rx_blobs::BlobFault;
use rx_exec_messages::{Capabilities, Operation};
use rx_messages::ActionResult;
use rx_world::{CallFault, Decision, End, Outcome, RemoteCause};

/// What an attempt asks next, or how it ends.
#[derive(Debug, Drop)]
pub enum Ask {
    /// What the farm says of itself.
    Capabilities,
    /// The result that the farm's action cache has.
    GetResult,
    /// All blobs of the action in the farm's store. A fresh upload asks anew for each of them,
    /// whatever was known to be there.
    Upload { fresh: bool },
    /// The execution of the action. `skip_cache` asks the farm not to answer from its cache.
    Execute { skip_cache: bool },
    /// The next state of the execution.
    NextOperation,
    /// The states of the execution of this name, whose stream broke.
    Wait { name: Text },
    /// The bytes of these blobs of a result.
    Fetch { digests: Items<Digest> },
    /// Nothing more.
    End { end: End<Outcome, RemoteCause> },
}

/// What an attempt heard to its ask.
#[derive(Debug, Drop)]
pub enum Heard {
    /// What the farm says of itself.
    Told(Capabilities),
    /// What the action cache has.
    Cached(Option<ActionResult>),
    /// The blobs are stored. These were left out, since they were known to be there.
    Uploaded(Items<Digest>),
    /// An execution was begun, or is waited for.
    Begun,
    /// A state of the execution.
    Next(Operation),
    /// The bytes that were asked for, a text for each digest in their order.
    Fetched(Items<Bytes>),
    /// The call failed.
    Fault(CallFault),
    /// The execution is over, and failed with this status.
    Over(u32),
    /// The upload or the fetch failed.
    Blobs(BlobFault),
    /// The race of the request's attempts is decided. Nothing was asked.
    Stopped(Decision),
}
