//! Calls on a farm with their answers, as a client's conversation has them.

use crate::{Capabilities, Operation, StateFault};
use rx_base::{Bytes, Digest, Items, Text};
use rx_messages::ActionResult;
use rx_world::CallFault;

/// Bytes with the digest that they go by.
#[derive(Debug, Drop)]
pub struct NamedBlob {
    pub digest: Digest,
    pub bytes: Bytes,
}

/// One call on a farm: what was asked, and the answer.
#[derive(Debug, Drop)]
pub enum Exchange {
    Capabilities {
        answer: Result<Capabilities, CallFault>,
    },
    GetResult {
        action: Digest,
        answer: Result<Option<ActionResult>, CallFault>,
    },
    FindMissing {
        digests: Items<Digest>,
        answer: Result<Items<Digest>, CallFault>,
    },
    Update {
        blobs: Items<NamedBlob>,
        answer: Result<(), CallFault>,
    },
    Read {
        digests: Items<Digest>,
        answer: Result<Items<Bytes>, CallFault>,
    },
    WriteStream {
        digest: Digest,
        bytes: Bytes,
        answer: Result<(), CallFault>,
    },
    ReadStream {
        digest: Digest,
        answer: Result<Bytes, CallFault>,
    },
    Execute {
        action: Digest,
        skip_cache: bool,
        answer: Result<(), CallFault>,
    },
    Wait {
        name: Text,
        answer: Result<(), CallFault>,
    },
    NextOperation {
        answer: Result<Operation, StateFault>,
    },
}
