//! Calls with their answers, as a script's conversation keeps them: for contracts alone.

use crate::trace::Trace;
use crate::{Capabilities, NamedBlob, Operation, StateFault};
use rx_base::{Bytes, Digest, Items};
use rx_messages::ActionResult;
use rx_world::CallFault;
use std::marker::Model;
use std::snapshot::Snapshot;

/// One call with its answer, of which nothing is copied: an [`Exchange`](crate::Exchange) but for
/// the memory that it takes.
#[derive(Drop)]
pub(crate) enum Call {
    Capabilities {
        answer: Snapshot<Result<Capabilities, CallFault>>,
    },
    GetResult {
        action: Digest,
        answer: Snapshot<Result<Option<ActionResult>, CallFault>>,
    },
    FindMissing {
        digests: Trace<Digest>,
        answer: Snapshot<Result<Items<Digest>, CallFault>>,
    },
    Update {
        blobs: Trace<NamedBlob>,
        answer: Snapshot<Result<(), CallFault>>,
    },
    Read {
        digests: Trace<Digest>,
        answer: Snapshot<Result<Items<Bytes>, CallFault>>,
    },
    WriteStream {
        digest: Digest,
        bytes: Trace<u8>,
        answer: Snapshot<Result<(), CallFault>>,
    },
    ReadStream {
        digest: Digest,
        answer: Snapshot<Result<Bytes, CallFault>>,
    },
    Execute {
        action: Digest,
        skip_cache: bool,
        answer: Snapshot<Result<(), CallFault>>,
    },
    Wait {
        name: Trace<u8>,
        answer: Snapshot<Result<(), CallFault>>,
    },
    NextOperation {
        answer: Snapshot<Result<Operation, StateFault>>,
    },
}

/// A call with its answer, seen as the exchange.
#[derive(Drop)]
pub(crate) struct Told {
    pub(crate) call: Call,
}

impl Model for Told {
    ghost use Rattle.rx_exec_messages.specs.Tellings.{exchange_of};
    ghost use Rattle.rx_exec_messages.specs.declared.exchanges.Exchange.{Exchange};

    ghost Value = { Exchange };

    ghost view = { λ t. exchange_of t.call };
}
