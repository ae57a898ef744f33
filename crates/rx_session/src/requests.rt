//! What a client asks for, in the words that it sent, and its payload.

ghost use Rattle.std.specs.Prelude.{◌≡◌, ℕ, List, IfErr, IfOk, Ok};
ghost use Rattle.rx_session.specs.Bad.{Decodes};
ghost use Rattle.rx_session.specs.Frames.{offset_of, payload_request};
ghost use Rattle.rx_session.specs.RequestMessages.{IsServed, request_payload};
ghost use Rattle.rx_session.specs.Streams.{IsNoCut};

use crate::bad::{BadReason, SessionFault, refuse};
use crate::headers::HEADER_LEN;
use crate::raw_request::RawRequest;
use crate::rules::request_by;
use crate::written_requests::request_message;
use rx_base::{Items, NoMemory, Text};
use rx_codec::{Message, MessageFault};
use rx_wire::WireFault;
use rx_world::{Kind, Pair, Strategy};
use std::alloc::Global;

/// A command with what it may see and what it is to write. Every path is kept as the text that was
/// sent; `jobs` reads them.
#[derive(Debug, Drop)]
pub struct Request {
    /// The served root.
    pub root: Text,
    /// The program and its arguments: one at least, the first not empty.
    pub words: Items<Text>,
    /// The whole environment: distinct names, none empty or with `=`.
    pub environment: Items<Pair>,
    /// Where the command runs, below the root; empty for the root.
    pub working_directory: Text,
    pub strategy: Strategy,
    pub kind: Kind,
    /// Paths that the command may read, relative to the root, like those of the toolchain.
    pub inputs: Items<Text>,
    pub toolchain_inputs: Items<Text>,
    /// Paths that it is to write: relative to the root, below the working directory.
    pub outputs: Items<Text>,
    /// What the farm is to choose a machine by.
    pub platform: Items<Pair>,
    /// Whether a result of the farm's action cache will do.
    pub accept_cached: bool,
    /// Whether the client may cancel: it sends a Cancel frame, or closes its end.
    pub watch: bool,
    /// How long the command may run remotely, in seconds; 0 says nothing.
    pub timeout_seconds: u32,
    /// Whether the client runs a compile step itself that this proxy can't take: the reply is then
    /// `InPlace`.
    pub in_place: bool,
}

impl Request {
    /// The payload of the request's frame: its message, of version 1.
    pub fn encode(&self, alloc: Global) -> Result<Vec<u8>, NoMemory>
        ensures payload { IfOk result (λ payload. payload.items ≡ request_payload self.now) }
        // It is read again by a proxy that serves its root, where its fields meet their rules.
        ensures again { IfOk result (λ payload. (root : List ℕ) → IsServed root self.now →
            payload_request root payload.items ≡ Ok self.now) }
    {
        let message = request_message(alloc, self)?;
        message.encode(alloc)
    }

    /// The request in a payload, of the served root. Offsets count from the first byte of the
    /// payload's frame, whose header has five bytes.
    #[tactic(auto, unfolding(crate::specs::Frames::payload_request, crate::specs::Messages::raw_request_of))]
    pub fn decode(alloc: Global, payload: &[u8], root: &str) -> Result<Request, SessionFault>
        ensures request { Decodes (λ request. request) result
            (payload_request root.now payload.now) }
        // The payload alone is judged: no frame is cut short, and no source fails.
        ensures other { IfErr result IsNoCut }
    {
        match RawRequest::decode(alloc, payload) {
            Ok(raw) => request_by(alloc, root, raw),
            Err(MessageFault::Wire(fault)) => {
                refuse(
                    BadReason::BadMessage,
                    (HEADER_LEN as u64).saturating_add(offset_of(fault)),
                )
            }
            Err(MessageFault::NoMemory) => Err(SessionFault::NoMemory),
            Err(_) => refuse(BadReason::BadMessage, HEADER_LEN as u64),
        }
    }
}

/// The offset that a refusal names.
fn offset_of(fault: WireFault) -> u64
    ensures { result ≡ offset_of fault }
{
    let at = match fault {
        WireFault::Truncated(at) => at,
        WireFault::VarintTooLong(at) => at,
        WireFault::BadType(at) => at,
        WireFault::ZeroField(at) => at,
        WireFault::BadUtf8(at) => at,
    };
    at as u64
}
