//! A call whose stream was opened: what it has heard, what is left of its request, and what came last.

ghost use Rattle.std.specs.Prelude.{◌≡◌, false, IfOk, IfSome};
ghost use Rattle.percent_encoding.specs.Percent.{percent_decode};
ghost use Rattle.rx_grpc.specs.Conversation.{alive_of};
ghost use Rattle.rx_grpc.specs.Heard.{nothing};
ghost use Rattle.rx_grpc.specs.declared.came.Came.TheVariants.{Piece};

use crate::call::Call;
use crate::came::Came;
use crate::details::Details;
use crate::request::Request;
use rx_base::NoMemory;
use std::alloc::Global;

/// The most bytes that one call takes from its link.
const MOST_BYTES: usize = 268_435_456;

/// A call whose stream was opened.
#[derive(Drop)]
pub struct OpenCall {
    pub call: Call,
    pub request: Request,
    /// How many bytes it may take from its link yet.
    pub room: usize,
    /// What came last.
    pub came: Came,
}

impl OpenCall {
    /// A call that has heard nothing.
    pub fn new(alloc: Global, id: u32, request: Request) -> OpenCall
        ensures id { result.call.id ≡ id }
        ensures answers { result.call.answers ≡ nothing }
        ensures place { result.call.place ≡ 0 }
        ensures away { result.call.away ≡ false }
        ensures request { result.request ≡ request }
        ensures room { result.room ≡ 268435456 }
        ensures came { result.came ≡ Piece }
    {
        OpenCall {
            call: Call::new(alloc, id),
            request,
            room: MOST_BYTES,
            came: Came::Piece,
        }
    }

    /// Whether its link and connection can take another call.
    pub fn is_alive(&self) -> bool
        ensures { result ≡ alive_of self.now }
    {
        if self.came.is_piece() {
            !self.call.away
        } else {
            false
        }
    }

    /// The text that came with the status, where its escapes are bytes.
    pub fn status_text(&self, alloc: Global) -> Result<Vec<u8>, NoMemory>
        ensures { IfOk result (λ text.
            text.items ≡ percent_decode self.now.call.answers.status_text) }
    {
        self.call.answers.status_text(alloc)
    }

    /// The details that came with the status, where it isn't 0.
    pub fn details(&self, alloc: Global) -> Result<Details, NoMemory>
        ensures { IfOk result (λ details. details ≡ self.now.call.answers.details) }
    {
        self.call.answers.details(alloc)
    }

    /// Its stream, where one side of it is open yet.
    pub fn stream_left(&self) -> Option<u32>
        ensures { IfSome result (λ id. id ≡ self.now.call.id) }
    {
        self.call.stream_left(self.request.is_done())
    }
}
