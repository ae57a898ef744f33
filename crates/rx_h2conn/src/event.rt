//! What a connection tells, and what waits to be told.

use rx_hpack::Header;
use std::marker::Model;

/// What the server did.
#[derive(Drop)]
pub enum ConnEvent {
    /// A header list of a stream: of an answer, an interim one, or trailers.
    Headers {
        stream: u32,
        list: Vec<Header>,
        /// The server ended the stream.
        last: bool,
    },
    /// Bytes of a stream. Their credit is owed to the server once this event was handed out.
    Bytes {
        stream: u32,
        bytes: Vec<u8>,
        /// The server ended the stream.
        last: bool,
    },
    /// The server gave the stream up, by an error code of RFC 9113 7.
    Reset {
        stream: u32,
        code: u32,
    },
    /// The server takes no stream past this one (RFC 9113 6.8).
    Gone {
        last: u32,
    },
}

/// An event that wasn't handed out yet, with the credit that is owed on its stream once it is.
#[derive(Drop)]
pub struct Waiting {
    pub event: ConnEvent,
    /// 0 is the connection.
    pub stream: u32,
    pub credit: u32,
}

impl Model for Waiting {
    ghost use Rattle.rx_h2conn.specs.Session.{Queued};

    ghost Value = { Queued };

    ghost use Rattle.rx_h2conn.specs.Event.{event_view};

    ghost view = { λ w. record {
      event = event_view w.event;
      stream = w.stream;
      credit = w.credit;
    } };
}
