//! Events of a call's stream, and the words that stand for their parts.

use rx_h2conn::ConnEvent;
use rx_hpack::Header;
use rx_rows::{RowFault, Turn};

/// Reads whether the server ended the stream.
pub(crate) fn read_last(turn: &mut Turn<'_, '_>) -> bool {
    match turn.read_word() {
        "last" => true,
        "more" => false,
        _ => {
            turn.refuse(RowFault::BadCall);
            false
        }
    }
}

/// A header list of the stream 1.
pub(crate) fn list_event(list: Vec<Header>, last: bool) -> ConnEvent {
    ConnEvent::Headers {
        stream: 1,
        list,
        last,
    }
}

/// Bytes of the stream 1.
pub(crate) fn bytes_event(bytes: Vec<u8>, last: bool) -> ConnEvent {
    ConnEvent::Bytes {
        stream: 1,
        bytes,
        last,
    }
}
