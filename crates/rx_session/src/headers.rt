//! The header of a frame: its kind in one byte, and the payload's length in four, the highest
//! first.

/// The bytes of a header.
pub(crate) const HEADER_LEN: usize = 5;

/// The kind of a frame that is a request.
pub(crate) const REQUEST_KIND: u8 = 1;

/// The kind of a frame that is a reply.
pub(crate) const REPLY_KIND: u8 = 2;

/// The kind of a frame that asks the proxy to end.
pub(crate) const SHUTDOWN_KIND: u8 = 4;

/// What the header of a client's frame tells.
#[derive(Clone, Copy, Debug, PartialEq, Eq)]
pub(crate) enum Head {
    /// A request, with so many bytes of payload.
    Request(usize),
    /// That the proxy is to end, with so many bytes of payload. It may have none.
    Shutdown(usize),
}
