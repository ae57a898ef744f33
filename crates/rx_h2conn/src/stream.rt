//! What is known of a stream.

use crate::credit::WINDOW;
use crate::window::Window;

/// What the server may send on a stream at first: this side's SETTINGS_INITIAL_WINDOW_SIZE.
const STREAM_WINDOW: u32 = 1_048_576;

/// A stream that was opened.
#[derive(Clone, Copy, Debug, PartialEq, Eq)]
pub struct Stream {
    /// What may still be sent.
    pub send: Window,
    /// What the server may still send.
    pub receive: u32,
    /// Credit that the server wasn't told yet.
    pub owed: u32,
    /// Nothing more is sent.
    pub client_done: bool,
    /// `reset` was called on it.
    pub client_reset: bool,
    /// The server has ended or reset it.
    pub server_done: bool,
    /// The server has reset it.
    pub server_reset: bool,
}

/// A stream as it is opened. It is owed what makes its window as large as the connection's.
pub const OPENED: Stream = Stream {
    send: Window {
        ahead: 0,
        behind: 0,
    },
    receive: STREAM_WINDOW,
    owed: WINDOW - STREAM_WINDOW,
    client_done: false,
    client_reset: false,
    server_done: false,
    server_reset: false,
};
