//! The client's side of an HTTP/2 connection (RFC 9113), without a socket.
#![tactic(auto)]

mod conn;
mod credit;
mod data;
mod ends;
mod event;
mod fault;
mod headers;
mod machine;
mod open;
mod output;
mod ping;
mod reader;
mod settings;
mod stream;
mod streams;
mod updates;
mod window;

pub use conn::Conn;
pub use event::ConnEvent;
pub use fault::ConnFault;
