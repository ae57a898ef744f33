//! The standard streams of the process, and connections over the sockets of this machine, as the
//! sources and sinks of `rx_world`. Each counts its faults, and tells nothing of its bytes, but for
//! what comes in by a reader, which tells what the reader tells.
#![tactic(auto)]

mod faults;
mod pieces;
mod sockets;
mod streams;

pub use faults::Faults;
pub use pieces::{print_some, read_some, write_some};
pub use sockets::{Socket, SocketEnd, SocketSink, SocketSource, ends_of};
pub use streams::{HostSink, HostSource};
