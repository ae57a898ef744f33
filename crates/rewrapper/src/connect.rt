//! Connections to a proxy on this machine.

ghost use Rattle.std.specs.Prelude.{◌≡◌, IfOk, None};

use rx_client::Connect;
use rx_streams::{Faults, Socket, SocketSink, SocketSource, ends_of};
use rx_world::Failed;
use rx_wrap::Address;
use std::alloc::{AllocError, Global};
use std::io;
use std::io::Eprint;
use std::net::{Net, TcpStream};

/// Connects to Unix sockets and to ports of 127.0.0.1. Nothing is told of connections. There is no
/// limit of time: a command may run for as long as it needs, and a proxy that ends closes its
/// connections. Both directions stay open until the connection is handed back, since the end of what
/// comes from here cancels the session.
#[derive(Drop)]
pub(crate) struct HostConnect<R> {
    rt: R,
    has_connected: bool,
    /// Why the first connection couldn't be made, or that one failed.
    cause: Option<String>,
    faults: Faults,
}

impl<R> HostConnect<R> {
    pub(crate) fn new(rt: R) -> HostConnect<R> {
        HostConnect {
            rt,
            has_connected: false,
            cause: None,
            faults: Faults::new(),
        }
    }
}

impl<R: Eprint> HostConnect<R> {
    /// Tells why there was no conversation, on standard error.
    pub(crate) fn tell(&self) {
        if let Some(cause) = &self.cause {
            let _ = eprintln!(self.rt; "rewrapper: {cause}");
        }
    }
}

/// The two directions of a new connection.
fn connect_to<R: Net<Stream = TcpStream>>(
    rt: &R,
    address: &Address,
) -> io::Result<(SocketSource, SocketSink)>
    ensures { IfOk result (λ ends. (ends.0 ≡ 0) × (ends.1 ≡ 0)) }
{
    let socket = match address {
        Address::Unix(path) => Socket::connect_file(rt, path.as_str())?,
        Address::Port(port) => Socket::connect_port(rt, *port)?,
    };
    ends_of(socket)
}

/// Why there is no connection, in words.
fn cause_of(alloc: Global, address: &Address, error: &io::Error) -> Result<String, AllocError> {
    match address {
        Address::Unix(path) => {
            let path = path.as_str();
            format!(in alloc; "unix://{path}: {error}")
        }
        Address::Port(port) => format!(in alloc; "127.0.0.1:{port}: {error}"),
    }
}

impl<R: Net<Stream = TcpStream> + AllocGlobal> Connect for HostConnect<R> {
    type In = SocketSource;

    type Out = SocketSink;

    ghost coming = { λ c. None };

    ghost back = { λ c. None };

    ghost called = { λ c. None };

    ghost faults = { λ c. c.faults.count };

    fn connect(&mut self, address: &Address) -> Result<(SocketSource, SocketSink), Failed> {
        match connect_to(&self.rt, address) {
            Ok(ends) => {
                self.has_connected = true;
                Ok(ends)
            }
            Err(error) => {
                if !self.has_connected {
                    self.cause = cause_of(self.rt.alloc(), address, &error).ok();
                }
                Err(self.faults.failed(error))
            }
        }
    }

    fn done(&mut self, input: SocketSource, output: SocketSink) {
        if input.has_failed() || output.has_failed() {
            self.cause = String::from_str(self.rt.alloc(), "the connection failed").ok();
            self.faults.raise();
        }
    }
}
