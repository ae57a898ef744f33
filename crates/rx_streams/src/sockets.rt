//! Connections between a client and a proxy: streams over a Unix socket or over TCP of this machine. Nothing is told of their bytes.

ghost use Rattle.std.specs.Prelude.{◌≡◌, ◌<◌, ◌↔◌, ℕ, IfOk, IsTrue, None, []};
ghost use Rattle.std.specs.Io.{ReadsAtMost, WritesAtMost};

use crate::faults::Faults;
use crate::pieces::{read_some, write_some};
use rx_world::{Failed, Sink, Source};
use std::io;
use std::io::{Error, ErrorKind, Write};
use std::marker::Model;
use std::net::{Ipv4Addr, Net, Shutdown, SocketAddr, TcpStream};
use std::os::unix::net::UnixStream;
use std::time::Duration;

/// A stream over either kind of socket.
#[derive(Debug, Drop)]
pub enum Socket {
    Unix { stream: UnixStream },
    Tcp { stream: TcpStream },
}

impl Socket {
    /// A connection to the socket of a file.
    pub fn connect_file(net: &impl Net, path: &str) -> io::Result<Socket> {
        Ok(Socket::Unix {
            stream: UnixStream::connect(net, path)?,
        })
    }

    /// A connection to a port of 127.0.0.1.
    pub fn connect_port<R: Net<Stream = TcpStream>>(net: &R, port: u16) -> io::Result<Socket> {
        let address = SocketAddr::from((Ipv4Addr::LOCALHOST, port));
        Socket::tcp(TcpStream::connect(net, address)?)
    }

    /// A stream over TCP. What is written leaves at once.
    pub fn tcp(stream: TcpStream) -> io::Result<Socket> {
        stream.set_nodelay(true)?;
        Ok(Socket::Tcp { stream })
    }

    /// A second handle of the same stream.
    fn try_clone(&self) -> io::Result<Socket> {
        match self {
            Socket::Unix { stream } => Ok(Socket::Unix {
                stream: stream.try_clone()?,
            }),
            Socket::Tcp { stream } => Ok(Socket::Tcp {
                stream: stream.try_clone()?,
            }),
        }
    }

    /// How long the other side may send nothing while bytes are awaited, or take nothing. Without
    /// it there is no end to that.
    pub fn limit_silence(&self, limit: Duration) -> io::Result<()> {
        let limit = Some(limit);
        match self {
            Socket::Unix { stream } => {
                stream.set_read_timeout(limit)?;
                stream.set_write_timeout(limit)
            }
            Socket::Tcp { stream } => {
                stream.set_read_timeout(limit)?;
                stream.set_write_timeout(limit)
            }
        }
    }

    /// Lets the other side send nothing for as long as it takes, while bytes are awaited by any handle
    /// of the stream.
    fn allow_silence(&self) -> io::Result<()> {
        match self {
            Socket::Unix { stream } => stream.set_read_timeout(None),
            Socket::Tcp { stream } => stream.set_read_timeout(None),
        }
    }

    /// Closes the receiving side of all handles of the stream.
    fn end_receiving(&self) -> io::Result<()> {
        match self {
            Socket::Unix { stream } => stream.shutdown(Shutdown::Read),
            Socket::Tcp { stream } => stream.shutdown(Shutdown::Read),
        }
    }

    fn read(&mut self, into: &mut [u8]) -> io::Result<usize>
        ensures { ReadsAtMost result into.new }
    {
        match self {
            Socket::Unix { stream } => read_some(stream, into),
            Socket::Tcp { stream } => read_some(stream, into),
        }
    }

    /// Takes something of a piece that has something.
    fn write(&mut self, piece: &[u8]) -> io::Result<usize>
        ensures bound { WritesAtMost result piece.now }
        ensures some { IfOk result (λ count. count ≡ 0 → piece.now ≡ []) }
    {
        match self {
            Socket::Unix { stream } => write_some(stream, piece),
            Socket::Tcp { stream } => write_some(stream, piece),
        }
    }

    /// Takes all of a piece.
    fn write_all(&mut self, piece: &[u8]) -> io::Result<()> {
        match self {
            Socket::Unix { stream } => stream.write_all(piece),
            Socket::Tcp { stream } => stream.write_all(piece),
        }
    }
}

/// What comes in over a connection, until it is closed here.
#[derive(Debug, Drop)]
pub struct SocketSource {
    socket: Option<Socket>,
    faults: Faults,
}

impl Model for SocketSource {
    ghost Value = { ℕ };

    ghost view = { λ s. s.faults.count };
}

/// Another handle of what comes in over a connection, for whoever doesn't read it. The connection stays
/// open as long as this is there.
#[derive(Debug, Drop)]
pub struct SocketEnd {
    socket: Socket,
}

/// What goes out over a connection, until it is closed here.
#[derive(Debug, Drop)]
pub struct SocketSink {
    socket: Option<Socket>,
    faults: Faults,
}

impl Model for SocketSink {
    ghost Value = { ℕ };

    ghost view = { λ s. s.faults.count };
}

/// The two directions of a connection.
pub fn ends_of(socket: Socket) -> io::Result<(SocketSource, SocketSink)>
    ensures { IfOk result (λ ends. (ends.0 ≡ 0) × (ends.1 ≡ 0)) }
{
    let other = socket.try_clone()?;
    let source = SocketSource {
        socket: Some(socket),
        faults: Faults::new(),
    };
    let sink = SocketSink {
        socket: Some(other),
        faults: Faults::new(),
    };
    Ok((source, sink))
}

fn closed() -> Error {
    Error::from(ErrorKind::NotConnected)
}

impl SocketSource {
    /// Another handle of this direction.
    pub fn share_end(&self) -> io::Result<SocketEnd> {
        match &self.socket {
            Some(socket) => Ok(SocketEnd {
                socket: socket.try_clone()?,
            }),
            None => Err(closed()),
        }
    }

    /// Whether a call failed.
    pub fn has_failed(&self) -> bool
        ensures { IsTrue result ↔ (0 < self.now) }
    {
        self.faults.count > 0
    }

    /// Closes this direction. What is told of it stays.
    pub fn close(self) -> SocketSource
        ensures { result ≡ self }
    {
        SocketSource {
            socket: None,
            faults: self.faults,
        }
    }
}

impl SocketEnd {
    /// Lets the other side send nothing for as long as it takes, while bytes are awaited. Where that fails, a
    /// long silence is still a fault of the read.
    pub fn allow_silence(&self) {
        let _ = self.socket.allow_silence();
    }

    /// Has a read that waits end at once, and each later one: nothing more comes in. Where that fails the
    /// connection is lost, which ends the read too.
    pub fn end_receiving(&self) {
        let _ = self.socket.end_receiving();
    }
}

impl SocketSink {
    /// Whether a call failed.
    pub fn has_failed(&self) -> bool
        ensures { IsTrue result ↔ (0 < self.now) }
    {
        self.faults.count > 0
    }

    /// Another handle of this direction, which has no faults.
    pub fn share(&self) -> io::Result<SocketSink>
        ensures { IfOk result (λ sink. sink ≡ 0) }
    {
        let socket = match &self.socket {
            Some(socket) => socket.try_clone()?,
            None => return Err(closed()),
        };
        Ok(SocketSink {
            socket: Some(socket),
            faults: Faults::new(),
        })
    }

    /// Writes all of a piece, and waits for it. A failure is told, and not counted.
    pub fn write_all(&mut self, piece: &[u8]) -> io::Result<()>
        ensures { self.new ≡ self.old }
    {
        match &mut self.socket {
            Some(socket) => socket.write_all(piece),
            None => Err(closed()),
        }
    }

    /// Closes this direction. What is told of it stays.
    pub fn close(self) -> SocketSink
        ensures { result ≡ self }
    {
        SocketSink {
            socket: None,
            faults: self.faults,
        }
    }
}

impl Source for SocketSource {
    ghost left = { λ s. None };

    ghost faults = { λ s. s };

    fn read(&mut self, into: &mut [u8]) -> Result<usize, Failed> {
        let read = match &mut self.socket {
            Some(socket) => socket.read(into),
            None => Err(closed()),
        };
        match read {
            Ok(count) => Ok(count),
            Err(error) => Err(self.faults.failed(error)),
        }
    }
}

impl Sink for SocketSink {
    ghost taken = { λ s. None };

    ghost faults = { λ s. s };

    fn write(&mut self, piece: &[u8]) -> Result<usize, Failed> {
        let written = match &mut self.socket {
            Some(socket) => socket.write(piece),
            None => Err(closed()),
        };
        match written {
            Ok(count) => Ok(count),
            Err(error) => Err(self.faults.failed(error)),
        }
    }
}
