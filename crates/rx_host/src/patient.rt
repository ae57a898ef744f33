//! What goes out to a client, which may take its time: a long piece is written by a thread of its own, so that nothing else
//! waits for the reader.

ghost use Rattle.std.specs.Prelude.{◌≡◌, None};
ghost use Rattle.rx_host.specs.Clients.{Direction};

use crate::children::Children;
use crate::hands::Hands;
use crate::tells::tell;
use rx_streams::SocketSink;
use rx_world::{Failed, Sink};
use std::marker::Model;
use std::{io, thread};

/// What the buffers of a connection on this machine take at once, if nothing was written before.
const SHORT: usize = 16_384;

/// What goes out over a connection. A long piece is taken whole, and written while the caller goes on: whether it arrives
/// isn't told. Whoever ends the process waits for these as for programs.
#[derive(Drop)]
pub struct PatientSink<H> {
    rt: HostRuntime,
    hands: H,
    /// Which client of its listener it is.
    client: u64,
    sink: SocketSink,
    children: Children,
}

impl<H> Model for PatientSink<H> {
    ghost Value = { Direction };

    ghost view = { λ s. record { client = s.client; faults = s.sink } };
}

impl<H: Hands> PatientSink<H> {
    /// What goes out over this connection of a client.
    pub fn new(
        rt: HostRuntime,
        hands: H,
        client: u64,
        sink: SocketSink,
        children: Children,
    ) -> PatientSink<H>
        ensures { result ≡ record { client = client; faults = sink } }
    {
        PatientSink {
            rt,
            hands,
            client,
            sink,
            children,
        }
    }

    /// Closes this direction, once what was taken is written. What is told of it stays.
    pub fn close(self) -> PatientSink<H>
        ensures { result ≡ self }
    {
        PatientSink {
            rt: self.rt,
            hands: self.hands,
            client: self.client,
            sink: self.sink.close(),
            children: self.children,
        }
    }

    /// Has a thread write a piece. Where none can be started, it is written here.
    fn hand_over(&self, piece: &[u8]) -> io::Result<()> {
        let rt = self.rt;
        let bytes = Vec::from_slice(rt.alloc(), piece)?;
        let sink = self.sink.share()?;
        let children = self.children.share()?;
        children.begin();
        let writing = move || write_out(rt, sink, bytes, children);
        if let Err(refused) = thread::spawn(&self.hands, writing) {
            (refused.value)();
        }
        Ok(())
    }
}

/// Writes a piece to its end, or tells why it couldn't be.
fn write_out(rt: HostRuntime, sink: SocketSink, bytes: Vec<u8>, children: Children) {
    let mut sink = sink;
    if let Err(error) = sink.write_all(&bytes) {
        tell(&rt, "write", "a reply", &error);
    }
    children.end();
}

impl<H: Hands> Sink for PatientSink<H> {
    ghost taken = { λ s. None };

    ghost faults = { λ s. s.faults };

    fn write(&mut self, piece: &[u8]) -> Result<usize, Failed> {
        if piece.len() > SHORT && self.hand_over(piece).is_ok() {
            return Ok(piece.len());
        }
        self.sink.write(piece)
    }
}
