//! What comes in from a client, whose request has to come within a time.

ghost use Rattle.std.specs.Prelude.{◌≡◌, ◌+◌, None};
ghost use Rattle.rx_host.specs.Clients.{Direction};

use crate::halting::Halting;
use crate::tells::tell;
use rx_streams::{Faults, SocketSource};
use rx_world::{Failed, Source};
use std::io;
use std::io::{Eprint, Error, ErrorKind};
use std::marker::Model;
use std::time::{Clock, Duration, Instant};

/// How long a request may take to come whole, from when its session began to read. A session holds one of the few threads that
/// serve, and a client that sends a byte now and then would hold it for good. The time is that for which a client may send nothing:
/// a read that began before its end waits for as long at most, so the session is lost within two minutes.
const REQUEST_SECONDS: u64 = 60;

/// What comes in over the connection of a client. Once the time for its request has passed, each read is a fault. Where the client
/// may be silent, no time is looked at: so what comes behind a request that watches isn't limited.
#[derive(Drop)]
pub struct PromptSource<R> {
    rt: R,
    /// Which client of its listener it is.
    client: u64,
    source: SocketSource,
    halting: Halting,
    /// When the first read began.
    begun: Option<Instant>,
    /// Those beside the connection's own.
    faults: Faults,
}

impl<R> Model for PromptSource<R> {
    ghost Value = { Direction };

    ghost view = { λ s. record { client = s.client; faults = s.source + s.faults.count } };
}

impl<R: Clock + Eprint> PromptSource<R> {
    /// What comes in over this connection of a client, in the session whose waits `halting` ends.
    pub fn new(rt: R, client: u64, source: SocketSource, halting: Halting) -> PromptSource<R>
        ensures { result ≡ record { client = client; faults = source } }
    {
        PromptSource {
            rt,
            client,
            source,
            halting,
            begun: None,
            faults: Faults::new(),
        }
    }

    /// Closes this direction. What is told of it stays.
    pub fn close(self) -> PromptSource<R>
        ensures { result ≡ self }
    {
        PromptSource {
            rt: self.rt,
            client: self.client,
            source: self.source.close(),
            halting: self.halting,
            begun: self.begun,
            faults: self.faults,
        }
    }

    /// Fails where the time for a request has passed, which the first call begins.
    fn check_time(&mut self) -> io::Result<()>
        ensures { self.new ≡ self.old }
    {
        if self.halting.is_silence_allowed() {
            return Ok(());
        }
        let Some(begun) = self.begun else {
            self.begun = Some(Instant::now(&self.rt)?);
            return Ok(());
        };
        if begun.elapsed(&self.rt)? > Duration::from_secs(REQUEST_SECONDS) {
            return Err(Error::from(ErrorKind::TimedOut));
        }
        Ok(())
    }
}

impl<R: Clock + Eprint> Source for PromptSource<R> {
    ghost left = { λ s. None };

    ghost faults = { λ s. s.faults };

    fn read(&mut self, into: &mut [u8]) -> Result<usize, Failed> {
        if let Err(error) = self.check_time() {
            tell(&self.rt, "read", "a request", &error);
            return Err(self.faults.failed(error));
        }
        self.source.read(into)
    }
}
