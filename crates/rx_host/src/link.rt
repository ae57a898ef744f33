//! A connection to a farm over TCP. Nothing is told of its bytes.

ghost use Rattle.std.specs.Prelude.{◌≡◌, IfOk, None, false};
ghost use Rattle.rx_host.specs.Farms.{any_bytes};

use crate::halting::Halting;
use crate::tells::tell;
use crate::timed::{TimedStream, Unread};
use crate::upkeep::is_without_answer;
use crate::watch::{Watch, Watched};
use rx_streams::Faults;
use rx_world::{Failed, Link};
use std::io;
use std::io::{Error, ErrorKind};
use std::net::TcpStream;
use std::sync::atomic::{AtomicBool, Ordering};

/// One connection over TCP.
#[derive(Drop)]
pub struct HostLink {
    rt: HostRuntime,
    timed: TimedStream,
    watch: Watch,
    /// Whether anything came.
    is_heard: bool,
    /// Whether no call was answered on it since a session took it up, as far as its bytes tell.
    is_untried: AtomicBool,
    pub(crate) ended: bool,
    pub(crate) faults: Faults,
}

impl HostLink {
    /// The link over a connection that nothing was sent or received on.
    pub(crate) fn new(rt: HostRuntime, stream: TcpStream, watch: Watch) -> io::Result<HostLink>
        ensures ended { IfOk result (λ link. link.ended ≡ false) }
        ensures faults { IfOk result (λ link. link.faults.count ≡ 0) }
    {
        Ok(HostLink {
            rt,
            timed: TimedStream::new(stream)?,
            watch,
            is_heard: false,
            is_untried: AtomicBool::new(false),
            ended: false,
            faults: Faults::new(),
        })
    }

    /// Whether anything came.
    pub(crate) fn is_heard(&self) -> bool {
        self.is_heard
    }

    /// The connection, for whoever ends the waits at it.
    pub(crate) fn stream(&self) -> &TcpStream {
        self.timed.stream()
    }

    /// What came while no session used it.
    pub(crate) fn unread(&self) -> Unread {
        self.timed.unread()
    }

    /// The session that is halted by this uses it from now on. The farm may have closed it, and nobody knows yet.
    pub(crate) fn pass_on(&self, halting: Halting) {
        self.watch.halting.pass_on(halting);
        self.is_untried.store(true, Ordering::SeqCst);
    }

    /// Whether no call was answered on it since a session took it up. From now on it counts as tried.
    pub(crate) fn ends_trial(&self) -> bool {
        self.is_untried.swap(false, Ordering::SeqCst)
    }

    /// Tells why a call failed, unless the farm was halted, or may have closed the connection before the call. A farm that
    /// was silent for too long is away.
    fn tell(&self, tried: &str, error: &Error) {
        if self.watch.halting.is_farm_halted() {
            return;
        }
        let is_silence = error.kind() == ErrorKind::TimedOut;
        if is_silence || !self.is_untried.load(Ordering::SeqCst) {
            tell(&self.rt, tried, "the farm", error);
        }
        if let Some(outage) = &self.watch.outage {
            if is_silence {
                outage.begin(&self.rt);
            }
        }
    }

    /// The farm isn't away, since bytes came. Tells where the first of them are of another protocol than HTTP/2 without TLS.
    fn hear(&mut self, bytes: &[u8])
        ensures ended { self.new.ended ≡ self.old.ended }
        ensures faults { self.new.faults ≡ self.old.faults }
    {
        if bytes.is_empty() {
            return;
        }
        if let Some(outage) = &self.watch.outage {
            outage.end();
        }
        if !is_without_answer(bytes) {
            self.is_untried.store(false, Ordering::SeqCst);
        }
        if self.is_heard {
            return;
        }
        self.is_heard = true;
        if let Some(protocol) = other_protocol(bytes) {
            let _ = eprintln!(self.rt;
                "reproxy: the farm speaks {protocol}, and not HTTP/2 without TLS"
            );
        }
    }
}

/// The protocol that a server's first bytes are of, where it isn't HTTP/2. A record of TLS begins with its type, here an alert
/// (21) or a handshake (22), and the version's first byte, 3 (RFC 8446, 5.1).
fn other_protocol(bytes: &[u8]) -> Option<&'static str> {
    match bytes {
        [21 | 22, 3, ..] => Some("TLS"),
        _ if bytes.starts_with(b"HTTP/1.") => Some("HTTP/1.1"),
        _ => None,
    }
}

impl Link for HostLink {
    ghost wire = { λ l. None };

    ghost ended = { λ l. l.ended };

    ghost rule = { λ l. any_bytes };

    ghost faults = { λ l. l.faults.count };

    fn send(&mut self, piece: &[u8]) -> Result<usize, Failed> {
        let patience = Watched {
            rt: &self.rt,
            watch: &self.watch,
            is_heard: self.is_heard,
        };
        match self.timed.write(&patience, piece) {
            Ok(count) => Ok(count),
            Err(error) => {
                self.tell("send to", &error);
                Err(self.faults.failed(error))
            }
        }
    }

    fn receive(&mut self, into: &mut [u8]) -> Result<usize, Failed> {
        let patience = Watched {
            rt: &self.rt,
            watch: &self.watch,
            is_heard: self.is_heard,
        };
        match self.timed.read(&patience, into) {
            Ok(count) => {
                self.hear(into.get(..count).unwrap_or(&[]));
                self.ended = self.ended || count == 0 && !into.is_empty();
                Ok(count)
            }
            Err(error) => {
                self.tell("receive from", &error);
                Err(self.faults.failed(error))
            }
        }
    }
}
