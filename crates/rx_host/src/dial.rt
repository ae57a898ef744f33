//! Connections to one farm over TCP are made.

ghost use Rattle.std.specs.Prelude.{◌≡◌, IfOk, false};
ghost use Rattle.rx_world.specs.declared.versions.Dialect.TheVariants.{New as new_dialect};
ghost use Rattle.rx_host.specs.Farms.{any_bytes};

use crate::connecting::connect;
use crate::farm_limits::FarmLimits;
use crate::farm_share::FarmShare;
use crate::halting::{Connecting, Halting, halted};
use crate::hands::Hands;
use crate::keeping::Kept;
use crate::link::HostLink;
use crate::link_halting::LinkHalting;
use crate::patience::tick;
use crate::probe::Probe;
use crate::timed::Unread;
use crate::watch::Watch;
use rx_base::Text;
use rx_exec_messages::Capabilities;
use rx_grpc::Resting;
use rx_streams::Faults;
use rx_world::{Dial, Failed};
use std::alloc::{AllocError, Global};
use std::io::{Error, ErrorKind};
use std::net::TcpStream;
use std::sync::Arc;
use std::time::Duration;
use std::{io, thread};

/// How many connections that were kept are looked at, at most: no more sessions run at once.
const MOST_KEPT: u32 = 256;

/// How many ticks a pause has at most, which is more than a farm may ask for.
const MOST_TICKS: u32 = 100;

/// Connects to one farm, or to none: then each call is a fault. The first connection that can't be made is told on standard
/// error, where sessions share what they know of the farm by one of them in 10 seconds.
#[derive(Drop)]
pub struct HostDial<H> {
    rt: HostRuntime,
    hands: H,
    address: Option<String>,
    halting: Halting,
    limits: FarmLimits,
    /// Asks a farm that is silent while a command runs.
    probe: Option<Probe>,
    /// What sessions share of the farm.
    share: Option<FarmShare>,
    /// How many connections it made.
    made: u64,
    is_told: bool,
    /// Whether the last call for a connection tried none, since there is no farm or it is away.
    is_idle: bool,
    faults: Faults,
}

impl<H: Hands> HostDial<H> {
    /// Connects to `HOST:PORT`, where HOST is a name or an address of version 4 or 6, until the farm is halted.
    pub fn new(rt: HostRuntime, hands: H, address: Option<String>, halting: Halting) -> HostDial<H>
        ensures { ⟦<HostDial<H> as Dial>⟧.faults result ≡ 0 }
    {
        HostDial {
            rt,
            hands,
            address,
            halting,
            limits: FarmLimits::usual(),
            probe: None,
            share: None,
            made: 0,
            is_told: false,
            is_idle: false,
            faults: Faults::new(),
        }
    }

    /// The same, which knows of the farm what other sessions know, and takes and leaves connections for them.
    pub fn sharing(self, share: FarmShare) -> HostDial<H>
        ensures { ⟦<HostDial<H> as Dial>⟧.faults result ≡ ⟦<HostDial<H> as Dial>⟧.faults self }
    {
        let mut dial = self;
        dial.share = Some(share);
        dial
    }

    /// The same with other limits.
    pub fn within(self, limits: FarmLimits) -> HostDial<H>
        ensures { ⟦<HostDial<H> as Dial>⟧.faults result ≡ ⟦<HostDial<H> as Dial>⟧.faults self }
    {
        let mut dial = self;
        dial.limits = limits;
        dial
    }

    /// The same, which asks a farm that is silent while a command runs whether this instance of it still answers. Else its silence
    /// is a fault.
    pub fn probing(self, instance: Text) -> Result<HostDial<H>, AllocError>
        ensures { IfOk result (λ dial.
            ⟦<HostDial<H> as Dial>⟧.faults dial ≡ ⟦<HostDial<H> as Dial>⟧.faults self) }
    {
        let mut dial = self;
        if let Some(address) = &dial.address {
            dial.probe = Some(Probe::new(dial.rt, address.clone()?, instance)?);
        }
        Ok(dial)
    }

    /// Lets go of the connections that are kept for halting.
    pub(crate) fn let_go(&self) {
        self.halting.let_go(&self.hands);
    }

    /// How many connections it made.
    pub(crate) fn made(&self) -> u64 {
        self.made
    }

    /// Leaves a connection, on which the farm told this of itself, if anything, to the sessions after this one. Where
    /// sessions share none, or the farm was halted, it is closed.
    pub(crate) fn keep(&self, resting: Resting<HostLink>, told: Option<Capabilities>) {
        match &self.share {
            Some(share) if !self.halting.is_farm_halted() => {
                share.keeping.put(&self.hands, resting, told);
            }
            _ => {}
        }
    }

    /// A connection that another session left, with what came on it meanwhile. Those that the farm closed are left out.
    pub(crate) fn take_kept(&self) -> Option<(Kept, Unread)> {
        let share = self.share.as_ref()?;
        for _ in 0..MOST_KEPT {
            let kept = share.keeping.take(&self.hands)?;
            let unread = kept.resting.link().unread();
            if unread != Unread::End && self.pass_on(kept.resting.link()).is_ok() {
                return Some((kept, unread));
            }
        }
        None
    }

    /// This session uses the connection from now on.
    fn pass_on(&self, link: &HostLink) -> io::Result<()> {
        link.pass_on(self.halting.share()?);
        self.halting.keep_connection(&self.hands, link.stream())
    }

    /// A call begins in which a command may run, so that it takes as long as that does. First comes this pause, unless no
    /// connection is tried.
    pub(crate) fn begin_command(&self, pause: Option<Duration>) {
        self.rest(pause);
        self.halting.begin_call(&self.rt, None);
    }

    /// A call begins in which so many bytes are moved as a stream, and no command runs. First comes this pause.
    pub(crate) fn begin_call(&self, bytes: u64, pause: Option<Duration>) {
        self.rest(pause);
        let limit = self.limits.call_of(bytes);
        self.halting.begin_call(&self.rt, Some(limit));
    }

    /// Pauses, unless no connection is tried, and until the run is to end.
    fn rest(&self, pause: Option<Duration>) {
        let mut left = pause.unwrap_or(Duration::ZERO);
        for _ in 0..MOST_TICKS {
            if left.is_zero() || self.is_idle || self.is_closing() {
                return;
            }
            let part = left.min(tick());
            self.halting.rest(&self.hands, part);
            left = left.saturating_sub(part);
        }
    }

    /// Whether the run is to end.
    fn is_closing(&self) -> bool {
        match &self.share {
            Some(share) => share.closing.is_begun(),
            None => false,
        }
    }

    /// The farm is away, as an attempt found out that tried a connection.
    pub(crate) fn give_up(&self) {
        match &self.share {
            Some(share) if !self.is_idle => share.outage.begin(&self.rt),
            _ => {}
        }
    }

    /// Tells that the farm refused a call with this status, and what it said of it, if anything.
    pub(crate) fn tell_status(&self, code: u32, text: &[u8]) {
        if text.is_empty() {
            return;
        }
        if let (Some(address), Ok(text)) = (&self.address, str::from_utf8(text)) {
            let _ = eprintln!(self.rt; "reproxy: farm {address}: status {code}: {text:?}");
        }
    }

    /// A connection, which a thread of its own makes, so that it can be halted meanwhile.
    fn connect(&self) -> io::Result<HostLink>
        ensures ended { IfOk result (λ link. link.ended ≡ false) }
        ensures faults { IfOk result (λ link. link.faults.count ≡ 0) }
    {
        let Some(address) = &self.address else {
            return Err(Error::from(ErrorKind::NotConnected));
        };
        let (rt, address) = (self.rt, address.clone()?);
        let connecting = self.halting.begin_connecting(&self.hands, rt.alloc())?;
        let theirs = Arc::try_clone(&connecting)?;
        let work = move || see_through(rt, address, theirs);
        if let Err(refused) = thread::spawn(&self.hands, work) {
            (refused.value)();
        }
        let stream = self.wait_for(&connecting)?;
        self.halting.keep_connection(&self.hands, &stream)?;
        HostLink::new(rt, stream, self.watch()?)
    }

    /// Waits for a connection that is being made, until the farm is halted, or as long as a farm may say nothing.
    fn wait_for(&self, connecting: &Connecting) -> io::Result<TcpStream> {
        let connected = match &self.share {
            Some(share) => connecting.wait_patiently(&self.hands, &share.closing),
            None => connecting.wait(&self.hands),
        };
        match connected {
            Some(connected) => connected,
            None if self.halting.is_farm_halted() => Err(halted()),
            None => Err(Error::from(ErrorKind::TimedOut)),
        }
    }

    /// What a connection is watched by.
    fn watch(&self) -> Result<Watch, AllocError> {
        let (outage, closing) = match &self.share {
            Some(share) => (Some(share.outage.share()?), Some(share.closing.share()?)),
            None => (None, None),
        };
        let probe = match &self.probe {
            Some(probe) => Some(probe.share()?),
            None => None,
        };
        Ok(Watch {
            halting: LinkHalting::new(self.halting.share()?),
            limits: self.limits,
            outage,
            closing,
            probe,
        })
    }

    /// Whether a connection is to be tried.
    fn is_dial_due(&self) -> bool {
        match &self.share {
            Some(share) => self.address.is_some() && share.outage.is_dial_due(&self.rt),
            None => self.address.is_some(),
        }
    }

    /// Whether it is to be told why there is no connection: once, and by few sessions.
    fn is_telling_due(&self) -> bool {
        let is_due = !self.is_told && !self.halting.is_farm_halted();
        match &self.share {
            Some(share) => is_due && share.outage.is_telling_due(&self.rt),
            None => is_due,
        }
    }

    /// Tells why there is no connection, unless there is to be none. A farm whose host didn't answer in time is away.
    fn tell(&mut self, error: &Error)
        ensures { self.new.faults ≡ self.old.faults }
    {
        if error.kind() == ErrorKind::TimedOut {
            self.give_up();
        }
        if !self.is_telling_due() {
            return;
        }
        self.is_told = true;
        if let Some(address) = &self.address {
            let _ = eprintln!(self.rt; "reproxy: farm {address}: {error}");
        }
    }
}

/// Connects, and tells how that went.
fn see_through(rt: HostRuntime, address: String, connecting: Arc<Connecting, Global>) {
    connecting.end(connect(&rt, address.as_str()));
}

impl<H: Hands> Dial for HostDial<H> {
    type L = HostLink;

    ghost rule = { λ d. any_bytes };

    ghost dialect = { new_dialect };

    ghost faults = { λ d. d.faults.count };

    fn dial(&mut self) -> Result<HostLink, Failed> {
        self.is_idle = !self.is_dial_due();
        if self.is_idle {
            return Err(self.faults.failed(Error::from(ErrorKind::NotConnected)));
        }
        match self.connect() {
            Ok(link) => {
                self.made = self.made.saturating_add(1);
                Ok(link)
            }
            Err(error) => {
                self.tell(&error);
                Err(self.faults.failed(error))
            }
        }
    }
}
