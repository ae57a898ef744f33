//! A farm that is silent while a command runs is asked, over a connection of its own, whether it still answers.

ghost use Rattle.std.specs.Prelude.{◌≡◌, IfOk, None, false};
ghost use Rattle.rx_world.specs.declared.versions.Dialect.TheVariants.{New as new_dialect};
ghost use Rattle.rx_host.specs.Farms.{any_bytes};

use crate::call_time::CallTime;
use crate::connecting::connect;
use crate::patience::Patience;
use crate::timed::TimedStream;
use rx_base::{NoMemory, Text, TryClone};
use rx_grpc::GrpcCaller;
use rx_streams::Faults;
use rx_world::{CallFault, Dial, Failed, Link};
use std::alloc::{AllocError, Global};
use std::io;
use std::sync::Arc;
use std::time::Duration;

/// The most bytes that the name of a farm may have.
const MOST_AUTHORITY: usize = 4_294_967_295;

/// Which farm is asked.
#[derive(Drop)]
struct Farm {
    address: String,
    instance: Text,
}

/// Asks a farm whether it answers.
#[derive(Drop)]
pub(crate) struct Probe {
    rt: HostRuntime,
    farm: Arc<Farm, Global>,
}

impl Probe {
    /// Asks the farm at this address, of this instance.
    pub(crate) fn new(
        rt: HostRuntime,
        address: String,
        instance: Text,
    ) -> Result<Probe, AllocError> {
        let farm = Arc::new(rt.alloc(), Farm { address, instance })?;
        Ok(Probe { rt, farm })
    }

    /// Another handle of the same.
    pub(crate) fn share(&self) -> Result<Probe, AllocError> {
        Ok(Probe {
            rt: self.rt,
            farm: Arc::try_clone(&self.farm)?,
        })
    }

    /// Whether the farm tells within this time what it can do, or why it doesn't. Where there is no memory to ask, it is taken to.
    pub(crate) fn is_answered(&self, within: Duration) -> bool {
        self.ask(within).unwrap_or(true)
    }

    fn ask(&self, within: Duration) -> Result<bool, NoMemory> {
        let alloc = self.rt.alloc();
        let authority = Vec::from_slice(alloc, self.farm.address.as_bytes())?;
        if authority.len() > MOST_AUTHORITY {
            return Ok(false);
        }
        let dial = BriefDial {
            rt: self.rt,
            farm: Arc::try_clone(&self.farm)?,
            within,
            faults: Faults::new(),
        };
        let instance = self.farm.instance.try_clone(alloc)?;
        let mut caller = GrpcCaller::new(alloc, dial, authority, instance, [0; 32]);
        match caller.hear_capabilities() {
            Ok(_) | Err(CallFault::Status(_)) => Ok(true),
            Err(CallFault::NoMemory) => Ok(true),
            Err(_) => Ok(false),
        }
    }
}

/// Makes the connection of one question.
#[derive(Drop)]
struct BriefDial {
    rt: HostRuntime,
    farm: Arc<Farm, Global>,
    /// How long the answer may take.
    within: Duration,
    faults: Faults,
}

impl BriefDial {
    fn connect(&self) -> io::Result<BriefLink>
        ensures ended { IfOk result (λ link. link.ended ≡ false) }
        ensures faults { IfOk result (λ link. link.faults.count ≡ 0) }
    {
        let time = CallTime::new(&self.rt);
        time.begin(&self.rt, Some(self.within));
        let stream = connect(&self.rt, self.farm.address.as_str())?;
        Ok(BriefLink {
            rt: self.rt,
            timed: TimedStream::new(stream)?,
            time,
            ended: false,
            faults: Faults::new(),
        })
    }
}

impl Dial for BriefDial {
    type L = BriefLink;

    ghost rule = { λ d. any_bytes };

    ghost dialect = { new_dialect };

    ghost faults = { λ d. d.faults.count };

    fn dial(&mut self) -> Result<BriefLink, Failed> {
        match self.connect() {
            Ok(link) => Ok(link),
            Err(error) => Err(self.faults.failed(error)),
        }
    }
}

/// A connection for one question, whose answer is to come within its time.
#[derive(Drop)]
struct BriefLink {
    rt: HostRuntime,
    timed: TimedStream,
    time: CallTime,
    ended: bool,
    faults: Faults,
}

/// The patience of a question: until its time is over.
#[derive(Clone, Copy)]
struct Brief<'a> {
    rt: &'a HostRuntime,
    time: &'a CallTime,
}

impl<'a> Patience for Brief<'a> {
    fn bear(&self, silence: Duration) -> Option<Duration> {
        match self.time.left(self.rt) {
            Some(left) if !left.is_zero() => Some(silence),
            _ => None,
        }
    }
}

impl Link for BriefLink {
    ghost wire = { λ l. None };

    ghost ended = { λ l. l.ended };

    ghost rule = { λ l. any_bytes };

    ghost faults = { λ l. l.faults.count };

    fn send(&mut self, piece: &[u8]) -> Result<usize, Failed> {
        let patience = Brief {
            rt: &self.rt,
            time: &self.time,
        };
        match self.timed.write(&patience, piece) {
            Ok(count) => Ok(count),
            Err(error) => Err(self.faults.failed(error)),
        }
    }

    fn receive(&mut self, into: &mut [u8]) -> Result<usize, Failed> {
        let patience = Brief {
            rt: &self.rt,
            time: &self.time,
        };
        match self.timed.read(&patience, into) {
            Ok(count) => {
                self.ended = self.ended || count == 0 && !into.is_empty();
                Ok(count)
            }
            Err(error) => Err(self.faults.failed(error)),
        }
    }
}
