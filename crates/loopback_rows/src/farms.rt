//! The farm of the rows, which serves the connections of attempts in a thread of its own.

use crate::attempts::{Job, run, run_twice, write_end};
use crate::links::FarmLink;
use rx_exec_messages::Capabilities;
use rx_farm_values::read_capabilities;
use rx_host::Hands;
use rx_rows::{Answer, Calls, Row, RowFault};
use rx_toyfarm::{FarmFault, ToyFarm, answer};
use std::net::{Ipv4Addr, SocketAddr, TcpListener};
use std::sync::atomic::AtomicBool;
use std::{io, thread};

/// More pieces than the calls of a row send.
const TURNS: u64 = 100_000;

/// The machine, a directory for inputs, and the farm as the rows left it.
#[derive(Drop)]
pub(crate) struct Loopback<H> {
    rt: HostRuntime,
    hands: H,
    root: String,
    farm: ToyFarm,
}

impl<H: Hands> Loopback<H> {
    /// A farm that tells no version.
    pub(crate) fn new(rt: HostRuntime, hands: H, root: String) -> Loopback<H> {
        let says = Capabilities {
            most: 0,
            low: None,
            high: None,
        };
        Loopback {
            rt,
            hands,
            root,
            farm: ToyFarm::new(rt.alloc(), says),
        }
    }

    /// `run TEXT`, `refusing TEXT`: the end of an attempt, and how its connection was served.
    fn attempt(
        &mut self,
        row: &mut Row<'_>,
        accept_cached: bool,
        told: &mut Answer,
    ) -> Result<(), RowFault> {
        let (job, listener) = self.job(row, accept_cached)?;
        let (rt, hands, farm) = (self.rt, self.hands, &mut self.farm);
        let serve = || serve(rt, farm, &listener, &AtomicBool::new(false));
        let attempt = || run(rt, hands, &job);
        let (served, end) = thread::join(&hands, serve, attempt);
        write_end(rt.alloc(), &end?, told)?;
        write_served(served, told)
    }

    /// `twice TEXT`: the ends of two attempts, and how the one connection of both was served.
    fn attempt_twice(&mut self, row: &mut Row<'_>, told: &mut Answer) -> Result<(), RowFault> {
        let (job, listener) = self.job(row, true)?;
        let (rt, hands, farm) = (self.rt, self.hands, &mut self.farm);
        let serve = || serve(rt, farm, &listener, &AtomicBool::new(false));
        let attempts = || run_twice(rt, hands, &job, &AtomicBool::new(false));
        let (served, (first, second)) = thread::join(&hands, serve, attempts);
        write_end(rt.alloc(), &first?, told)?;
        write_end(rt.alloc(), &second?, told)?;
        write_served(served, told)
    }

    /// `broken TEXT`: the ends of two attempts, and how both connections were served, of which the first one ended at the
    /// first byte of the second attempt.
    fn attempt_broken(&mut self, row: &mut Row<'_>, told: &mut Answer) -> Result<(), RowFault> {
        let (job, listener) = self.job(row, true)?;
        let (rt, hands, farm) = (self.rt, self.hands, &mut self.farm);
        let mark = AtomicBool::new(false);
        let serve = || serve_broken(rt, farm, &listener, &mark);
        let attempts = || run_twice(rt, hands, &job, &mark);
        let ((broken, served), (first, second)) = thread::join(&hands, serve, attempts);
        write_end(rt.alloc(), &first?, told)?;
        write_end(rt.alloc(), &second?, told)?;
        write_served(broken, told)?;
        write_served(served, told)
    }

    /// The job of a row, and the port at which the farm listens for it.
    fn job(&self, row: &mut Row<'_>, accept_cached: bool) -> Result<(Job, TcpListener), RowFault> {
        let alloc = self.rt.alloc();
        let text = row.text(alloc)?;
        let Ok((address, listener)) = listen(self.rt) else {
            return Err(RowFault::BadCall);
        };
        let job = Job {
            root: String::from_str(alloc, self.root.as_str())?,
            address,
            text,
            accept_cached,
        };
        Ok((job, listener))
    }
}

impl<H: Hands> Calls for Loopback<H> {
    fn call(&mut self, row: &mut Row<'_>, told: &mut Answer) -> Result<(), RowFault> {
        match row.word()? {
            "farm" => {
                self.farm = ToyFarm::new(self.rt.alloc(), read_capabilities(row)?);
                told.word("ok")?;
                Ok(())
            }
            "run" => self.attempt(row, true, told),
            "refusing" => self.attempt(row, false, told),
            "twice" => self.attempt_twice(row, told),
            "broken" => self.attempt_broken(row, told),
            _ => Err(RowFault::NoCall),
        }
    }
}

/// Writes how the farm's end of a connection ended.
fn write_served(served: Served, told: &mut Answer) -> Result<(), RowFault> {
    match served {
        Ok(()) => told.word("served")?,
        Err(fault) => told.value(&fault)?,
    }
    Ok(())
}

/// A port of this machine that is listened at, and its address.
fn listen(rt: HostRuntime) -> io::Result<(String, TcpListener)> {
    let listener = TcpListener::bind(&rt, SocketAddr::from((Ipv4Addr::LOCALHOST, 0)))?;
    let port = listener.local_addr()?.port();
    Ok((format!(in rt.alloc(); "127.0.0.1:{port}")?, listener))
}

/// How a connection was served.
type Served = Result<(), FarmFault>;

/// Serves the next connection until its client ends it, or until something comes behind the mark.
fn serve(rt: HostRuntime, farm: &mut ToyFarm, listener: &TcpListener, mark: &AtomicBool) -> Served {
    match listener.accept() {
        Ok((stream, _)) => answer(rt.alloc(), farm, &mut FarmLink::new(stream, mark), TURNS),
        Err(_) => Err(FarmFault::LinkFault),
    }
}

/// Serves a connection until something comes behind the mark, and then another one until its client ends it.
fn serve_broken(
    rt: HostRuntime,
    farm: &mut ToyFarm,
    listener: &TcpListener,
    mark: &AtomicBool,
) -> (Served, Served) {
    let broken = serve(rt, farm, listener, mark);
    let served = serve(rt, farm, listener, &AtomicBool::new(false));
    (broken, served)
}
