//! A connection over loopback from row to row, and the farm at its other end.

use crate::answers::{write_count, write_done};
use rx_host::{Halting, Hands, HostDial, HostLink};
use rx_row_values::read_string;
use rx_rows::{Answer, Row, RowFault};
use rx_world::{Dial, Link};
use std::alloc::AllocError;
use std::io;
use std::io::{Read, Write};
use std::net::{Ipv4Addr, SocketAddr, TcpListener, TcpStream};

/// How many bytes a call receives at most.
const MOST_RECEIVED: usize = 6;

/// What dials a farm, the farm, and both ends of the connection between them.
#[derive(Drop)]
pub(crate) struct Links<H> {
    rt: HostRuntime,
    hands: H,
    /// Halts the farm.
    pub(crate) halting: Halting,
    dial: HostDial<H>,
    listener: Option<TcpListener>,
    link: Option<HostLink>,
    farm: Option<TcpStream>,
}

/// A port of this machine that is listened at, as the address of a machine with this name.
fn listen(rt: HostRuntime, host: &str) -> io::Result<(String, TcpListener)> {
    let listener = TcpListener::bind(&rt, SocketAddr::from((Ipv4Addr::LOCALHOST, 0)))?;
    let port = listener.local_addr()?.port();
    Ok((format!(in rt.alloc(); "{host}:{port}")?, listener))
}

impl<H: Hands> Links<H> {
    /// No connection yet, at this address to whoever listens there.
    pub(crate) fn new(
        rt: HostRuntime,
        hands: H,
        address: Option<String>,
        listener: Option<TcpListener>,
    ) -> Result<Links<H>, AllocError> {
        let halting = Halting::new(&rt, rt.alloc())?;
        let dial = HostDial::new(rt, hands, address, halting.share()?);
        Ok(Links {
            rt,
            hands,
            halting,
            dial,
            listener,
            link: None,
            farm: None,
        })
    }

    /// `farm none`, `farm open HOST`, `farm closed HOST`: another farm. A closed one doesn't listen.
    pub(crate) fn set_farm(
        &mut self,
        row: &mut Row<'_>,
        answer: &mut Answer,
    ) -> Result<(), RowFault> {
        let state = row.word()?;
        let (mut address, mut listener) = (None, None);
        if state != "none" {
            let host = read_string(self.rt.alloc(), row)?;
            let Ok((name, listening)) = listen(self.rt, host.as_str()) else {
                return Err(RowFault::BadCall);
            };
            address = Some(name);
            if state == "open" {
                listener = Some(listening);
            }
        }
        *self = Links::new(self.rt, self.hands, address, listener)?;
        answer.word("ok")?;
        Ok(())
    }

    /// `dial`: connects to the farm, which accepts.
    pub(crate) fn dial(&mut self, answer: &mut Answer) -> Result<(), RowFault> {
        let Ok(link) = self.dial.dial() else {
            answer.word("failed")?;
            return Ok(());
        };
        let Some(listener) = &self.listener else {
            return Err(RowFault::BadCall);
        };
        let Ok((farm, _)) = listener.accept() else {
            return Err(RowFault::BadCall);
        };
        self.link = Some(link);
        self.farm = Some(farm);
        answer.word("ok")?;
        Ok(())
    }

    /// `send TEXT`: how many bytes were sent, and what of that came to the farm.
    pub(crate) fn send(&mut self, row: &mut Row<'_>, answer: &mut Answer) -> Result<(), RowFault> {
        let mut text = row.text(self.rt.alloc())?;
        let (Some(link), Some(farm)) = (&mut self.link, &mut self.farm) else {
            return Err(RowFault::BadCall);
        };
        write_count(link.send(&text), answer)?;
        text.fill(0);
        match farm.read_exact(&mut text) {
            Ok(()) => answer.text(&text)?,
            Err(_) => answer.word("failed")?,
        }
        Ok(())
    }

    /// `tell TEXT`: the farm sends this and closes its end.
    pub(crate) fn tell(&mut self, row: &mut Row<'_>, answer: &mut Answer) -> Result<(), RowFault> {
        let text = row.text(self.rt.alloc())?;
        let Some(mut farm) = self.farm.take() else {
            return Err(RowFault::BadCall);
        };
        write_done(farm.write_all(&text), answer)
    }

    /// `receive`: how many bytes came, and the buffer, which was zero.
    pub(crate) fn receive(&mut self, answer: &mut Answer) -> Result<(), RowFault> {
        let Some(link) = &mut self.link else {
            return Err(RowFault::BadCall);
        };
        let mut into = [0u8; MOST_RECEIVED];
        write_count(link.receive(&mut into), answer)?;
        answer.text(&into)?;
        Ok(())
    }
}
