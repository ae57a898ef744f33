//! Source trees of desks: source trees in memory whose calls may wait.

ghost use Rattle.std.specs.Prelude.{None};

use crate::seats::{Hands, Seat};
use crate::worlds::{RowWorld, ToyWorld};
use rx_base::{Bytes, Items, RelPath};
use rx_fakes::MemorySources;
use rx_world::{Failed, Found, Look, Refused, Sources};
use std::marker::Brand;

/// A source tree in memory. It tells neither its paths nor its answers.
#[derive(Drop)]
pub(crate) struct MeetingSources<H> {
    pub tree: MemorySources<Brand>,
    pub seat: Seat<H>,
}

impl<H: Hands> Sources<RowWorld> for MeetingSources<H> {
    ghost listed = { λ s. None };

    ghost keeps = { λ s. ⊥ };

    ghost given = { λ s. None };

    ghost faults = { λ s. s.seat.faults };

    fn look(&mut self, path: &RelPath) -> Result<Look, Failed> {
        self.seat.enter_or_fail()?;
        match <MemorySources<Brand> as Sources<ToyWorld>>::look(&mut self.tree, path) {
            Ok(look) => Ok(look),
            Err(_) => Err(self.seat.fault()),
        }
    }

    fn read(&mut self, path: &RelPath) -> Result<(Look, Bytes), Refused> {
        self.seat.enter()?;
        match <MemorySources<Brand> as Sources<ToyWorld>>::read(&mut self.tree, path) {
            Err(Refused::Failed) => Err(Refused::from(self.seat.fault())),
            read => read,
        }
    }

    fn list(&mut self, under: &RelPath, most: usize) -> Result<Items<Found>, Refused> {
        self.seat.enter()?;
        match <MemorySources<Brand> as Sources<ToyWorld>>::list(&mut self.tree, under, most) {
            Err(Refused::Failed) => Err(Refused::from(self.seat.fault())),
            listed => listed,
        }
    }
}
