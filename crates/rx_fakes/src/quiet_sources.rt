//! Source trees in memory that never fail.

ghost use Rattle.std.specs.Prelude.{◌≡◌, None, Some};

use crate::SourceEntries;
use rx_base::{Bytes, Items, RelPath};
use rx_world::{Contents, Failed, Found, Look, Refused, Sources, Toy};
use std::alloc::Global;

/// A source tree that stays as it is, and whose calls fail only for want of memory. It tells
/// nothing of its answers, since it would have to keep them.
#[derive(Drop)]
pub struct QuietSources<K: Contents> {
    pub alloc: Global,
    pub entries: SourceEntries<K>,
}

impl<K: Contents> Sources<Toy<K>> for QuietSources<K> {
    ghost listed = { λ s. Some s.entries };

    ghost keeps = { λ s. Unit {0} };

    ghost given = { λ s. None };

    ghost faults = { λ s. 0 };

    fn look(&mut self, path: &RelPath) -> Result<Look, Failed> {
        Ok(self.entries.look(path))
    }

    fn read(&mut self, path: &RelPath) -> Result<(Look, Bytes), Refused> {
        Ok(self.entries.read(self.alloc, path)?)
    }

    fn list(&mut self, under: &RelPath, most: usize) -> Result<Items<Found>, Refused> {
        Ok(self.entries.list(self.alloc, under, most)?)
    }
}
