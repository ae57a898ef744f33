//! A source tree that tells the same of each path. Its looks and its reads may differ, and memory may be
//! wanting for a read, which no script of `rx_fakes` can say.

ghost use Rattle.std.specs.Prelude.{◌≡◌, ◌≤◌, None};
ghost use Rattle.rx_world.specs.Causes.{Rose};

use rx_base::{Bytes, Items, NoMemory, RelPath};
use rx_rows::{Row, RowFault};
use rx_world::{Failed, Found, Look, Refused, Sources, Stamp, Toy};
use std::alloc::Global;
use std::marker::Brand;

/// The size in each stamp, that of the texts `abc` and `abd`.
const SIZE: u64 = 3;

/// What a look or a read tells.
#[derive(Clone, Copy)]
enum Told {
    Look(Look),
    Fails,
    /// Only a read may say so: such a look fails.
    NoMemory,
}

/// What looks and reads tell of each path, the bytes of a file, and how often there was a read or a fault.
#[derive(Drop)]
pub(crate) struct SameEverywhere {
    alloc: Global,
    looked: Told,
    read: Told,
    text: Vec<u8>,
    reads: u64,
    faults: u64,
}

impl SameEverywhere {
    /// A tree that tells a file with this mark and this text.
    pub(crate) fn with_file(
        alloc: Global,
        mark: u128,
        text: &str,
    ) -> Result<SameEverywhere, NoMemory> {
        Ok(SameEverywhere {
            alloc,
            looked: Told::Look(file(mark)),
            read: Told::Look(file(mark)),
            text: Vec::from_slice(alloc, text.as_bytes())?,
            reads: 0,
            faults: 0,
        })
    }

    /// How often there was a read.
    pub(crate) fn reads(&self) -> u64 {
        self.reads
    }

    /// Counts a fault.
    fn fault(&mut self) -> Failed
        ensures later { self.old.faults ≤ self.new.faults }
        ensures rose { Rose self.old.faults self.new.faults }
    {
        self.faults = self.faults.saturating_add(1);
        Failed
    }
}

impl Sources<Toy<Brand>> for SameEverywhere {
    ghost listed = { λ s. None };

    ghost keeps = { λ s. Unit {0} };

    ghost given = { λ s. None };

    ghost faults = { λ s. s.faults };

    fn look(&mut self, _path: &RelPath) -> Result<Look, Failed> {
        match self.looked {
            Told::Look(look) => Ok(look),
            Told::Fails | Told::NoMemory => Err(self.fault()),
        }
    }

    fn read(&mut self, _path: &RelPath) -> Result<(Look, Bytes), Refused> {
        self.reads = self.reads.saturating_add(1);
        match self.read {
            Told::Look(Look::File { stamp, executable }) => Ok((
                Look::File { stamp, executable },
                Bytes::copy_of(self.alloc, &self.text)?,
            )),
            Told::Look(look) => Ok((look, Bytes::new(self.alloc))),
            Told::Fails => Err(Refused::from(self.fault())),
            Told::NoMemory => Err(Refused::NoMemory),
        }
    }

    fn list(&mut self, _under: &RelPath, _most: usize) -> Result<Items<Found>, Refused> {
        Err(Refused::from(self.fault()))
    }
}

/// A file with this mark.
fn file(mark: u128) -> Look {
    Look::File {
        stamp: Stamp { size: SIZE, mark },
        executable: false,
    }
}

/// `file MARK`, `dir`, `absent`, `other`, `fails` or `no-memory`.
fn read_told(row: &mut Row<'_>) -> Result<Told, RowFault> {
    match row.word()? {
        "file" => Ok(Told::Look(file(u128::from(row.number()?)))),
        "dir" => Ok(Told::Look(Look::Dir)),
        "absent" => Ok(Told::Look(Look::Absent)),
        "other" => Ok(Told::Look(Look::Other)),
        "fails" => Ok(Told::Fails),
        "no-memory" => Ok(Told::NoMemory),
        _ => Err(RowFault::BadCall),
    }
}

/// `LOOK READ TEXT`: what a look tells, what a read tells, and the bytes of a file.
pub(crate) fn read_same(alloc: Global, row: &mut Row<'_>) -> Result<SameEverywhere, RowFault> {
    Ok(SameEverywhere {
        alloc,
        looked: read_told(row)?,
        read: read_told(row)?,
        text: row.text(alloc)?,
        reads: 0,
        faults: 0,
    })
}
