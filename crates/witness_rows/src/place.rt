//! A place whose calls never fail.

ghost use Rattle.std.specs.Prelude.{None};

use rx_base::{Bytes, Items, NoMemory, RelPath, TryClone};
use rx_world::{Failed, FileOut, Place};
use std::alloc::Global;

/// What was placed, in order. Where memory is wanting, the file is lost. It tells nothing.
#[derive(Drop)]
pub struct QuietPlace {
    pub alloc: Global,
    pub placed: Items<FileOut>,
}

impl QuietPlace {
    /// Nothing was placed.
    pub fn new(alloc: Global) -> QuietPlace {
        QuietPlace {
            alloc,
            placed: Items::new(alloc),
        }
    }

    fn keep(&mut self, path: &RelPath, bytes: &[u8], executable: bool) -> Result<(), NoMemory> {
        self.placed.push(FileOut {
            path: path.try_clone(self.alloc)?,
            bytes: Bytes::copy_of(self.alloc, bytes)?,
            executable,
        })?;
        Ok(())
    }
}

impl Place for QuietPlace {
    ghost contents = { λ p. None };

    ghost opening = { λ p. None };

    ghost faults = { λ p. 0 };

    fn place(&mut self, path: &RelPath, bytes: &[u8], executable: bool) -> Result<(), Failed> {
        let _ = self.keep(path, bytes, executable);
        Ok(())
    }
}
