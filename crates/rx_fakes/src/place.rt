//! A place in memory.

ghost use Rattle.std.specs.Prelude.{◌≡◌, IfOk, Some};

use crate::Script;
use crate::files::put_file;
use rx_base::{Items, NoMemory, RelPath, TryClone};
use rx_world::{Failed, FileOut, Place};
use std::alloc::Global;

/// The files that it holds and those that it held at first. Want of memory is a counted fault.
#[derive(Drop)]
pub struct MemoryPlace {
    pub alloc: Global,
    pub files: Items<FileOut>,
    pub opening: Items<FileOut>,
    pub script: Script,
}

impl MemoryPlace {
    /// A place that holds these files.
    pub fn new(
        alloc: Global,
        files: Items<FileOut>,
        script: Script,
    ) -> Result<MemoryPlace, NoMemory>
        ensures files { IfOk result (λ place. place.files ≡ files) }
        ensures opening { IfOk result (λ place. place.opening ≡ files) }
        ensures script { IfOk result (λ place. place.script ≡ script) }
    {
        Ok(MemoryPlace {
            alloc,
            opening: files.try_clone(alloc)?,
            files,
            script,
        })
    }
}

impl Place for MemoryPlace {
    ghost contents = { λ p. Some p.files };

    ghost opening = { λ p. Some p.opening };

    ghost faults = { λ p. p.script.faults };

    fn place(&mut self, path: &RelPath, bytes: &[u8], executable: bool) -> Result<(), Failed> {
        self.script.call()?;
        match put_file(self.alloc, &mut self.files, path, bytes, executable) {
            Ok(()) => Ok(()),
            Err(_) => Err(self.script.fault()),
        }
    }
}
