//! The source tree of the host: the files below a root directory.

ghost use Rattle.std.specs.Prelude.{◌≡◌, [], None};
ghost use Rattle.rx_world.specs.Sources.{HasBytes};

use crate::below::Below;
use crate::contents::Contents;
use crate::known::Known;
use crate::looks::{content_mark, look_with, time_mark};
use crate::reading::ReadFile;
use crate::tells::tell;
use crate::world::HostWorld;
use rx_base::{Bytes, Items, RelPath};
use rx_streams::Faults;
use rx_world::{Failed, Found, Look, Refused, Sources};
use std::fs::{File, Files, Metadata};
use std::io;
use std::io::Eprint;
use std::time::Clock;

/// The files below a root directory. A link is Other and is never followed. Nothing stands below
/// what is no directory. The content of a file that an earlier session read is taken from `contents`, where the system tells
/// just the same of the file.
#[derive(Drop)]
pub struct HostSources<R> {
    tree: Known<R>,
    faults: Faults,
}

impl<R: Files<File = File> + AllocGlobal + Clock> HostSources<R> {
    /// The files below this directory.
    pub fn new(rt: R, root: String, contents: Contents) -> HostSources<R> {
        HostSources {
            tree: Known::new(rt, root, contents),
            faults: Faults::new(),
        }
    }
}

impl<R: Files<File = File> + AllocGlobal> Below<R> {
    /// The look of a path that the system tells this of. The content is read only for its mark.
    pub(crate) fn look_of(
        &mut self,
        path: &RelPath,
        metadata: Option<&Metadata>,
    ) -> io::Result<Look> {
        match time_mark_of(metadata) {
            Some(mark) => Ok(look_with(metadata, mark)),
            None => {
                let read = self.read(path)?;
                Ok(self.seen_as(read).0)
            }
        }
    }

    /// What a path that was read was seen as, with the bytes of a file.
    pub(crate) fn seen_as(&self, read: ReadFile) -> (Look, Bytes)
        ensures { HasBytes result.0 result.1 }
    {
        let metadata = read.metadata.as_ref();
        let mark = match time_mark_of(metadata) {
            Some(mark) => mark,
            None => content_mark(read.bytes.as_slice()),
        };
        match look_with(metadata, mark) {
            Look::File { stamp, executable } => (
                Look::File { stamp, executable },
                Bytes::from_vec(read.bytes),
            ),
            Look::Absent => (Look::Absent, self.no_bytes()),
            Look::Dir => (Look::Dir, self.no_bytes()),
            Look::Other => (Look::Other, self.no_bytes()),
        }
    }

    fn no_bytes(&self) -> Bytes
        ensures { result ≡ [] }
    {
        Bytes::new(self.runtime().alloc())
    }
}

/// The time mark of what the system tells this of; what is no file needs none.
fn time_mark_of(metadata: Option<&Metadata>) -> Option<u128> {
    match metadata {
        Some(metadata) if metadata.is_file() => time_mark(metadata),
        _ => Some(0),
    }
}

impl<R: Files<File = File> + AllocGlobal + Clock + Eprint + Clone + Drop> Sources<HostWorld>
    for HostSources<R> {
    ghost listed = { λ s. None };

    ghost keeps = { λ s. ⊥ };

    ghost given = { λ s. None };

    ghost faults = { λ s. s.faults.count };

    fn look(&mut self, path: &RelPath) -> Result<Look, Failed> {
        match self.tree.look_at(path) {
            Ok(look) => Ok(look),
            Err(error) => {
                tell(self.tree.runtime(), "look at", path.as_str(), &error);
                Err(self.faults.failed(error))
            }
        }
    }

    fn read(&mut self, path: &RelPath) -> Result<(Look, Bytes), Refused> {
        match self.tree.read_at(path) {
            Ok(read) => Ok(read),
            Err(error) => {
                tell(self.tree.runtime(), "read", path.as_str(), &error);
                Err(self.faults.refused(error))
            }
        }
    }

    fn list(&mut self, under: &RelPath, most: usize) -> Result<Items<Found>, Refused> {
        match self.tree.list_at(under, most) {
            Ok(found) => Ok(found),
            Err(error) => {
                tell(self.tree.runtime(), "list", under.as_str(), &error);
                Err(self.faults.refused(error))
            }
        }
    }
}
