//! The files at or below a path of the host, in the order of their paths' bytes.

use crate::below::Below;
use rx_base::{Items, PathFault, RelPath};
use rx_world::{Found, Look};
use std::alloc::{AllocError, Global};
use std::collections::BTreeMap;
use std::fs::{DirEntry, File, Files};
use std::io::{Error, ErrorKind};
use std::{fs, io};

/// Paths that are still to be taken, with their looks, the least first. The text of a directory ends
/// with a slash, as what is below it begins; the root's is empty. So a directory's files come where
/// the directory stands, and what is taken comes in the order of the bytes.
type Waiting = BTreeMap<String, Look>;

impl<R: Files<File = File> + AllocGlobal + Clone + Drop> Below<R> {
    /// The files at or below a path: at most one more than `most`.
    pub(crate) fn list_at(&mut self, under: &RelPath, most: usize) -> io::Result<Items<Found>> {
        let alloc = self.runtime().alloc();
        let mut found = Vec::new(alloc);
        let mut waiting = self.begin(alloc, under)?;
        for _ in 0..u64::MAX {
            let Some((text, look)) = waiting.pop_first() else {
                break;
            };
            if look == Look::Dir {
                self.add_entries(alloc, &mut waiting, text.as_str())?;
                continue;
            }
            let path = path_of(alloc, text.as_str())?;
            found.push(Found { path, look })?;
            if found.len() > most {
                break;
            }
        }
        Ok(Items::from_vec(found))
    }

    /// The path at which a list begins.
    fn begin(&mut self, alloc: Global, under: &RelPath) -> io::Result<Waiting> {
        let mut waiting = BTreeMap::new(alloc);
        let standing = self.find(under)?;
        let look = self.look_of(under, standing.metadata.as_ref())?;
        add(&mut waiting, text_of(alloc, "", under.as_str())?, look)?;
        Ok(waiting)
    }

    /// Adds what stands in a directory, which may be gone again.
    fn add_entries(
        &mut self,
        alloc: Global,
        waiting: &mut Waiting,
        directory: &str,
    ) -> io::Result<()> {
        let text = self.text_of(directory)?;
        let entries = match fs::read_dir(self.runtime(), text.as_str()) {
            Ok(entries) => entries,
            Err(error) if error.kind() == ErrorKind::NotFound => return Ok(()),
            Err(error) => return Err(error),
        };
        for entry in entries {
            self.add_entry(alloc, waiting, directory, &entry?)?;
        }
        Ok(())
    }

    /// Adds one entry of a directory.
    fn add_entry(
        &mut self,
        alloc: Global,
        waiting: &mut Waiting,
        directory: &str,
        entry: &DirEntry<R>,
    ) -> io::Result<()> {
        let text = text_of(alloc, directory, entry.file_name())?;
        let metadata = match entry.metadata() {
            Ok(metadata) => metadata,
            Err(error) if error.kind() == ErrorKind::NotFound => return Ok(()),
            Err(error) => return Err(error),
        };
        let path = path_of(alloc, text.as_str())?;
        let look = self.look_of(&path, Some(&metadata))?;
        add(waiting, text, look)?;
        Ok(())
    }
}

/// The text of an entry of a directory.
fn text_of(alloc: Global, directory: &str, name: &str) -> Result<String, AllocError> {
    let mut text = String::from_str(alloc, directory)?;
    text.push_str(name)?;
    Ok(text)
}

/// Adds a file or a directory; anything else isn't listed.
fn add(waiting: &mut Waiting, text: String, look: Look) -> Result<(), AllocError> {
    let mut text = text;
    match look {
        Look::Absent | Look::Other => return Ok(()),
        Look::Dir if !text.is_empty() => text.push('/')?,
        Look::Dir | Look::File { .. } => {}
    }
    waiting.insert(text, look)?;
    Ok(())
}

/// The path that a text names. The file system allows longer ones than a path has.
fn path_of(alloc: Global, text: &str) -> io::Result<RelPath> {
    match RelPath::read(alloc, text) {
        Ok(path) => Ok(path),
        Err(PathFault::NoMemory) => Err(Error::from(AllocError)),
        Err(_) => Err(Error::from(ErrorKind::InvalidFilename)),
    }
}
