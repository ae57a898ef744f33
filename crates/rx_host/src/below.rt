//! The files below a directory, reached name by name. No link is followed on the way or at the end,
//! so no path leads out of the directory. What the files mean to the proxy is said elsewhere.

use crate::modes::{Modes, mode_of};
use rx_base::RelPath;
use std::fs::{FileTimes, Files, Metadata, OpenFile, OpenOptions};
use std::io::{ErrorKind, Write};
use std::os::unix::fs::{MetadataExt, OpenOptionsExt};
use std::time::SystemTime;
use std::{fs, io};

/// The files below a directory of the machine.
#[derive(Drop)]
pub(crate) struct Below<R> {
    pub(crate) rt: R,
    pub(crate) root: String,
    /// The root's path with no link in it, once it was asked for.
    pub(crate) real_root: Option<String>,
}

/// What stands at a path, and the path's text for the system.
#[derive(Drop)]
pub(crate) struct Standing {
    pub(crate) text: String,
    pub(crate) metadata: Option<Metadata>,
}

impl Standing {
    /// What the system tells of a regular file.
    pub(crate) fn file(&self) -> Option<&Metadata> {
        self.metadata.as_ref().filter(|m| m.is_file())
    }

    /// Whether this is the file that the system told this of.
    pub(crate) fn is_same(&self, other: &Metadata) -> bool {
        match &self.metadata {
            Some(metadata) => metadata.dev() == other.dev() && metadata.ino() == other.ino(),
            None => false,
        }
    }
}

impl<R: Files + AllocGlobal> Below<R> {
    /// The files below this directory, which may itself be named through links.
    pub(crate) fn new(rt: R, root: String) -> Below<R> {
        Below {
            rt,
            root,
            real_root: None,
        }
    }

    pub(crate) fn runtime(&self) -> &R {
        &self.rt
    }

    /// The text for the system of a path, which may end with a slash here.
    pub(crate) fn text_of(&self, path: &str) -> io::Result<String> {
        let room = self.root.len().saturating_add(1).saturating_add(path.len());
        let mut text = String::with_capacity(self.rt.alloc(), room)?;
        text.push_str(self.root.as_str())?;
        push_name(&mut text, path)?;
        Ok(text)
    }

    /// What stands at a path: nothing, where something above it is no directory, or the root has no text.
    pub(crate) fn find(&self, path: &RelPath) -> io::Result<Standing> {
        let standing = self.ask(path)?;
        self.confirm(path, standing)
    }

    /// What the system tells of a path at once, though something above it may be a link.
    pub(crate) fn ask(&self, path: &RelPath) -> io::Result<Standing> {
        if path.is_root() || self.root.is_empty() {
            let text = String::from_str(self.rt.alloc(), self.root.as_str())?;
            let metadata = told(fs::metadata(&self.rt, text.as_str()))?;
            return Ok(Standing { text, metadata });
        }
        let text = self.text_of(path.as_str())?;
        let metadata = self.told_at(path, text.as_str())?;
        Ok(Standing { text, metadata })
    }

    /// What the system tells of a path with this text. That a call fails behind a link is nothing that is told of the path.
    fn told_at(&self, path: &RelPath, text: &str) -> io::Result<Option<Metadata>> {
        match told(fs::symlink_metadata(&self.rt, text)) {
            Ok(metadata) => Ok(metadata),
            Err(error) => {
                if self.is_below_directories(path, text)? {
                    Err(error)
                } else {
                    Ok(None)
                }
            }
        }
    }

    /// The same, or nothing, where something above the path is no directory. What can be reached name by name is found at once too.
    pub(crate) fn confirm(&self, path: &RelPath, standing: Standing) -> io::Result<Standing> {
        if standing.metadata.is_none() || self.is_below_directories(path, standing.text.as_str())? {
            return Ok(standing);
        }
        let text = standing.text;
        Ok(Standing {
            text,
            metadata: None,
        })
    }

    /// Whether each name above a path is a directory's, from the root down. The root is one where anything is found below it.
    pub(crate) fn is_below_directories(&self, path: &RelPath, text: &str) -> io::Result<bool> {
        if path.is_root() {
            return Ok(true);
        }
        let path = path.as_str();
        let root_len = text.len().saturating_sub(path.len());
        for (name_end, _) in path.match_indices('/') {
            let Some(above) = text.get(..root_len.saturating_add(name_end)) else {
                return Ok(false);
            };
            if !is_directory(&told(fs::symlink_metadata(&self.rt, above))?) {
                return Ok(false);
            }
        }
        Ok(true)
    }

    /// Writes a file that isn't there yet, with mode 0755 or 0644, and with this time of modification where there is one. Where it
    /// fails it leaves none.
    pub(crate) fn write_new(
        &self,
        modes: &mut Modes,
        text: &str,
        bytes: &[u8],
        executable: bool,
        modified: Option<SystemTime>,
    ) -> io::Result<()> {
        let mut file = OpenOptions::new()
            .write(true)
            .create_new(true)
            .mode(mode_of(executable))
            .open(&self.rt, text)?;
        let filled = fill(&mut file, modes, bytes, executable, modified);
        if filled.is_err() {
            let _ = fs::remove_file(&self.rt, text);
        }
        filled
    }
}

/// The path of the directory that a path's last name stands in: that of the root is empty.
pub(crate) fn parent_of(path: &str) -> &str {
    match path.rsplit_once('/') {
        Some((above, _)) => above,
        None => "",
    }
}

/// Adds a name to the text of a directory. The empty text, which is no directory's, never becomes
/// the root of the machine.
pub(crate) fn push_name(text: &mut String, name: &str) -> io::Result<()> {
    if !text.is_empty() {
        text.push('/')?;
    }
    text.push_str(name)?;
    Ok(())
}

/// Writes all bytes, and sees to the mode and the time of modification.
fn fill<F: Write + OpenFile>(
    file: &mut F,
    modes: &mut Modes,
    bytes: &[u8],
    executable: bool,
    modified: Option<SystemTime>,
) -> io::Result<()> {
    file.write_all(bytes)?;
    modes.settle(file, executable)?;
    match modified {
        Some(time) => file.set_times(FileTimes::new().set_modified(time)),
        None => Ok(()),
    }
}

/// Whether the system tells of a directory.
fn is_directory(metadata: &Option<Metadata>) -> bool {
    metadata.as_ref().is_some_and(|m| m.is_dir())
}

/// What a call told, or `None` where nothing stands at its path.
pub(crate) fn told<T: Drop>(answer: io::Result<T>) -> io::Result<Option<T>> {
    match answer {
        Ok(value) => Ok(Some(value)),
        Err(error) => match error.kind() {
            ErrorKind::NotFound | ErrorKind::NotADirectory => Ok(None),
            _ => Err(error),
        },
    }
}
