//! Which directories were made below a directory, or found there, and which directory each was. So one
//! call tells whether a directory still stands there, in place of a call for each name above it.

use crate::modes::Modes;
use std::alloc::Global;
use std::collections::BTreeMap;
use std::fs::Metadata;
use std::os::unix::fs::MetadataExt;
use std::time::SystemTime;

/// Which directory it is. Once a directory is gone, another may get its number: the time at which it
/// was made, where that is told, tells the two from each other.
#[derive(Clone, Copy, PartialEq, Eq)]
pub(crate) struct Identity {
    device: u64,
    number: u64,
    made: Option<SystemTime>,
}

impl Identity {
    fn of(metadata: &Metadata) -> Identity {
        Identity {
            device: metadata.dev(),
            number: metadata.ino(),
            made: metadata.created().ok(),
        }
    }

    /// Whether the system told this of the same directory.
    pub(crate) fn is_of(&self, metadata: &Metadata) -> bool {
        *self == Identity::of(metadata)
    }
}

/// Directories by their texts for the system, and what becomes of the modes of files there.
#[derive(Drop)]
pub(crate) struct MadeDirs {
    by_text: BTreeMap<String, Identity>,
    /// That into which files are being put, one after the other.
    entered: Option<String>,
    modes: Modes,
}

impl MadeDirs {
    /// None was made yet. It takes no memory.
    pub(crate) fn new(alloc: Global) -> MadeDirs {
        MadeDirs {
            by_text: BTreeMap::new(alloc),
            entered: None,
            modes: Modes::unknown(),
        }
    }

    /// What becomes of the modes of new files in the directory above all, and in those that were made.
    pub(crate) fn modes(&mut self) -> &mut Modes {
        &mut self.modes
    }

    /// A directory was there already, and may take other bits from a mode than those that were made.
    pub(crate) fn find_other(&mut self) {
        self.modes = Modes::cut();
    }

    /// Whether files are being put into this directory.
    pub(crate) fn is_entered(&self, text: &str) -> bool {
        match &self.entered {
            Some(entered) => entered.as_str() == text,
            None => false,
        }
    }

    /// Files are put into this directory from here on. One that wasn't made here, or for which memory is wanting, isn't entered.
    pub(crate) fn enter(&mut self, alloc: Global, text: &str) {
        if self.by_text.contains_key(text) {
            self.entered = String::from_str(alloc, text).ok();
        }
    }

    /// No more files are put into this directory, which was entered.
    pub(crate) fn leave(&mut self) -> Option<String> {
        self.entered.take()
    }

    /// Which directory was made at this text. It takes no memory.
    pub(crate) fn find(&self, text: &str) -> Option<&Identity> {
        self.by_text.get(text)
    }

    /// The lowest directory at or above this text that was made, as the first part of the text, or
    /// `None`. It takes no memory.
    pub(crate) fn lowest<'a>(&self, text: &'a str) -> Option<&'a str> {
        let mut lowest = text;
        for _ in 0..text.len() {
            if self.by_text.contains_key(lowest) {
                return Some(lowest);
            }
            lowest = lowest.rsplit_once('/')?.0;
        }
        None
    }

    /// Keeps that this directory was made at this text, in place of what was kept of the text. Where
    /// memory is wanting all stays as it was.
    pub(crate) fn keep(&mut self, alloc: Global, text: &str, metadata: &Metadata) {
        if let Ok(text) = String::from_str(alloc, text) {
            let _ = self.by_text.insert(text, Identity::of(metadata));
        }
    }
}
