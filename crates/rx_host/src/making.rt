//! Directories below a directory, made where they are missing. No link is followed.

use crate::below::{Below, parent_of, push_name};
use crate::made::MadeDirs;
use rx_base::RelPath;
use std::fs::Files;
use std::io::{Error, ErrorKind};
use std::{fs, io};

impl<R: Files + AllocGlobal> Below<R> {
    /// Makes a directory, and those above it, where they are missing, and answers its text. One that
    /// was made before, and still stands there, isn't made again.
    pub(crate) fn make_dirs(&self, made: &mut MadeDirs, path: &str) -> io::Result<String> {
        let mut text = String::from_str(self.rt.alloc(), self.root.as_str())?;
        if path.is_empty() {
            return Ok(text);
        }
        let whole = self.text_of(path)?;
        let mut missing = path;
        if let Some((there, below)) = self.split_at_made(made, whole.as_str()) {
            text = String::from_str(self.rt.alloc(), there)?;
            missing = below;
        }
        for name in missing.split('/') {
            if !name.is_empty() {
                push_name(&mut text, name)?;
                self.make_one(made, text.as_str())?;
            }
        }
        Ok(text)
    }

    /// Makes the directories above a path that are missing, and answers the text of the last.
    pub(crate) fn make_parent(&self, made: &mut MadeDirs, path: &RelPath) -> io::Result<String> {
        self.make_dirs(made, parent_of(path.as_str()))
    }

    /// Whether the directory that was made at this text still stands there: it is no link, and it is the same as then.
    pub(crate) fn is_there(&self, made: &MadeDirs, text: &str) -> bool {
        match made.find(text) {
            Some(identity) => match fs::symlink_metadata(&self.rt, text) {
                Ok(metadata) => identity.is_of(&metadata),
                Err(_) => false,
            },
            None => false,
        }
    }

    /// Sees to the directory in which a file is to stand. The files that are put into one directory, one after the other, ask but once
    /// for it, and once more as it is left.
    pub(crate) fn enter_parent(
        &self,
        made: &mut MadeDirs,
        path: &RelPath,
        text: &str,
    ) -> io::Result<()> {
        let above = parent_of(text);
        if made.is_entered(above) {
            return Ok(());
        }
        self.leave(made)?;
        if !self.is_there(made, above) {
            self.make_parent(made, path)?;
        }
        made.enter(self.rt.alloc(), above);
        Ok(())
    }

    /// Leaves the directory into which files were put. An error, where it isn't the one any more that was entered: then some of them may
    /// stand elsewhere.
    pub(crate) fn leave(&self, made: &mut MadeDirs) -> io::Result<()> {
        match made.leave() {
            Some(text) if !self.is_there(made, text.as_str()) => {
                Err(Error::other("a directory was replaced while files were put into it"))
            }
            _ => Ok(()),
        }
    }

    /// The text of the lowest directory at or above this text that was made, and what follows it, where
    /// it still stands there.
    fn split_at_made<'a>(&self, made: &MadeDirs, text: &'a str) -> Option<(&'a str, &'a str)> {
        let lowest = made.lowest(text)?;
        if !self.is_there(made, lowest) {
            return None;
        }
        Some((lowest, text.strip_prefix(lowest)?))
    }

    /// Makes one directory, unless it is there. A link to a directory is none.
    fn make_one(&self, made: &mut MadeDirs, text: &str) -> io::Result<()> {
        match fs::create_dir(&self.rt, text) {
            Ok(()) => {}
            Err(error) if error.kind() == ErrorKind::AlreadyExists => made.find_other(),
            Err(error) => return Err(error),
        }
        let metadata = fs::symlink_metadata(&self.rt, text)?;
        if !metadata.is_dir() {
            return Err(Error::from(ErrorKind::NotADirectory));
        }
        made.keep(self.rt.alloc(), text, &metadata);
        Ok(())
    }
}
