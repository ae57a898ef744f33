//! The files that proxies were writing into the output tree as they were killed.

use crate::leftovers::{check_gone, kept, own_user};
use std::alloc::Global;
use std::collections::BTreeSet;
use std::fs::{DirEntry, Files};
use std::os::unix::fs::MetadataExt;
use std::{fs, io};

/// In how many directories at most a run looks for them.
const MOST_SWEPT: usize = 4096;

/// The directories of the output tree in which files that were left have been looked for, once in a run.
#[derive(Drop)]
pub(crate) struct Swept {
    directories: BTreeSet<String>,
}

impl Swept {
    /// None yet. It takes no memory.
    pub(crate) fn new(alloc: Global) -> Swept {
        Swept {
            directories: BTreeSet::new(alloc),
        }
    }

    /// Removes the files that were left in a directory, unless that was done in this run. That some aren't removed is no
    /// fault.
    pub(crate) fn sweep<R: Files + AllocGlobal + Clone + Drop>(&mut self, rt: &R, directory: &str) {
        if self.directories.contains(directory) || self.directories.len() >= MOST_SWEPT {
            return;
        }
        let Ok(text) = String::from_str(rt.alloc(), directory) else {
            return;
        };
        if self.directories.insert(text).is_ok() {
            remove_left_files(rt, directory);
        }
    }
}

/// Removes the files that were left in a directory.
fn remove_left_files<R: Files + AllocGlobal + Clone + Drop>(rt: &R, directory: &str) {
    let (Some(user), Ok(entries)) = (own_user(rt), fs::read_dir(rt, directory)) else {
        return;
    };
    for entry in entries {
        if let Ok(entry) = entry {
            let _ = remove_left_file(rt, user, &entry);
        }
    }
}

/// Removes a file that was being written. Its name is hidden.
fn remove_left_file<R: Files + AllocGlobal + Clone + Drop>(
    rt: &R,
    user: u32,
    entry: &DirEntry<R>,
) -> io::Result<()> {
    let Some(name) = entry.file_name().strip_prefix('.') else {
        return Err(kept());
    };
    check_gone(rt, name)?;
    let metadata = entry.metadata()?;
    if !metadata.is_file() || metadata.uid() != user {
        return Err(kept());
    }
    fs::remove_file(rt, entry.path())
}
