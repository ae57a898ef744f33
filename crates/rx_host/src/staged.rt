//! Staged directories, each of which is removed when it is no longer used.

use crate::children::Children;
use crate::tells::tell;
use std::alloc::Global;
use std::fs::{File, Files};
use std::io::Eprint;
use std::sync::Arc;
use std::{fs, io};

/// A directory in which a bench's programs run. Its bench uses it, and so does each program that runs there. A lock tells
/// other proxies that somebody does, also those that count their processes apart from this one.
#[derive(Drop)]
pub(crate) struct Staged {
    root: String,
    /// The directory, locked, where the system has such locks.
    _lock: Option<File>,
}

impl Staged {
    /// The use of a directory that is there.
    pub(crate) fn new<R: Files<File = File>>(rt: &R, root: String) -> Staged {
        let lock = lock_of(rt, root.as_str());
        Staged { root, _lock: lock }
    }
}

/// Locks a directory, until its handle is dropped.
fn lock_of<R: Files<File = File>>(rt: &R, root: &str) -> Option<File> {
    let directory = fs::open(rt, root).ok()?;
    directory.try_lock_shared().ok()?;
    Some(directory)
}

/// Gives one use of a directory up. With the last one the directory is removed, with all that is in it.
pub(crate) fn give_up<R: Files + AllocGlobal + Eprint>(
    rt: &R,
    staged: Arc<Staged, Global>,
) -> io::Result<()> {
    match Arc::into_inner(staged) {
        Some(last) => remove(rt, last.root.as_str()),
        None => Ok(()),
    }
}

/// Does so in a thread of its own, for which whoever ends the process waits as for programs.
pub(crate) fn clear(rt: HostRuntime, staged: Arc<Staged, Global>, children: Children) {
    let _ = give_up(&rt, staged);
    children.end();
}

fn remove<R: Files + AllocGlobal + Eprint>(rt: &R, root: &str) -> io::Result<()> {
    let removed = fs::remove_dir_all(rt, root);
    if let Err(error) = &removed {
        tell(rt, "remove", root, error);
    }
    removed
}
