//! Whether a proxy that is gone left something behind. Removed is only what has a name of a proxy's own, belongs to this
//! user, and is of a process that is gone.

use crate::names::owned_in;
use std::fs::Files;
use std::io::ErrorKind;
use std::os::unix::fs::MetadataExt;
use std::{fs, io};

/// An error, unless a name is one of a proxy's own, and its process is gone.
pub(crate) fn check_gone<R: Files + AllocGlobal>(rt: &R, name: &str) -> io::Result<()> {
    let Some(owned) = owned_in(rt.alloc(), name)? else {
        return Err(kept());
    };
    let process = owned.process;
    let text = format!(in rt.alloc(); "/proc/{process}")?;
    match fs::symlink_metadata(rt, text.as_str()) {
        Err(error) if error.kind() == ErrorKind::NotFound => Ok(()),
        _ => Err(kept()),
    }
}

/// The user of this process, where the system tells of processes.
pub(crate) fn own_user(rt: &impl Files) -> Option<u32> {
    Some(fs::metadata(rt, "/proc/self").ok()?.uid())
}

/// The error of what isn't removed.
pub(crate) fn kept() -> io::Error {
    io::Error::from(ErrorKind::PermissionDenied)
}
