//! The sandboxes of proxies that were killed.

use crate::children::Children;
use crate::hands::Hands;
use crate::leftovers::{check_gone, kept, own_user};
use std::fs::{DirEntry, File, Files};
use std::os::unix::fs::MetadataExt;
use std::{fs, io, thread};

/// Removes the sandboxes that were left in a directory, and answers how many. Where the system doesn't tell of its
/// processes (Linux, proc(5)), none is removed.
pub fn remove_left_sandboxes<R: Files<File = File> + AllocGlobal + Clone + Drop>(
    rt: &R,
    scratch: &str,
) -> u64 {
    let (Some(user), Ok(entries)) = (own_user(rt), fs::read_dir(rt, scratch)) else {
        return 0;
    };
    let mut removed = 0u64;
    for entry in entries {
        if let Ok(entry) = entry {
            if remove_left_sandbox(rt, user, &entry).is_ok() {
                removed = removed.saturating_add(1);
            }
        }
    }
    removed
}

/// Has a thread remove them, so that nobody waits until that is done but who ends the process, and tells how many they
/// were.
pub fn remove_left_aside<H: Hands>(
    rt: HostRuntime,
    hands: &H,
    scratch: String,
    children: Children,
) {
    children.begin();
    let removing = move || remove_and_tell(rt, scratch, children);
    if let Err(refused) = thread::spawn(hands, removing) {
        (refused.value)();
    }
}

fn remove_and_tell(rt: HostRuntime, scratch: String, children: Children) {
    let removed = remove_left_sandboxes(&rt, scratch.as_str());
    if removed > 0 {
        let _ = eprintln!(rt; "reproxy: {scratch}: removed sandboxes that were left: {removed}");
    }
    children.end();
}

/// Removes a directory that was left. One in which a bench is held isn't: its proxy may count its processes apart from
/// this one, as in a container.
fn remove_left_sandbox<R: Files<File = File> + AllocGlobal + Clone + Drop>(
    rt: &R,
    user: u32,
    entry: &DirEntry<R>,
) -> io::Result<()> {
    check_gone(rt, entry.file_name())?;
    let metadata = entry.metadata()?;
    if !metadata.is_dir() || metadata.uid() != user {
        return Err(kept());
    }
    let directory = fs::open(rt, entry.path())?;
    if directory.try_lock().is_err() {
        return Err(kept());
    }
    fs::remove_dir_all(rt, entry.path())
}
