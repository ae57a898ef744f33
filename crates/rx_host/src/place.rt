//! The place of the host: files below a root directory, each put there whole.

ghost use Rattle.std.specs.Prelude.{◌≡◌, None};

use crate::below::Below;
use crate::left_files::Swept;
use crate::made::MadeDirs;
use crate::modes::Modes;
use crate::names::FreshNames;
use crate::tells::tell;
use rx_base::RelPath;
use rx_streams::Faults;
use rx_world::{Failed, Place};
use std::fs::Files;
use std::io::{Eprint, Error, ErrorKind};
use std::{fs, io};

/// How many names are tried for one new file.
const WRITE_TRIES: u32 = 4096;

/// The files below a root directory. A new file is written beside its target, with mode 0755 or
/// 0644, and renamed, so that its path has the old file or the new one at any time. What a proxy that was killed left in a
/// directory, as it wrote a file there, is removed before the first file is put there.
#[derive(Drop)]
pub struct HostPlace<R> {
    tree: Below<R>,
    names: FreshNames,
    swept: Swept,
    faults: Faults,
}

impl<R: Files + AllocGlobal + Eprint + Clone + Drop> HostPlace<R> {
    /// The files below this directory, for the process with this number.
    pub fn new(rt: R, root: String, process: u32) -> HostPlace<R>
        ensures { ⟦<HostPlace<R> as Place>⟧.faults result ≡ 0 }
    {
        let swept = Swept::new(rt.alloc());
        HostPlace {
            tree: Below::new(rt, root),
            names: FreshNames::new(process),
            swept,
            faults: Faults::new(),
        }
    }
}

/// Makes the directories above a path, and puts the file there. Where a step fails no new file is
/// left.
fn put<R: Files + AllocGlobal + Clone + Drop>(
    tree: &Below<R>,
    names: &mut FreshNames,
    swept: &mut Swept,
    path: &RelPath,
    bytes: &[u8],
    executable: bool,
) -> io::Result<()> {
    if path.is_root() {
        return Err(Error::from(ErrorKind::IsADirectory));
    }
    // (others change the output tree too, so no directory of an earlier file is relied on)
    let mut made = MadeDirs::new(tree.runtime().alloc());
    let directory = tree.make_parent(&mut made, path)?;
    swept.sweep(tree.runtime(), directory.as_str());
    let target = tree.text_of(path.as_str())?;
    let beside = write_beside(tree, names, directory.as_str(), bytes, executable)?;
    let renamed = fs::rename(tree.runtime(), beside.as_str(), target.as_str());
    if renamed.is_err() {
        let _ = fs::remove_file(tree.runtime(), beside.as_str());
    }
    renamed
}

/// Writes a file that wasn't there into a directory, and answers its path.
fn write_beside<R: Files + AllocGlobal>(
    tree: &Below<R>,
    names: &mut FreshNames,
    directory: &str,
    bytes: &[u8],
    executable: bool,
) -> io::Result<String> {
    let alloc = tree.runtime().alloc();
    let before = format!(in alloc; "{directory}/.")?;
    for _ in 0..WRITE_TRIES {
        let text = names.next(alloc, before.as_str())?;
        match tree.write_new(&mut Modes::cut(), text.as_str(), bytes, executable, None) {
            Ok(()) => return Ok(text),
            Err(error) if error.kind() == ErrorKind::AlreadyExists => {}
            Err(error) => return Err(error),
        }
    }
    Err(Error::from(ErrorKind::AlreadyExists))
}

impl<R: Files + AllocGlobal + Eprint + Clone + Drop> Place for HostPlace<R> {
    ghost contents = { λ s. None };

    ghost opening = { λ s. None };

    ghost faults = { λ s. s.faults.count };

    fn place(&mut self, path: &RelPath, bytes: &[u8], executable: bool) -> Result<(), Failed> {
        let (names, swept) = (&mut self.names, &mut self.swept);
        match put(&self.tree, names, swept, path, bytes, executable) {
            Ok(()) => Ok(()),
            Err(error) => {
                tell(self.tree.runtime(), "place", path.as_str(), &error);
                Err(self.faults.failed(error))
            }
        }
    }
}
