//! The files of an input tree as they were seen, before their digests are known.

ghost use Rattle.std.specs.Prelude.{◌≡◌, ◌++◌, IfOk, OnOk, filter_map};
ghost use Rattle.std.specs.Option.{option_to_list};
ghost use Rattle.rx_scan.specs.SeenFiles.{file_of, file_seen};

use rx_base::{Items, NoMemory, RelPath, TryClone};
use rx_reach::Sights;
use rx_world::{Look, Stamp};
use std::alloc::Global;

/// A file as it was seen: its path, its stamp, and whether its owner may execute it.
#[derive(Debug, Drop)]
pub(crate) struct SeenFile {
    pub path: RelPath,
    pub stamp: Stamp,
    pub executable: bool,
}

/// The files among these paths as they were seen, in the order of the paths.
pub(crate) fn files_seen(
    alloc: Global,
    sights: &Sights,
    paths: &[RelPath],
) -> Result<Items<SeenFile>, NoMemory>
    ensures { IfOk result (λ files. files ≡ filter_map (file_seen sights.now) paths.now) }
{
    let mut files = Items::new(alloc);
    for path in paths {
        let file = file_seen(alloc, sights, path)?;
        add_file(&mut files, file)?;
    }
    Ok(files)
}

/// The file that was seen at a path, where it was one.
fn file_seen(alloc: Global, sights: &Sights, path: &RelPath) -> Result<Option<SeenFile>, NoMemory>
    ensures { IfOk result (λ file. file ≡ file_seen sights.now path.now) }
{
    match sights.seen(path) {
        Some(look) => file_of(alloc, path, look),
        None => Ok(None),
    }
}

/// A file with this look.
fn file_of(alloc: Global, path: &RelPath, look: Look) -> Result<Option<SeenFile>, NoMemory>
    ensures { IfOk result (λ file. file ≡ file_of path.now look) }
{
    match look {
        Look::File { stamp, executable } => Ok(Some(SeenFile {
            path: path.try_clone(alloc)?,
            stamp,
            executable,
        })),
        Look::Absent | Look::Dir | Look::Other => Ok(None),
    }
}

/// Adds a file, where there is one.
fn add_file(files: &mut Items<SeenFile>, file: Option<SeenFile>) -> Result<(), NoMemory>
    ensures { OnOk result (files.new ≡ files.old ++ option_to_list file) }
{
    match file {
        Some(file) => {
            files.push(file)?;
            Ok(())
        }
        None => Ok(()),
    }
}
