//! The walk over Directories that are named by digests, depth first, each directory by its names.

ghost use Rattle.std.specs.Prelude.{◌≡◌, ◌<◌, ◌+◌, ℕ, [], OnOk};
ghost use Rattle.rx_base.specs.Results.{Gives};
ghost use Rattle.rx_tree.specs.declared.tree_fault.TreeFault.TheVariants as fault;
ghost use Rattle.rx_tree.specs.Refusals.{most_files};
ghost use Rattle.rx_tree.specs.Walks.{child_of, directory_at, entered, entered_with, is_bare, walked, with_files, with_subs};

use crate::listings::TreeFile;
use crate::refusals::MAX_FILES;
use crate::shelves::Shelf;
use crate::tree_fault::TreeFault;
use rx_base::{Digest, Items, PathFault, RelPath, Text, TryClone};
use rx_messages::{Directory, DirectoryNode, FileNode, Message, MessageFault};
use std::alloc::Global;

/// What a walk has seen: how many directories it entered, the files, and the directories without any
/// entry.
#[derive(Drop)]
pub(crate) struct Seen {
    pub(crate) entered: usize,
    pub(crate) files: Items<TreeFile>,
    pub(crate) dirs: Items<RelPath>,
}

/// A directory that is to be entered.
#[derive(Drop)]
pub(crate) struct Sub {
    path: RelPath,
    digest: Digest,
}

/// The path of a name in a directory.
#[tactic(auto, unfolding(crate::specs::Walks::child_of))]
fn child_of(
    alloc: Global,
    digest: &Digest,
    path: &RelPath,
    name: &Text,
) -> Result<RelPath, TreeFault>
    ensures { Gives fault.NoMemory (λ child. child) result (child_of digest.now path.now name.now) }
{
    match path.join(alloc, name.as_str()) {
        Ok(child) => Ok(child),
        Err(PathFault::NoMemory) => Err(TreeFault::NoMemory),
        Err(_) => Err(TreeFault::NotCanonical(*digest)),
    }
}

/// The Directory that a digest names.
fn directory_at(alloc: Global, shelf: &Shelf<'_>, digest: &Digest) -> Result<Directory, TreeFault>
    ensures { Gives fault.NoMemory (λ directory. directory) result
        (directory_at digest.now shelf.now) }
{
    let Some(bytes) = shelf.get(digest) else {
        return Err(TreeFault::MissingBlob(*digest));
    };
    match Directory::decode(alloc, bytes) {
        Ok(directory) => Ok(directory),
        Err(MessageFault::NoMemory) => Err(TreeFault::NoMemory),
        Err(_) => Err(TreeFault::NotCanonical(*digest)),
    }
}

/// Adds the files of a directory.
fn add_files(
    alloc: Global,
    digest: &Digest,
    path: &RelPath,
    nodes: &[FileNode],
    files: &mut Items<TreeFile>,
) -> Result<(), TreeFault>
    ensures { Gives fault.NoMemory (λ _. files.new) result
        (with_files digest.now path.now nodes.now files.old) }
{
    for node in nodes {
        let child = child_of(alloc, digest, path, &node.name)?;
        let Some(content) = node.digest else {
            return Err(TreeFault::NotCanonical(*digest));
        };
        files.push(TreeFile {
            path: child,
            digest: content,
            executable: node.is_executable,
        })?;
    }
    Ok(())
}

/// The directories of a directory.
fn subs_of(
    alloc: Global,
    digest: &Digest,
    path: &RelPath,
    nodes: &[DirectoryNode],
) -> Result<Items<Sub>, TreeFault>
    ensures { Gives fault.NoMemory (λ subs. subs) result
        (with_subs digest.now path.now nodes.now []) }
{
    let mut subs = Items::new(alloc);
    for node in nodes {
        let child = child_of(alloc, digest, path, &node.name)?;
        let Some(content) = node.digest else {
            return Err(TreeFault::NotCanonical(*digest));
        };
        subs.push(Sub {
            path: child,
            digest: content,
        })?;
    }
    Ok(subs)
}

/// Whether a Directory has no entry.
fn is_bare(directory: &Directory) -> bool
    ensures { result ≡ is_bare directory.now }
{
    directory.files.is_empty() && directory.directories.is_empty() && directory.symlinks.is_empty()
}

/// Enters a directory, and gives those that are to be entered next.
#[tactic(auto, unfolding(crate::specs::Walks::entered))]
fn enter(
    alloc: Global,
    shelf: &Shelf<'_>,
    digest: &Digest,
    path: &RelPath,
    seen: &mut Seen,
) -> Result<Items<Sub>, TreeFault>
    ensures entered { Gives fault.NoMemory (entered_with seen.new) result
        (entered shelf.now digest.now path.now seen.old) }
    ensures counts { OnOk result
        ((seen.old.entered < most_files) × (seen.new.entered ≡ seen.old.entered + 1)) }
{
    if seen.entered >= MAX_FILES {
        return Err(TreeFault::TooManyFiles);
    }
    seen.entered += 1;
    let directory = directory_at(alloc, shelf, digest)?;
    add_files(
        alloc,
        digest,
        path,
        directory.files.as_slice(),
        &mut seen.files,
    )?;
    let subs = subs_of(alloc, digest, path, directory.directories.as_slice())?;
    if seen.files.len() > MAX_FILES {
        return Err(TreeFault::TooManyFiles);
    }
    if !path.is_root() && is_bare(&directory) {
        seen.dirs.push(path.try_clone(alloc)?)?;
    }
    Ok(subs)
}

/// Enters a directory and all below it. It counts itself at least.
pub(crate) fn walk(
    alloc: Global,
    shelf: &Shelf<'_>,
    digest: &Digest,
    path: &RelPath,
    seen: &mut Seen,
) -> Result<(), TreeFault>
    ensures walked { (most : ℕ) → most_files < most + seen.old.entered →
        Gives fault.NoMemory (λ _. seen.new) result
        (walked most shelf.now digest.now path.now seen.old) }
    ensures counts { OnOk result (seen.old.entered < seen.new.entered) }
{
    let subs = enter(alloc, shelf, digest, path, seen)?;
    for sub in subs.as_slice() {
        walk(alloc, shelf, &sub.digest, &sub.path, seen)?;
    }
    Ok(())
}
