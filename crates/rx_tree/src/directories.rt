//! The Directory messages of entries in order, from the leaves up.

ghost use Rattle.std.specs.Prelude.{◌≡◌, ◌++◌, IfOk, OnOk, map};
ghost use Rattle.rx_base.specs.Digests.{digest_of};
ghost use Rattle.rx_tree.specs.Blobs.{blob_of};
ghost use Rattle.rx_tree.specs.Entries.{content_of};
ghost use Rattle.rx_tree.specs.Planting.{IsReady, ReadsAgain, ReadsAgainBelow, run_length};
ghost use Rattle.rx_tree.specs.Trees.{all_bytes, directory_node, file_node, rests, tree_bytes, tree_of};

use crate::blobs::Blob;
use crate::entries::Entry;
use rx_base::{Digest, Items, NoMemory, Text};
use rx_messages::{Directory, DirectoryNode, FileNode, Message};
use rx_world::InputFile;
use std::alloc::Global;

/// How many entries in front go on alike with the first.
fn run_len(entries: &[Entry<'_>], first: &Entry<'_>, depth: usize) -> usize
    ensures { result ≡ run_length depth first.now entries.now }
{
    entries
        .iter()
        .take_while(|entry| first.goes_alike(entry, depth))
        .count()
}

/// Adds the Directories of some entries, those below before those above, and gives the digest of
/// the upmost. The entries lie in one directory, whose path has so many names.
pub(crate) fn add_directories(
    alloc: Global,
    entries: &[Entry<'_>],
    depth: usize,
    blobs: &mut Vec<Blob>,
) -> Result<Digest, NoMemory>
    requires { IsReady (rests depth entries.now) }
    ensures root { IfOk result (λ digest.
        digest ≡ digest_of (tree_bytes (tree_of (rests depth entries.now)))) }
    ensures blobs { OnOk result (blobs.new.items
        ≡ blobs.old.items ++ map blob_of (all_bytes (tree_of (rests depth entries.now)))) }
    ensures again { IfOk result (λ _. ReadsAgain (tree_of (rests depth entries.now))
        × ReadsAgainBelow (tree_of (rests depth entries.now))) }
{
    let mut files = Vec::new(alloc);
    let mut directories = Vec::new(alloc);
    let mut at = 0;
    while at < entries.len() {
        let (_, rest) = entries.split_at(at);
        let first = &rest[0];
        let (run, _) = rest.split_at(run_len(rest, first, depth));
        if let Some(name) = first.name(depth) {
            match first.file_after(depth + 1) {
                Some(file) => files.push(file_node(alloc, name, file)?)?,
                None => {
                    let digest = add_directories(alloc, run, depth + 1, blobs)?;
                    directories.push(directory_node(alloc, name, digest)?)?;
                }
            }
        }
        at += run.len();
    }
    let directory = Directory {
        files: Items::from_vec(files),
        directories: Items::from_vec(directories),
        symlinks: Items::new(alloc),
    };
    let blob = Blob::of_bytes(directory.encode(alloc)?);
    let digest = blob.digest;
    blobs.push(blob)?;
    Ok(digest)
}

/// The node of a file.
fn file_node(alloc: Global, name: &str, file: &InputFile) -> Result<FileNode, NoMemory>
    ensures { IfOk result (λ node. node ≡ file_node name.now (content_of file.now)) }
{
    Ok(FileNode {
        name: Text::copy_of(alloc, name)?,
        digest: Some(file.digest),
        is_executable: file.executable,
    })
}

/// The node of a directory.
fn directory_node(alloc: Global, name: &str, digest: Digest) -> Result<DirectoryNode, NoMemory>
    ensures { IfOk result (λ node. node ≡ directory_node name.now digest) }
{
    Ok(DirectoryNode {
        name: Text::copy_of(alloc, name)?,
        digest: Some(digest),
    })
}
