//! `tree CALL ..`: trees of files, as Directory messages. Each file holds `abc`, and a file whose path
//! ends by `z` may be executed.

use crate::arguments::{paths, write_digest, write_path, write_paths};
use rx_base::{Bytes, Digest, Items, NoMemory, RelPath, Text, TryClone, digest_of};
use rx_messages::{Directory, DirectoryNode, Message};
use rx_rows::{RowFault, Turn};
use rx_tree::{Blob, Built, Listed, TreeFault, TreeFile, build, list_of};
use rx_world::{InputFile, Stamp};
use std::alloc::Global;

/// Makes the call that the next word names.
pub(crate) fn call(turn: &mut Turn<'_, '_>) {
    match turn.read_word() {
        "build" => build_tree(turn),
        "blobs" => blobs(turn),
        "list" => list(turn),
        "read" => read(turn),
        "many" => many(turn),
        "cycle" => cycle(turn),
        _ => turn.refuse(RowFault::NoCall),
    }
}

/// A file that holds `abc`.
fn file(path: RelPath) -> InputFile {
    let executable = path.as_str().ends_with('z');
    InputFile {
        path,
        digest: digest_of(b"abc"),
        stamp: Stamp { size: 3, mark: 1 },
        executable,
    }
}

/// The files at these paths.
fn files(alloc: Global, paths: Items<RelPath>) -> Result<Vec<InputFile>, NoMemory> {
    let mut files = Vec::new(alloc);
    for path in paths.into_vec() {
        files.push(file(path))?;
    }
    Ok(files)
}

/// The tree of the files and directories that the next two words name.
fn tree(turn: &mut Turn<'_, '_>) -> Result<Built, TreeFault> {
    let alloc = turn.alloc();
    let paths_of_files = paths(turn);
    let dirs = paths(turn);
    build(alloc, &files(alloc, paths_of_files)?, dirs.as_slice())
}

/// Writes why there is no tree.
fn write_fault(fault: &TreeFault, turn: &mut Turn<'_, '_>) {
    match fault {
        TreeFault::TooManyFiles => turn.write_word("TooManyFiles"),
        TreeFault::DuplicatePath(path) => {
            turn.write_word("DuplicatePath");
            write_path(path, turn);
        }
        TreeFault::FileUnderFile(file, below) => {
            turn.write_word("FileUnderFile");
            write_path(file, turn);
            write_path(below, turn);
        }
        TreeFault::MissingBlob(digest) => {
            turn.write_word("MissingBlob");
            write_digest(digest, turn);
        }
        TreeFault::NotCanonical(digest) => {
            turn.write_word("NotCanonical");
            write_digest(digest, turn);
        }
        TreeFault::NoMemory => turn.refuse(RowFault::NoMemory),
    }
}

/// `build FILES DIRECTORIES`: the root's digest, and how many blobs there are.
fn build_tree(turn: &mut Turn<'_, '_>) {
    match &tree(turn) {
        Ok(built) => {
            write_digest(&built.root, turn);
            turn.write_number(built.blobs.len() as u64);
        }
        Err(fault) => write_fault(fault, turn),
    }
}

/// `blobs FILES DIRECTORIES`: the bytes of each blob, in the order of their digests.
fn blobs(turn: &mut Turn<'_, '_>) {
    match tree(turn) {
        Ok(built) => write_blobs(built.blobs, turn),
        Err(fault) => write_fault(&fault, turn),
    }
}

fn write_blobs(blobs: Items<Blob>, turn: &mut Turn<'_, '_>) {
    let mut blobs = blobs.into_vec();
    if blobs.sort().is_err() {
        turn.refuse(RowFault::NoMemory);
    }
    for blob in &blobs {
        turn.write_text(blob.bytes.as_slice());
    }
}

/// `list FILES DIRECTORIES`: the files of the tree, and its directories with nothing in them, as they are
/// read from its blobs.
fn list(turn: &mut Turn<'_, '_>) {
    match &tree(turn) {
        Ok(built) => write_listed(&built.root, built.blobs.as_slice(), turn),
        Err(fault) => write_fault(fault, turn),
    }
}

/// Writes the files that blobs give, and the directories.
fn write_listed(root: &Digest, blobs: &[Blob], turn: &mut Turn<'_, '_>) {
    match &list_of(turn.alloc(), root, blobs) {
        Ok(listed) => write_files(listed, turn),
        Err(fault) => write_fault(fault, turn),
    }
}

fn write_files(listed: &Listed, turn: &mut Turn<'_, '_>) {
    for file in listed.files.as_slice() {
        write_file(file, turn);
    }
    turn.write_word("and");
    write_paths(listed.dirs.as_slice(), turn);
}

/// Writes a file's path and size, with `x` where it may be executed.
fn write_file(file: &TreeFile, turn: &mut Turn<'_, '_>) {
    write_path(&file.path, turn);
    turn.write_number(file.digest.size);
    if file.executable {
        turn.write_word("x");
    }
}

/// `read TEXT [BLOB]`: what is listed from the digest of a text, where a blob has that digest.
fn read(turn: &mut Turn<'_, '_>) {
    let root = digest_of(&turn.read_text());
    if turn.is_done() {
        return write_listed(&root, &[], turn);
    }
    let blob = Blob {
        digest: root,
        bytes: Bytes::from_vec(turn.read_text()),
    };
    write_listed(&root, &[blob], turn);
}

/// `many COUNT`: what is built of so many files at one path.
fn many(turn: &mut Turn<'_, '_>) {
    let count = turn.read_number();
    match many_files(turn.alloc(), count) {
        Ok(files) => write_root(&files, turn),
        Err(_) => turn.refuse(RowFault::NoMemory),
    }
}

fn many_files(alloc: Global, count: u64) -> Result<Vec<InputFile>, NoMemory> {
    let path = RelPath::root(alloc);
    let mut files = Vec::new(alloc);
    for _ in 0..count {
        files.push(file(path.try_clone(alloc)?))?;
    }
    Ok(files)
}

/// Writes the digest of the root of the tree of these files.
fn write_root(files: &[InputFile], turn: &mut Turn<'_, '_>) {
    match &build(turn.alloc(), files, &[]) {
        Ok(built) => write_digest(&built.root, turn),
        Err(fault) => write_fault(fault, turn),
    }
}

/// `cycle LENGTH`: what is listed of a directory that has itself in it, under a name of so many bytes.
fn cycle(turn: &mut Turn<'_, '_>) {
    let root = digest_of(b"?");
    let length = turn.read_number();
    match cyclic_directory(turn.alloc(), root, length) {
        Ok(bytes) => {
            let digest = root;
            write_listed(&root, &[Blob { digest, bytes }], turn);
        }
        Err(_) => turn.refuse(RowFault::NoMemory),
    }
}

/// A directory with this digest in it, under a name of so many bytes.
fn cyclic_directory(alloc: Global, root: Digest, length: u64) -> Result<Bytes, NoMemory> {
    let mut name = String::new(alloc);
    for _ in 0..length {
        name.push('a')?;
    }
    directory_with(alloc, name, root)
}

fn directory_with(alloc: Global, name: String, root: Digest) -> Result<Bytes, NoMemory> {
    let mut directories = Items::new(alloc);
    directories.push(DirectoryNode {
        name: Text::from_string(name),
        digest: Some(root),
    })?;
    let directory = Directory {
        files: Items::new(alloc),
        directories,
        symlinks: Items::new(alloc),
    };
    Ok(Bytes::from_vec(directory.encode(alloc)?))
}
