//! What a run of a command gives, and the short forms of it that are kept.

ghost use Rattle.std.specs.Prelude.{◌≡◌, IfOk};
ghost use Rattle.rx_world.specs.Outcomes.{listing, kept};

use rx_base::{Bytes, Digest, Items, NoMemory, RelPath, TryClone, digest_of};
use std::alloc::Global;

/// How a program ended.
#[derive(Debug, Drop)]
pub struct Exit {
    pub code: i32,
    pub stdout: Bytes,
    pub stderr: Bytes,
}

/// A file with its bytes. Its path is relative to the root.
#[derive(Debug, Drop)]
pub struct FileOut {
    pub path: RelPath,
    pub bytes: Bytes,
    pub executable: bool,
}

impl TryClone for Exit {
    fn try_clone(&self, alloc: Global) -> Result<Exit, NoMemory> {
        Ok(Exit {
            code: self.code,
            stdout: self.stdout.try_clone(alloc)?,
            stderr: self.stderr.try_clone(alloc)?,
        })
    }
}

impl TryClone for FileOut {
    fn try_clone(&self, alloc: Global) -> Result<FileOut, NoMemory> {
        Ok(FileOut {
            path: self.path.try_clone(alloc)?,
            bytes: self.bytes.try_clone(alloc)?,
            executable: self.executable,
        })
    }
}

/// How a command ended, and the files that it wrote at its outputs.
#[derive(Debug, Drop)]
pub struct Outcome {
    pub exit: Exit,
    pub files: Items<FileOut>,
}

/// A file by its path, the digest of its bytes and its mark.
#[derive(Debug, Drop)]
pub struct Listed {
    pub path: RelPath,
    pub digest: Digest,
    pub executable: bool,
}

/// An outcome with a digest in place of each text and of each file's bytes.
#[derive(Debug, Drop)]
pub struct KeptOutcome {
    pub code: i32,
    pub stdout: Digest,
    pub stderr: Digest,
    pub files: Items<Listed>,
}

/// The listing of files, in their order.
pub fn list_files(alloc: Global, files: &[FileOut]) -> Result<Items<Listed>, NoMemory>
    ensures { IfOk result (λ list. list ≡ listing files.now) }
{
    let mut list = Vec::with_capacity(alloc, files.len())?;
    for file in files {
        list.push(Listed {
            path: file.path.try_clone(alloc)?,
            digest: digest_of(file.bytes.as_slice()),
            executable: file.executable,
        })?;
    }
    Ok(Items::from_vec(list))
}

/// The form in which a transcript keeps an outcome.
pub fn keep_outcome(alloc: Global, outcome: &Outcome) -> Result<KeptOutcome, NoMemory>
    ensures { IfOk result (λ short. short ≡ kept outcome.now) }
{
    Ok(KeptOutcome {
        code: outcome.exit.code,
        stdout: digest_of(outcome.exit.stdout.as_slice()),
        stderr: digest_of(outcome.exit.stderr.as_slice()),
        files: list_files(alloc, outcome.files.as_slice())?,
    })
}
