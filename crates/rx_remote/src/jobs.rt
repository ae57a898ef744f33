//! What a remote attempt is about, and the action that a farm is asked for it.

ghost use Rattle.std.specs.Prelude.{◌≡◌, IfOk, map};
ghost use Rattle.rx_remote.specs.Actions.{AreOnceEach, all_blobs, directory_blob, file_blob, made_blob};
ghost use Rattle.rx_remote.specs.Runs.{task_of, work_of};

use crate::Task;
use crate::once_each::once_each;
use rx_action::ActionKey;
use rx_base::{Bytes, Digest, NoMemory, TryClone};
use rx_blobs::{Blob, Presence};
use rx_exec_messages::NamedBlob;
use rx_tree::Built;
use rx_world::{Command, InputFile};
use std::alloc::Global;

/// What a remote attempt is about.
#[derive(Clone, Copy)]
pub struct RemoteJob<'a> {
    /// The command. Its outputs are sorted, each once, and below its working directory.
    pub command: &'a Command,
    /// Whether a result of the farm's action cache is taken.
    pub accept_cached: bool,
    /// The input tree. Each of its Directory messages has the digest of its bytes.
    pub tree: &'a Built,
    /// The files of that tree, as they were gathered.
    pub files: &'a [InputFile],
    /// Which blobs the farm is known to have.
    pub presence: &'a Presence,
}

/// The action that the farm is asked for, once its dialect is known.
#[derive(Clone, Copy)]
pub(crate) struct Action<'a> {
    /// What it is called.
    pub(crate) digest: Digest,
    /// Its blobs.
    pub(crate) blobs: &'a [Blob],
    /// The most bytes of one batch of blobs.
    pub(crate) most: u64,
    /// The job that it was made for.
    pub(crate) job: RemoteJob<'a>,
}

/// The task of a job, for the states of its attempt.
pub(crate) fn task_of(alloc: Global, job: &RemoteJob<'_>) -> Result<Task, NoMemory>
    ensures { IfOk result (λ task. task ≡ task_of (work_of job.now)) }
{
    Ok(Task {
        command: job.command.try_clone(alloc)?,
        accept_cached: job.accept_cached,
    })
}

/// The blobs of a job's action, each digest once: the Action, the Command, the Directories and the
/// files.
pub(crate) fn blobs_of(
    alloc: Global,
    key: &ActionKey,
    job: &RemoteJob<'_>,
) -> Result<Vec<Blob>, NoMemory>
    ensures { IfOk result (λ blobs.
        AreOnceEach (all_blobs key.now (work_of job.now)) blobs.items) }
{
    let mut blobs = Vec::new(alloc);
    blobs.push(made(alloc, key.digest, &key.action_blob)?)?;
    blobs.push(made(alloc, key.command_digest, &key.command_blob)?)?;
    let mut directories = directory_blobs(alloc, job.tree.blobs.as_slice())?;
    blobs.append(&mut directories)?;
    let mut files = file_blobs(alloc, job.files)?;
    blobs.append(&mut files)?;
    once_each(alloc, blobs)
}

/// A blob of these bytes.
fn made(alloc: Global, digest: Digest, bytes: &Bytes) -> Result<Blob, NoMemory>
    ensures { IfOk result (λ blob. blob ≡ made_blob digest bytes.now) }
{
    Ok(Blob::Made(NamedBlob {
        digest,
        bytes: Bytes::copy_of(alloc, bytes.as_slice())?,
    }))
}

/// The blobs of Directory messages.
fn directory_blobs(alloc: Global, directories: &[rx_tree::Blob]) -> Result<Vec<Blob>, NoMemory>
    ensures { IfOk result (λ blobs. blobs.items ≡ map directory_blob directories.now) }
{
    let mut blobs = Vec::new(alloc);
    for directory in directories {
        blobs.push(made(alloc, directory.digest, &directory.bytes)?)?;
    }
    Ok(blobs)
}

/// The blobs of the contents of files, which are read when they are sent.
fn file_blobs(alloc: Global, files: &[InputFile]) -> Result<Vec<Blob>, NoMemory>
    ensures { IfOk result (λ blobs. blobs.items ≡ map file_blob files.now) }
{
    let mut blobs = Vec::new(alloc);
    for file in files {
        blobs.push(Blob::File(InputFile {
            path: file.path.try_clone(alloc)?,
            digest: file.digest,
            stamp: file.stamp,
            executable: file.executable,
        }))?;
    }
    Ok(blobs)
}
