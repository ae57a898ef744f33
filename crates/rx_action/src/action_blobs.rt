//! Which blobs a farm needs of an action, by their digests.

ghost use Rattle.std.specs.Prelude.{◌≡◌, ◌++◌, IfOk, map};
ghost use Rattle.rx_base.specs.Digests.{by_digest};
ghost use Rattle.rx_base.specs.SortedPaths.{sorted_once};
ghost use Rattle.rx_action.specs.ActionBlobs.{blob_digest, digests_of_action, file_digest};

use crate::action_keys::ActionKey;
use rx_base::{Digest, Items, NoMemory};
use rx_tree::{Blob, Built};
use rx_world::InputFile;
use std::alloc::Global;

/// The digests of the Action, its Command, each Directory of its input tree and each content of a
/// file there, by the hash's bytes and then the size, each once.
pub fn digests_of_action(
    alloc: Global,
    key: &ActionKey,
    built: &Built,
    files: &[InputFile],
) -> Result<Items<Digest>, NoMemory>
    ensures { IfOk result (λ digests. digests ≡ digests_of_action key.now built.now files.now) }
{
    let mut digests = Vec::new(alloc);
    digests.push(key.digest)?;
    digests.push(key.command_digest)?;
    let digests = with_blobs(digests, built.blobs.as_slice())?;
    let digests = with_files(digests, files)?;
    sort_once(digests)
}

/// These digests, and then those of the blobs.
fn with_blobs(digests: Vec<Digest>, blobs: &[Blob]) -> Result<Vec<Digest>, NoMemory>
    ensures { IfOk result (λ all. all.items ≡ digests.items ++ map blob_digest blobs.now) }
{
    let mut digests = digests;
    for blob in blobs {
        digests.push(blob.digest)?;
    }
    Ok(digests)
}

/// These digests, and then those of the files.
fn with_files(digests: Vec<Digest>, files: &[InputFile]) -> Result<Vec<Digest>, NoMemory>
    ensures { IfOk result (λ all. all.items ≡ digests.items ++ map file_digest files.now) }
{
    let mut digests = digests;
    for file in files {
        digests.push(file.digest)?;
    }
    Ok(digests)
}

/// These digests in their order, each once.
fn sort_once(digests: Vec<Digest>) -> Result<Items<Digest>, NoMemory>
    ensures { IfOk result (λ once. once ≡ sorted_once by_digest digests.items) }
{
    let mut digests = digests;
    digests.sort()?;
    digests.dedup();
    Ok(Items::from_vec(digests))
}
