//! The texts by which digests are named: `HASH/SIZE`, 64 hexadecimal digits and a decimal number.

use rx_base::{Digest, NoMemory, Text, read_hash};
use std::alloc::Global;

/// What stands before the digest in the name of a stream of bytes (`remote_execution.proto`, service
/// ContentAddressableStorage).
const BLOBS: &str = "blobs/";

/// The name of a digest, by which the operation of an action goes.
pub(crate) fn name_of(alloc: Global, digest: &Digest) -> Result<Text, NoMemory> {
    let hash = digest.hash_text(alloc)?;
    let size = digest.size;
    Ok(Text::from_string(format!(in alloc; "{hash}/{size}")?))
}

/// The digest of a name.
pub(crate) fn read_name(name: &str) -> Option<Digest> {
    let (hash, size) = name.split_once('/')?;
    let hash = read_hash(hash).ok()?;
    let size = size.parse::<u64>().ok()?;
    Some(Digest { hash, size })
}

/// The digest in the name of a stream of bytes: `..blobs/HASH/SIZE`.
pub(crate) fn read_resource(name: &str) -> Option<Digest> {
    let (_, digest) = name.split_once(BLOBS)?;
    read_name(digest)
}
