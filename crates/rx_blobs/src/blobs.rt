//! Blobs that may be sent to a farm: bytes at hand, and files of the inputs, which are read when
//! their turn comes.

ghost use Rattle.std.specs.Prelude.{◌≡◌, [], ◌∷◌, Contains, IfErr, IfOk, IfSome, IfNone, length};
ghost use Rattle.std.specs.List.{AllByRecursion};
ghost use Rattle.rx_base.specs.Digests.{digest_of};
ghost use Rattle.rx_exec_messages.specs.Calls.{digests_of};
ghost use Rattle.rx_blobs.specs.Faults.{of_read};
ghost use Rattle.rx_blobs.specs.Uploads.{AreMade, HasRead, IsMade, IsOwn, IsOwnFault, IsReadEnd, IsWithin, digest_of_blob, digests_of_blobs};

use crate::BlobFault;
use crate::hashing::is_same;
use rx_base::{Bytes, Digest, Items};
use rx_exec_messages::NamedBlob;
use rx_inputs::{ReadFault, read_again};
use rx_world::{InputFile, Sources, World};
use std::alloc::Global;

/// A blob that a farm may need.
#[derive(Debug, Drop)]
pub enum Blob {
    /// Bytes that were made here, with their digest.
    Made(NamedBlob),
    /// A file of the inputs. Its bytes are read when they are sent.
    File(InputFile),
}

impl Blob {
    /// The digest that the farm knows it by.
    pub fn digest(&self) -> Digest
        ensures { result ≡ digest_of_blob self.now }
    {
        match self {
            Blob::Made(named) => named.digest,
            Blob::File(file) => file.digest,
        }
    }
}

/// Blobs whose bytes are held, and those behind the last of them.
#[derive(Debug, Drop)]
pub(crate) struct Collected<'a> {
    pub(crate) named: Items<NamedBlob>,
    pub(crate) others: &'a [Blob],
}

/// The bytes of the blobs that are wanted, which stand among these in this order.
pub(crate) fn collect<'a, W: World, S: Sources<W>>(
    alloc: Global,
    sources: &mut S,
    blobs: &'a [Blob],
    wanted: &[Digest],
) -> Result<Collected<'a>, BlobFault>
    requires { AreMade blobs.now }
    ensures digests { IfOk result (λ some. digests_of some.named ≡ wanted.now) }
    ensures own { IfOk result (λ some. AllByRecursion IsOwn some.named) }
    ensures others { IfOk result (λ some. IsWithin some.others.now blobs.now) }
    ensures among { IfOk result (λ some. IsWithin wanted.now (digests_of_blobs blobs.now)) }
    ensures read { HasRead W.World S.Sources sources.old sources.new blobs.now
        (IsReadEnd blobs.now (S.faults sources.old) (S.faults sources.new) result) }
    ensures fault { IfErr result IsOwnFault }
{
    let mut named = Vec::new(alloc);
    let mut left = blobs;
    let mut rest = wanted;
    while let Some((digest, later)) = rest.split_first() {
        let Some(found) = find_blob(left, *digest) else {
            return Err(BlobFault::NoMemory);
        };
        match bytes_of::<W, S>(alloc, sources, found.blob) {
            Ok(bytes) => {
                let Ok(()) = named.push(NamedBlob {
                    digest: *digest,
                    bytes,
                }) else {
                    return Err(BlobFault::NoMemory);
                };
            }
            Err(fault) => return Err(fault),
        }
        left = found.others;
        rest = later;
    }
    Ok(Collected {
        named: Items::from_vec(named),
        others: left,
    })
}

/// A blob, and those behind it.
#[derive(Debug, Drop)]
struct FoundBlob<'a> {
    blob: &'a Blob,
    others: &'a [Blob],
}

/// The first of these blobs that has this digest.
fn find_blob<'a>(blobs: &'a [Blob], digest: Digest) -> Option<FoundBlob<'a>>
    ensures digest { IfSome result (λ found. digest_of_blob found.blob.now ≡ digest) }
    ensures there { IfSome result (λ found. Contains blobs.now found.blob.now) }
    ensures others { IfSome result (λ found. IsWithin found.others.now blobs.now) }
{
    let mut left = blobs;
    while let Some((blob, others)) = left.split_first() {
        if is_same(blob.digest(), digest) {
            return Some(FoundBlob { blob, others });
        }
        left = others;
    }
    None
}

/// The bytes of a blob: a copy, or those of the file, which is read once more.
fn bytes_of<W: World, S: Sources<W>>(
    alloc: Global,
    sources: &mut S,
    blob: &Blob,
) -> Result<Bytes, BlobFault>
    requires { IsMade blob.now }
    ensures digest { IfOk result (λ bytes. digest_of bytes ≡ digest_of_blob blob.now) }
    ensures read { HasRead W.World S.Sources sources.old sources.new (blob.now ∷ [])
        (IsReadEnd (blob.now ∷ []) (S.faults sources.old) (S.faults sources.new) result) }
    ensures fault { IfErr result IsOwnFault }
{
    match blob {
        Blob::Made(named) => match Bytes::copy_of(alloc, named.bytes.as_slice()) {
            Ok(bytes) => Ok(bytes),
            Err(_) => Err(BlobFault::NoMemory),
        },
        Blob::File(file) => match read_again::<W, S>(alloc, None, file, sources) {
            Ok(bytes) => Ok(bytes),
            Err(fault) => Err(of_read(fault)),
        },
    }
}

/// What it is for an upload that a file isn't read as it was gathered.
fn of_read(fault: ReadFault) -> BlobFault
    ensures { result ≡ of_read fault }
{
    match fault {
        ReadFault::InputChanged(input) => BlobFault::InputChanged(input),
        ReadFault::SourceFault { path } => BlobFault::SourceFault { path },
        ReadFault::NoMemory => BlobFault::NoMemory,
    }
}
