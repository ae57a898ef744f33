//! One file of the inputs, read again: it must be as it was gathered.

ghost use Rattle.std.specs.Prelude.{◌≡◌, ◌≤◌, [], ◌∷◌, List, IfErr, IfNone, IfOk, IfSome};
ghost use Rattle.rx_base.specs.declared.digests.Digest.{Digest};
ghost use Rattle.rx_base.specs.Digests.{digest_of};
ghost use Rattle.rx_world.specs.declared.sources.Given.{Given};
ghost use Rattle.rx_world.specs.Answers.{Gives};
ghost use Rattle.rx_world.specs.Inputs.{look_of};
ghost use Rattle.rx_world.specs.Sources.{given_bytes};
ghost use Rattle.rx_inputs.specs.Reads.{Differ, HasFailedRead, seen_content};

use crate::{HashedContents, ReadFault};
use rx_base::{Bytes, Digest, RelPath, TryClone, digest_of};
use rx_world::{ChangedInput, InputFile, Look, Refused, Seen, Sources, World};
use std::alloc::Global;

/// The bytes of a file, which is read once. Its look, so its stamp and its mark too, and the digest
/// of its bytes are those that were gathered. They aren't hashed where they are among `hashed`, where there
/// is one. Errors: `InputChanged` where one of them isn't, `SourceFault` where the source tree fails,
/// `NoMemory`.
pub fn read_again<W: World, S: Sources<W>>(
    alloc: Global,
    hashed: Option<&HashedContents>,
    file: &InputFile,
    sources: &mut S,
) -> Result<Bytes, ReadFault>
    ensures digest { IfOk result (λ bytes. digest_of bytes ≡ file.now.digest) }
    ensures gives { IfOk result (λ bytes. Gives W.World S.Sources sources.old sources.new
        (given_bytes file.now.path (look_of file.now) bytes ∷ [])) }
    ensures err { IfErr result (HasFailedRead W.World S.Sources sources.old sources.new file.now) }
    ensures later { S.faults sources.old ≤ S.faults sources.new }
{
    match sources.read(&file.path) {
        Ok((look, bytes)) => match change_of(alloc, hashed, file, look, bytes.as_slice()) {
            None => Ok(bytes),
            Some((first, second)) => match file.path.try_clone(alloc) {
                Ok(path) => Err(ReadFault::InputChanged(ChangedInput {
                    path,
                    first,
                    second,
                })),
                Err(_) => Err(ReadFault::NoMemory),
            },
        },
        Err(Refused::Failed) => match file.path.try_clone(alloc) {
            Ok(path) => Err(ReadFault::SourceFault { path }),
            Err(_) => Err(ReadFault::NoMemory),
        },
        Err(Refused::NoMemory) => Err(ReadFault::NoMemory),
    }
}

/// What was gathered of a file and what was read of it, where these differ.
fn change_of(
    alloc: Global,
    hashed: Option<&HashedContents>,
    file: &InputFile,
    look: Look,
    bytes: &[u8],
) -> Option<(Seen, Seen)>
    ensures same { IfNone result
        ((look ≡ look_of file.now) × (digest_of bytes.now ≡ file.now.digest)) }
    ensures differ { IfSome result (λ change.
        Differ file.now look bytes.now change.0 change.1) }
{
    let gathered = Look::File {
        stamp: file.stamp,
        executable: file.executable,
    };
    if look != gathered {
        return Some((Seen::from(gathered), Seen::from(look)));
    }
    if hashed.is_some_and(|h| h.has(file.digest, bytes)) {
        return None;
    }
    let digest = digest_of(bytes);
    if digest != file.digest {
        return Some((seen_content(look, file.digest), seen_content(look, digest)));
    }
    if let Some(hashed) = hashed {
        hashed.keep(alloc, digest, bytes);
    }
    None
}

/// A look with the digest of the content.
fn seen_content(look: Look, digest: Digest) -> Seen
    ensures { result ≡ seen_content look digest }
{
    Seen {
        look,
        digest: Some(digest),
    }
}
