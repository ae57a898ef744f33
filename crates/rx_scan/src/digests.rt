//! The digests of files that were seen: of those that the scan has read it has them, of the others it
//! asks the cache, and reads what the cache doesn't have.

ghost use Rattle.std.specs.Prelude.{◌≡◌, ◌≤◌, All, Contains, IfErr, IfOk, IfSome, map};
ghost use Rattle.std.specs.Cmp.Lexicographic.{slice_cmp};
ghost use Rattle.std.specs.Ordering.{nat_cmp};
ghost use Rattle.rx_base.specs.Digests.{digest_of};
ghost use Rattle.rx_scan.specs.Digests.{IsKnownOf, IsSeen, seen_file};
ghost use Rattle.rx_reach.specs.Explored.{HaveDigests};
ghost use Rattle.rx_reach.specs.Scans.{Ends, Scans};
ghost use Rattle.rx_reach.specs.Scenes.{Always};

use crate::seen_files::SeenFile;
use rx_base::{Digest, Items, RelPath, TryClone, digest_of};
use rx_digest_cache::{DigestCache, StampedDigest};
use rx_reach::{SightFault, Sights, read_file};
use rx_world::{InputFile, Sources, World};
use std::alloc::Global;
use std::cmp::Ordering;
use std::sync::Wait;

/// The file at a path among these, which are sorted by path.
fn file_at<'a>(files: &'a [InputFile], path: &RelPath) -> Option<&'a InputFile>
    ensures { IfSome result (λ file. Contains files.now file.now × (file.now.path ≡ path.now)) }
{
    let found = files.binary_search_by(
        |file: &InputFile| -> Ordering
            ensures { result ≡ slice_cmp nat_cmp file.now.path path.entry.now }
        { file.path.cmp(path) },
    );
    files.get(found.ok()?)
}

/// The digest of a file among those that are known, which are sorted by path: it takes one binary
/// search. A file with another stamp isn't this one.
fn known_digest(known: &[InputFile], file: &SeenFile) -> Option<Digest>
    ensures { IfSome result (IsKnownOf known.now file.now) }
{
    let other = file_at(known, &file.path)?;
    if other.stamp != file.stamp {
        return None;
    }
    Some(other.digest)
}

/// The digest of a file that is read for it, and kept in the cache.
fn read_digest<W: World, S: Sources<W>>(
    rt: &impl Wait,
    alloc: Global,
    sources: &mut S,
    sights: &mut Sights,
    cache: &DigestCache<W>,
    file: &SeenFile,
) -> Result<Digest, SightFault>
    requires { IsSeen sights.old file.now }
    ensures ok { IfOk result (λ digest. Scans W.World S.Sources
        sources.old sources.new sights.old sights.new Always) }
    ensures honest { IfOk result (λ digest. W.stamps_honest →
        digest ≡ digest_of (W.content file.now.path file.now.stamp)) }
    ensures err { IfErr result (Ends W.World S.Sources sources.old sources.new sights.old) }
{
    let (_, bytes) = read_file::<W, S>(alloc, sources, sights, &file.path)?;
    let digest = digest_of(bytes.as_slice());
    let stamp = file.stamp;
    cache.keep(rt, alloc, &file.path, StampedDigest { stamp, digest });
    Ok(digest)
}

/// The digest of a file: the known one, else the one that the cache has, else that of a read.
fn find_digest<W: World, S: Sources<W>>(
    rt: &impl Wait,
    alloc: Global,
    sources: &mut S,
    sights: &mut Sights,
    cache: &DigestCache<W>,
    file: &SeenFile,
    known: &[InputFile],
) -> Result<Digest, SightFault>
    requires { IsSeen sights.old file.now }
    ensures ok { IfOk result (λ digest. Scans W.World S.Sources
        sources.old sources.new sights.old sights.new Always) }
    ensures honest { IfOk result (λ digest. W.stamps_honest → HaveDigests W.content known.now →
        digest ≡ digest_of (W.content file.now.path file.now.stamp)) }
    ensures err { IfErr result (Ends W.World S.Sources sources.old sources.new sights.old) }
{
    if let Some(digest) = known_digest(known, file) {
        return Ok(digest);
    }
    match cache.find(rt, &file.path, file.stamp) {
        Some(digest) => Ok(digest),
        None => read_digest(rt, alloc, sources, sights, cache, file),
    }
}

/// The files with their digests, in their order.
pub(crate) fn with_digests<W: World, S: Sources<W>>(
    rt: &impl Wait,
    alloc: Global,
    sources: &mut S,
    sights: &mut Sights,
    cache: &DigestCache<W>,
    files: &[SeenFile],
    known: &[InputFile],
) -> Result<Items<InputFile>, SightFault>
    requires seen { All (IsSeen sights.old) files.now }
    ensures ok { IfOk result (λ inputs. Scans W.World S.Sources
        sources.old sources.new sights.old sights.new Always) }
    ensures same { IfOk result (λ inputs. map seen_file inputs ≡ files.now) }
    ensures digests { IfOk result (λ inputs. W.stamps_honest → HaveDigests W.content known.now →
        HaveDigests W.content inputs) }
    ensures err { IfErr result (Ends W.World S.Sources sources.old sources.new sights.old) }
{
    let mut inputs = Items::new(alloc);
    for file in files {
        let digest = find_digest(rt, alloc, sources, sights, cache, file, known)?;
        inputs.push(InputFile {
            path: file.path.try_clone(alloc)?,
            digest,
            stamp: file.stamp,
            executable: file.executable,
        })?;
    }
    Ok(inputs)
}
