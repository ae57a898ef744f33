//! A file that was found: it is read, and what it includes is sought.

ghost use Rattle.std.specs.Prelude.{◌≡◌, ◌≤◌, ◌+◌, ◌&&◌, ◌||◌, Contains, IfErr, IfOk, IfSome, MatchOption, OnOk, Some, false, length, true};
ghost use Rattle.std.specs.Arc.{arc_value};
ghost use Rattle.rx_base.specs.Digests.{digest_of};
ghost use Rattle.rx_lex.specs.Found.{found_view};
ghost use Rattle.rx_world.specs.declared.looks.Look.TheVariants.{File as a_file};
ghost use Rattle.rx_world.specs.Sources.{GivesContent, is_file};
ghost use Rattle.rx_reach.specs.Explored.{AreSeen, HaveDigests};
ghost use Rattle.rx_reach.specs.FileTables.{paths_of};
ghost use Rattle.rx_reach.specs.declared.faults.SightFault.TheVariants.{NoMemory as no_memory};
ghost use Rattle.rx_reach.specs.Progress.{AreApart, Explores, KeepsKnown, Marks, Stays};
ghost use Rattle.rx_reach.specs.Scans.{Ends, Scans};
ghost use Rattle.rx_reach.specs.Searches.{includes_in};
ghost use Rattle.rx_reach.specs.Sights.{AreKnownAt, seen_at};
ghost use Rattle.rx_reach.specs.Visits.{VisitsAt};

use crate::faults::SightFault;
use crate::file_tables::ReadFile;
use crate::progress::Progress;
use crate::searches::Search;
use crate::seeks::seek_includes;
use crate::sights::Sights;
use rx_base::{Bytes, Digest, NoMemory, RelPath, TryClone, digest_of};
use rx_digest_cache::{DigestCache, Lexed, StampedDigest};
use rx_lex::Directives;
use rx_world::{Look, Refused, Sources, Stamp, World};
use std::alloc::Global;
use std::sync::{Arc, Wait};

/// The most bytes of one input file.
pub const MAX_FILE_BYTES: u64 = 67_108_864;

/// Reads what stands at a path. A look that differs from the first one is refused.
pub fn read_file<W: World, S: Sources<W>>(
    alloc: Global,
    sources: &mut S,
    sights: &mut Sights,
    path: &RelPath,
) -> Result<(Look, Bytes), SightFault>
    ensures ok { IfOk result (λ read. Scans W.World S.Sources
        sources.old sources.new sights.old sights.new
        (λ scene. (read.0 ≡ scene.look path.now) × (read.1 ≡ scene.text path.now))) }
    ensures seen { IfOk result (λ read. seen_at sights.new path.now ≡ Some read.0) }
    ensures honest { IfOk result (λ read. W.stamps_honest →
        GivesContent W.content path.now read.0 read.1) }
    ensures err { IfErr result (Ends W.World S.Sources sources.old sources.new sights.old) }
{
    match sources.read(path) {
        Ok((look, bytes)) => {
            sights.note(alloc, path, look)?;
            Ok((look, bytes))
        }
        Err(Refused::Failed) => Err(SightFault::SourceFault {
            path: path.try_clone(alloc)?,
        }),
        Err(Refused::NoMemory) => Err(SightFault::NoMemory),
    }
}

/// What a text at a path includes; a text that is too large counts as one without directives, as the empty one is.
fn includes_in<W: World>(
    alloc: Global,
    cache: &DigestCache<W>,
    path: &RelPath,
    text: &[u8],
) -> Result<Arc<Lexed, Global>, NoMemory>
    ensures { IfOk result (λ lexed.
        found_view (arc_value lexed).found ≡ includes_in text.now) }
{
    if text.len() as u64 > MAX_FILE_BYTES {
        return cache.lexed(alloc, path, b"");
    }
    cache.lexed(alloc, path, text)
}

/// Whether a file may include what isn't listed, or has a raw literal that C doesn't know.
fn is_hidden(found: &Directives, search: &Search) -> bool
    ensures { result ≡ (found.now.hard || (search.now.is_c && found.now.raw)) }
{
    found.hard || (search.is_c && found.raw)
}

/// Makes a file hard that may hide includes.
fn mark_hidden(
    alloc: Global,
    progress: &mut Progress,
    path: &RelPath,
    hidden: bool,
) -> Result<(), SightFault>
    ensures ok { OnOk result (Marks path.now hidden progress.old progress.new) }
    ensures err { IfErr result (λ fault. fault ≡ no_memory) }
{
    if hidden {
        progress.hard.insert(alloc, path)?;
        return Ok(());
    }
    Ok(())
}

/// Marks a file with this text, and seeks what it includes.
fn explore<W: World, S: Sources<W>>(
    alloc: Global,
    sources: &mut S,
    sights: &mut Sights,
    cache: &DigestCache<W>,
    progress: &mut Progress,
    search: &Search,
    path: &RelPath,
    text: &[u8],
) -> Result<(), SightFault>
    ensures ok { OnOk result (Scans W.World S.Sources
        sources.old sources.new sights.old sights.new
        (λ scene. scene.text path.now ≡ text.now →
        Explores scene search.now path.now progress.old progress.new)) }
    ensures stays { OnOk result (Stays progress.old progress.new) }
    ensures known { OnOk result (KeepsKnown sights.old sights.new path.now
        progress.old progress.new) }
    ensures err { IfErr result (Ends W.World S.Sources sources.old sources.new sights.old) }
{
    let lexed = includes_in(alloc, cache, path, text)?;
    let found = &lexed.found;
    mark_hidden(alloc, progress, path, is_hidden(found, search))?;
    let above = path.parent(alloc)?;
    let list = found.list.as_slice();
    seek_includes::<W, S>(
        alloc,
        sources,
        sights,
        progress,
        path,
        above.as_ref(),
        search,
        list,
    )?;
    Ok(())
}

/// The digest of a file with this stamp and these bytes: the one that the cache has under the stamp,
/// else that of the bytes, which is kept.
fn find_digest<W: World>(
    rt: &impl Wait,
    alloc: Global,
    cache: &DigestCache<W>,
    path: &RelPath,
    stamp: Stamp,
    bytes: &[u8],
) -> Digest
    requires { W.stamps_honest → bytes.now ≡ W.content path.now stamp }
    ensures { W.stamps_honest → result ≡ digest_of (W.content path.now stamp) }
{
    match cache.find(rt, path, stamp) {
        Some(digest) => digest,
        None => {
            let digest = digest_of(bytes);
            cache.keep(rt, alloc, path, StampedDigest { stamp, digest });
            digest
        }
    }
}

/// What is kept of a file with this look and these bytes.
fn file_from<W: World>(
    rt: &impl Wait,
    alloc: Global,
    cache: &DigestCache<W>,
    path: &RelPath,
    look: Look,
    bytes: &[u8],
) -> Option<ReadFile>
    requires { W.stamps_honest → GivesContent W.content path.now look bytes.now }
    ensures look { MatchOption result (is_file look ≡ false)
        (λ file. look ≡ a_file file.stamp file.executable) }
    ensures honest { IfSome result (λ file. W.stamps_honest →
        file.digest ≡ digest_of (W.content path.now file.stamp)) }
{
    match look {
        Look::File { stamp, executable } => Some(ReadFile {
            digest: find_digest(rt, alloc, cache, path, stamp, bytes),
            stamp,
            executable,
        }),
        Look::Absent | Look::Dir | Look::Other => None,
    }
}

/// Reads a file that was found and not read yet, and seeks what it includes. What is no file any
/// more can't be met here, as a look that differs from the first is refused.
pub(crate) fn visit<W: World, S: Sources<W>>(
    rt: &impl Wait,
    alloc: Global,
    sources: &mut S,
    sights: &mut Sights,
    cache: &DigestCache<W>,
    progress: &mut Progress,
    search: &Search,
    path: &RelPath,
) -> Result<(), SightFault>
    requires { Contains (paths_of progress.old.read) path.now → ⊥ }
    ensures ok { OnOk result (Scans W.World S.Sources
        sources.old sources.new sights.old sights.new
        (λ scene. is_file (scene.look path.now) ≡ true →
        VisitsAt scene search.now path.now progress.old progress.new)) }
    ensures apart { OnOk result (AreApart progress.old → (Contains progress.old.waiting path.now →
        ⊥) → AreApart progress.new) }
    ensures count { OnOk result (length progress.new.read ≤ length progress.old.read + 1) }
    ensures seen { OnOk result (AreSeen sights.old progress.old.read →
        AreSeen sights.new progress.new.read) }
    ensures honest { OnOk result (W.stamps_honest → HaveDigests W.content progress.old.read →
        HaveDigests W.content progress.new.read) }
    ensures known { OnOk result (AreKnownAt sights.old progress.old.hard →
        AreKnownAt sights.new progress.new.hard) }
    ensures err { IfErr result (Ends W.World S.Sources sources.old sources.new sights.old) }
{
    let found = read_file::<W, S>(alloc, sources, sights, path)?;
    let text = found.1.as_slice();
    match file_from(rt, alloc, cache, path, found.0, text) {
        Some(file) => {
            progress.read.insert(path.try_clone(alloc)?, file)?;
            explore::<W, S>(alloc, sources, sights, cache, progress, search, path, text)?;
            Ok(())
        }
        None => Ok(()),
    }
}
