//! The cache that sessions share: the kept digests behind a lock, the sources that they stand for, and the texts whose
//! directives are known.

ghost use Rattle.std.specs.Prelude.{◌≡◌, [], ◌∷◌, IfOk, IfSome, IsOk, List, MatchResult, false, true};
ghost use Rattle.rx_base.specs.Digests.{digest_of};
ghost use Rattle.std.specs.Arc.{arc_value};
ghost use Rattle.rx_lex.specs.Directives.{directives_of};
ghost use Rattle.rx_lex.specs.Found.{found_view};
ghost use Rattle.rx_world.specs.Causes.{HasCauseOf};
ghost use Rattle.rx_world.specs.Sources.{given_bytes, given_look, is_file};
ghost use Rattle.rx_digest_cache.specs.declared.cache_fault.CacheFault.TheVariants.{SourceFault as source_fault};
ghost use Rattle.rx_digest_cache.specs.Cache.{Asks, HasDigest, IsFound, IsRead, Refuses, RefusesRead};
ghost use Rattle.rx_digest_cache.specs.Kept.{IsTied};

use crate::lexed::LexedTexts;
use crate::{CacheFault, KeptDigests, Lexed, StampedDigest};
use rx_base::{Digest, NoMemory, RelPath, digest_of};
use rx_world::{Look, Sources, Stamp, World};
use std::alloc::Global;
use std::sync::{Arc, Mutex, Wait};

/// The most paths of which the proxy's cache keeps a digest.
pub const DIGEST_CACHE_LIMIT: usize = 1_000_000;

/// Digests of one source tree's files, by path and stamp. It is shared by reference. The lock is
/// held for one look-up or one change of the map, and never while a file is looked at or read.
#[derive(Drop)]
pub struct DigestCache<W: World> {
    kept: Mutex<KeptDigests<W>>,
    texts: LexedTexts,
}

impl<W: World> DigestCache<W> {
    /// An empty cache, which keeps a digest of at most so many paths.
    pub fn new(alloc: Global, limit: usize) -> Result<DigestCache<W>, NoMemory>
        ensures { IsOk result }
    {
        Ok(DigestCache {
            kept: Mutex::new(KeptDigests::new(alloc, limit)),
            texts: LexedTexts::new(alloc),
        })
    }

    /// The digest of the file at a path, with the look that it belongs to. The path is looked at;
    /// where its digest is kept under just the stamp of that look, this is the answer, and it took
    /// no memory. Else the file is read, and the look is that of the read. The digest that was read
    /// is kept in place of an older one of the path; where the cache is full, or memory is wanting,
    /// it is answered all the same.
    pub fn digest<S: Sources<W>>(
        &self,
        rt: &impl Wait,
        alloc: Global,
        sources: &mut S,
        path: &RelPath,
    ) -> Result<(Look, Digest), CacheFault>
        ensures answered { Asks W.World S.Sources sources.old sources.new (λ answers.
            MatchResult result
            (λ found. IsFound path.now answers found.0 found.1) (Refuses path.now answers)) }
        ensures content { IfOk result (λ found. W.stamps_honest →
            HasDigest W.content path.now found.0 found.1) }
        ensures cause { HasCauseOf source_fault (S.faults sources.old)
            (S.faults sources.new) result }
    {
        let look = sources.look(path)?;
        let Look::File {
            stamp,
            executable: _,
        } = look
        else {
            return Err(CacheFault::NotFile { look });
        };
        match self.find(rt, path, stamp) {
            Some(digest) => Ok((look, digest)),
            None => self.read_anew(rt, alloc, sources, path),
        }
    }

    /// The digest that is kept of a path under just this stamp, without a look at the path. It takes
    /// no memory, and holds the lock for this alone.
    pub fn find(&self, rt: &impl Wait, path: &RelPath, stamp: Stamp) -> Option<Digest>
        ensures { IfSome result (λ digest. W.stamps_honest →
            digest ≡ digest_of (W.content path.now stamp)) }
    {
        self.kept.lock(rt).find(path, stamp)
    }

    /// What a text includes, which was read at a path. Where the text is kept as that of the path, nothing is
    /// sought in it; else it is kept, where there is memory for it.
    pub fn lexed(
        &self,
        alloc: Global,
        path: &RelPath,
        text: &[u8],
    ) -> Result<Arc<Lexed, Global>, NoMemory>
        ensures { IfOk result (λ lexed.
            found_view (arc_value lexed).found ≡ directives_of text.now) }
    {
        self.texts.lexed(alloc, path, text)
    }

    /// The digest of a file's bytes, which are read. It is kept where it can be.
    fn read_anew<S: Sources<W>>(
        &self,
        rt: &impl Wait,
        alloc: Global,
        sources: &mut S,
        path: &RelPath,
    ) -> Result<(Look, Digest), CacheFault>
        ensures answered { Asks W.World S.Sources sources.old sources.new (λ others.
            MatchResult result
            (λ found. IsRead path.now others found.0 found.1) (RefusesRead path.now others)) }
        ensures content { IfOk result (λ found. W.stamps_honest →
            HasDigest W.content path.now found.0 found.1) }
        ensures cause { HasCauseOf source_fault (S.faults sources.old)
            (S.faults sources.new) result }
    {
        let (look, bytes) = sources.read(path)?;
        let Look::File {
            stamp,
            executable: _,
        } = look
        else {
            return Err(CacheFault::NotFile { look });
        };
        let digest = digest_of(bytes.as_slice());
        self.keep(rt, alloc, path, StampedDigest { stamp, digest });
        Ok((look, digest))
    }

    /// Keeps a digest that belongs to a path and a stamp, where it can be kept: a full cache and want
    /// of memory leave all as it was. It holds the lock for this alone.
    pub fn keep(&self, rt: &impl Wait, alloc: Global, path: &RelPath, entry: StampedDigest)
        requires { W.stamps_honest → IsTied W.content path.now entry }
    {
        let _ = self.kept.lock(rt).keep(alloc, path, entry);
    }
}
