//! One cache of `rx_digest_cache` from row to row: what it tells of a path, and how often that is read.

use crate::same_everywhere::{SameEverywhere, read_same};
use rx_base::{Digest, NoMemory, RelPath};
use rx_digest_cache::{CacheFault, DigestCache};
use rx_row_values::{read_path, write_digest, write_look};
use rx_rows::{Answer, Row, RowFault};
use rx_world::{Look, Sources, Toy, World};
use std::alloc::{AllocError, Global};
use std::marker::Brand;
use std::sync::Wait;
use std::thread::{Threads, join};

/// The cache that was opened last. Before the first row it is one that two threads asked.
#[derive(Drop)]
pub(crate) struct Caches {
    alloc: Global,
    cache: DigestCache<Toy<Brand>>,
    /// What the two threads were told.
    told: [Result<(Look, Digest), CacheFault>; 2],
}

/// Asks for a path in a thread of its own and in this one, over any world.
fn ask_twice<W: World + Send, S: Sources<W> + Send + Drop, R: Wait + Threads + Sync>(
    rt: &R,
    alloc: Global,
    cache: &DigestCache<W>,
    mut one: S,
    mut two: S,
    path: &RelPath,
) -> [Result<(Look, Digest), CacheFault>; 2] {
    let (first, second) = join(
        rt,
        || cache.digest(rt, alloc, &mut one, path),
        || cache.digest(rt, alloc, &mut two, path),
    );
    [first, second]
}

/// Writes a look and a digest, or why there is none.
fn write_found(
    alloc: Global,
    answer: &mut Answer,
    found: &Result<(Look, Digest), CacheFault>,
) -> Result<(), NoMemory> {
    match found {
        Ok((look, digest)) => {
            write_look(alloc, answer, *look)?;
            write_digest(alloc, answer, digest)
        }
        Err(fault) => answer.value(fault),
    }
}

impl Caches {
    /// A cache of one digest, which two threads ask at once for `a`, each over a tree of its own that has
    /// `abc` there. They are asked here, since a row's call isn't told that threads may share the runtime.
    pub(crate) fn asked_twice<R: Wait + Threads + Sync>(
        rt: &R,
        alloc: Global,
    ) -> Result<Caches, NoMemory> {
        let cache = DigestCache::new(alloc, 1)?;
        let path = RelPath::read(alloc, "a").or(Err(AllocError))?;
        let one = SameEverywhere::with_file(alloc, 1, "abc")?;
        let two = SameEverywhere::with_file(alloc, 1, "abc")?;
        let told = ask_twice(rt, alloc, &cache, one, two, &path);
        Ok(Caches { alloc, cache, told })
    }

    /// `cache LIMIT`: an empty cache, which keeps so many digests.
    pub(crate) fn open(&mut self, row: &mut Row<'_>, answer: &mut Answer) -> Result<(), RowFault> {
        let limit = row.number()? as usize;
        self.cache = DigestCache::new(self.alloc, limit)?;
        answer.word("ok")?;
        Ok(())
    }

    /// `ask PATH LOOK READ TEXT`: what the cache tells of a path, and how often that was read.
    pub(crate) fn answer_ask<R: Wait>(
        &self,
        rt: &R,
        row: &mut Row<'_>,
        answer: &mut Answer,
    ) -> Result<(), RowFault> {
        let path = read_path(self.alloc, row)?;
        let mut tree = read_same(self.alloc, row)?;
        let found = self.cache.digest(rt, self.alloc, &mut tree, &path);
        write_found(self.alloc, answer, &found)?;
        answer.word("reads")?;
        answer.number(tree.reads())?;
        Ok(())
    }

    /// `twice`: what the two threads were told. How often each tree was read, is as the threads ran.
    pub(crate) fn answer_twice(&self, answer: &mut Answer) -> Result<(), RowFault> {
        for found in &self.told {
            write_found(self.alloc, answer, found)?;
        }
        Ok(())
    }
}
