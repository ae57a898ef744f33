//! The rows: what each does, by its first word.

use crate::commands::{command_in, kind_in, paths_in, strategy_in, variables_of};
use crate::gathered::{show_digests, show_fault, show_found, show_gathered};
use crate::readings::{show_reading, show_walked};
use rx_base::{Bytes, Items, RelPath};
use rx_cppflags::read_command;
use rx_digest_cache::DigestCache;
use rx_fakes::{MemorySources, Script, SourceEntries, TreeFault, read_tree};
use rx_row_values::{path_of, read_path, read_string};
use rx_rows::{Answer, Calls, Row, RowFault};
use rx_scan::{Choice, Gathered, gather};
use rx_world::Toy;
use std::alloc::Global;
use std::marker::Brand;
use std::sync::Wait;

/// A source tree and a cache, and what was gathered last.
#[derive(Drop)]
pub(crate) struct ScanCalls<'a, R> {
    rt: &'a R,
    alloc: Global,
    tree: MemorySources<Brand>,
    cache: DigestCache<Toy<Brand>>,
    gathered: Option<Gathered>,
}

/// How many digests a cache keeps that no row has made.
const CACHE_LIMIT: usize = 100;

/// The fault of a row whose text is no tree.
fn fault_of(fault: TreeFault) -> RowFault {
    match fault {
        TreeFault::NoMemory => RowFault::NoMemory,
        TreeFault::Path | TreeFault::Word => RowFault::BadCall,
    }
}

impl<'a, R: Wait> ScanCalls<'a, R> {
    /// An empty tree, and an empty cache.
    pub(crate) fn new(rt: &'a R, alloc: Global) -> ScanCalls<'a, R> {
        let entries = SourceEntries::new(alloc);
        ScanCalls {
            rt,
            alloc,
            tree: MemorySources::new(alloc, entries, None, Script::empty(alloc)),
            cache: DigestCache::new(alloc, CACHE_LIMIT).unwrap(),
            gathered: None,
        }
    }

    /// `tree MARK TEXT`: the tree of a text, of which nothing was read.
    fn set_tree(&mut self, row: &mut Row<'_>) -> Result<(), RowFault> {
        let mark = row.number()?;
        let text = read_string(self.alloc, row)?;
        match read_tree(self.alloc, text.as_str(), u128::from(mark)) {
            Ok(tree) => self.tree = tree,
            Err(fault) => return Err(fault_of(fault)),
        }
        Ok(())
    }

    /// `many DIR COUNT`: so many empty files below a directory.
    fn add_many(&mut self, row: &mut Row<'_>) -> Result<(), RowFault> {
        let dir = read_string(self.alloc, row)?;
        let dir_path = path_of(self.alloc, dir.as_str())?;
        self.tree.entries.add_dir(self.alloc, dir_path)?;
        for number in 0..row.number()? {
            let text = format!(in self.alloc; "{}/{number}", dir.as_str())?;
            let path = path_of(self.alloc, text.as_str())?;
            let bytes = Bytes::new(self.alloc);
            self.tree.entries.add_file(path, 0, false, bytes)?;
        }
        Ok(())
    }

    /// `cache LIMIT`: an empty cache that keeps so many digests.
    fn clear_cache(&mut self, row: &mut Row<'_>) -> Result<(), RowFault> {
        let limit = row.number()? as usize;
        self.cache = DigestCache::new(self.alloc, limit)?;
        Ok(())
    }

    /// `fails NUMBER`: the tree's call of this number fails.
    fn add_failure(&mut self, row: &mut Row<'_>) -> Result<(), RowFault> {
        self.tree.script.fails.push(row.number()?)?;
        Ok(())
    }

    /// `gather KIND STRATEGY INPUTS WORDS`: what a command runs on, or why that can't be gathered.
    /// `in-place` is the same, where its client runs what is kept here.
    fn call_gather(
        &mut self,
        in_place: bool,
        row: &mut Row<'_>,
        answer: &mut Answer,
    ) -> Result<(), RowFault> {
        let kind = kind_in(row)?;
        let strategy = strategy_in(row)?;
        let choice = Choice { strategy, in_place };
        let inputs = paths_in(self.alloc, row)?;
        let command = command_in(self.alloc, row, "w/out")?;
        self.gathered = None;
        let result = gather(
            self.rt,
            self.alloc,
            &command,
            kind,
            inputs.as_slice(),
            choice,
            &mut self.tree,
            &self.cache,
        );
        match result {
            Ok(gathered) => {
                show_gathered(answer, &gathered)?;
                self.gathered = Some(gathered);
            }
            Err(fault) => show_fault(self.alloc, answer, &fault)?,
        }
        Ok(())
    }

    /// `digests`: those of the files that were gathered last.
    fn call_digests(&self, answer: &mut Answer) -> Result<(), RowFault> {
        match &self.gathered {
            Some(gathered) => show_digests(self.alloc, answer, gathered)?,
            None => return Err(RowFault::BadCall),
        }
        Ok(())
    }

    /// `digest PATH`: the digest that the cache tells of a path.
    fn call_digest(&mut self, row: &mut Row<'_>, answer: &mut Answer) -> Result<(), RowFault> {
        let path = read_path(self.alloc, row)?;
        let found = self
            .cache
            .digest(self.rt, self.alloc, &mut self.tree, &path);
        show_found(self.alloc, answer, &found)?;
        Ok(())
    }

    /// `words WORDS NAMES INPUTS`: the words of a compile command, with variables of these names and
    /// these declared inputs.
    fn call_words(&self, row: &mut Row<'_>, answer: &mut Answer) -> Result<(), RowFault> {
        let mut command = command_in(self.alloc, row, "w/k/l")?;
        let names = read_string(self.alloc, row)?;
        command.environment = variables_of(self.alloc, names.as_str())?;
        let inputs: Items<RelPath> = paths_in(self.alloc, row)?;
        let reading = read_command(self.alloc, &command, inputs.as_slice())?;
        show_reading(answer, &reading)?;
        Ok(())
    }

    /// `walked WORDS`: the texts whose ways lead to what the words of a compile command name.
    fn call_walked(&self, row: &mut Row<'_>, answer: &mut Answer) -> Result<(), RowFault> {
        let command = command_in(self.alloc, row, "w/k/l")?;
        let reading = read_command(self.alloc, &command, &[])?;
        show_walked(answer, &reading)?;
        Ok(())
    }

    /// Rows that say what the tree or the cache is.
    fn call_state(&mut self, word: &str, row: &mut Row<'_>) -> Result<(), RowFault> {
        match word {
            "tree" => self.set_tree(row),
            "many" => self.add_many(row),
            "cache" => self.clear_cache(row),
            "fails" => self.add_failure(row),
            _ => Err(RowFault::NoCall),
        }
    }
}

impl<'a, R: Wait> Calls for ScanCalls<'a, R> {
    fn call(&mut self, row: &mut Row<'_>, answer: &mut Answer) -> Result<(), RowFault> {
        let word = row.word()?;
        match word {
            "gather" => self.call_gather(false, row, answer),
            "in-place" => self.call_gather(true, row, answer),
            "digests" => self.call_digests(answer),
            "digest" => self.call_digest(row, answer),
            "words" => self.call_words(row, answer),
            "walked" => self.call_walked(row, answer),
            // How many reads the tree has answered.
            "reads" => Ok(answer.number(self.tree.reads() as u64)?),
            _ => {
                self.call_state(word, row)?;
                Ok(answer.word("ok")?)
            }
        }
    }
}
