//! One source tree in memory from row to row, of `rx_fakes`.

use rx_base::Bytes;
use rx_fakes::{
    Change, MemorySources, Script, SourceEntries, TreeFault, When, honest_read, read_tree,
};
use rx_row_values::{read_path, read_string, write_look};
use rx_rows::{Answer, Row, RowFault};
use rx_world::Sources;
use std::alloc::Global;
use std::marker::Brand;

/// The tree of the last `tree` row.
#[derive(Drop)]
pub(crate) struct Trees {
    alloc: Global,
    tree: MemorySources<Brand>,
}

/// `MARK TEXT`: the tree of a text, whose files have this mark.
fn tree_in(alloc: Global, row: &mut Row<'_>) -> Result<MemorySources<Brand>, RowFault> {
    let mark = row.number()?;
    let text = read_string(alloc, row)?;
    match read_tree(alloc, text.as_str(), u128::from(mark)) {
        Ok(tree) => Ok(tree),
        Err(TreeFault::NoMemory) => Err(RowFault::NoMemory),
        Err(_) => Err(RowFault::BadCall),
    }
}

impl Trees {
    /// An empty tree.
    pub(crate) fn new(alloc: Global) -> Trees {
        let entries = SourceEntries::new(alloc);
        Trees {
            alloc,
            tree: MemorySources::new(alloc, entries, None, Script::empty(alloc)),
        }
    }

    /// `later CALLS MARK TEXT`: what the tree becomes behind so many calls.
    fn set_later(&mut self, row: &mut Row<'_>) -> Result<(), RowFault> {
        let when = When::AfterCalls(row.number()?);
        let entries = tree_in(self.alloc, row)?.entries;
        self.tree.change = Some(Change { when, entries });
        Ok(())
    }

    /// `look PATH`: what stands there.
    fn answer_look(&mut self, row: &mut Row<'_>, answer: &mut Answer) -> Result<(), RowFault> {
        let path = read_path(self.alloc, row)?;
        match self.tree.look(&path) {
            Ok(look) => write_look(self.alloc, answer, look)?,
            Err(fault) => answer.value(&fault)?,
        }
        Ok(())
    }

    /// `read PATH`: what stands there, and its bytes.
    fn answer_read(&mut self, row: &mut Row<'_>, answer: &mut Answer) -> Result<(), RowFault> {
        let path = read_path(self.alloc, row)?;
        match self.tree.read(&path) {
            Ok((look, bytes)) => {
                write_look(self.alloc, answer, look)?;
                answer.text(bytes.as_slice())?;
            }
            Err(fault) => answer.value(&fault)?,
        }
        Ok(())
    }

    /// `list PATH MOST`: the files there and below.
    fn answer_list(&mut self, row: &mut Row<'_>, answer: &mut Answer) -> Result<(), RowFault> {
        let path = read_path(self.alloc, row)?;
        let most = row.number()? as usize;
        let Ok(found) = self.tree.list(&path, most) else {
            return Err(RowFault::BadCall);
        };
        for file in found.as_slice() {
            answer.text(file.path.as_str().as_bytes())?;
            write_look(self.alloc, answer, file.look)?;
        }
        Ok(())
    }

    /// Rows of the tree.
    pub(crate) fn call(
        &mut self,
        word: &str,
        row: &mut Row<'_>,
        answer: &mut Answer,
    ) -> Result<(), RowFault> {
        match word {
            "look" => return self.answer_look(row, answer),
            "read" => return self.answer_read(row, answer),
            "list" => return self.answer_list(row, answer),
            "tree" => self.tree = tree_in(self.alloc, row)?,
            "later" => self.set_later(row)?,
            _ => return Err(RowFault::NoCall),
        }
        answer.word("ok")?;
        Ok(())
    }
}

/// `honest PATH TEXT`: the bytes that are read at a path of a world whose stamps are honest.
pub(crate) fn answer_honest(
    alloc: Global,
    row: &mut Row<'_>,
    answer: &mut Answer,
) -> Result<(), RowFault> {
    let path = read_path(alloc, row)?;
    let bytes = Bytes::from_vec(row.text(alloc)?);
    let Ok((_, read)) = honest_read(alloc, path, bytes) else {
        return Err(RowFault::NoMemory);
    };
    answer.text(read.as_slice())?;
    Ok(())
}
