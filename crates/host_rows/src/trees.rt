//! The files below a directory of this process.

use crate::answers::{write_done, write_refused};
use rx_host::{Contents, HostPlace, HostSources, remove_left_sandboxes};
use rx_row_values::{read_path, read_string};
use rx_rows::{Answer, Row, RowFault};
use rx_world::{Look, Place, Sources};
use std::alloc::AllocError;
use std::fs::OpenOptions;
use std::io::Write;
use std::os::unix::fs::symlink;
use std::time::Duration;
use std::{fs, io, thread};

/// Once it has passed, the content of a file that is read is kept: a file has to be as it is for two seconds, by whole ones.
const REST_MILLIS: u64 = 3100;

/// The number in the names of new files, whichever process this is.
pub(crate) const NAMES_NUMBER: u32 = 1;

/// A directory, the source tree and the output tree in it.
#[derive(Drop)]
pub(crate) struct Tree {
    rt: HostRuntime,
    root: String,
    contents: Contents,
    sources: HostSources<HostRuntime>,
    place: HostPlace<HostRuntime>,
}

/// A look in words.
fn word_of(look: Look) -> &'static str {
    match look {
        Look::Absent => "absent",
        Look::File { executable, .. } => { if executable { "executable" } else { "file" } }
        Look::Dir => "directory",
        Look::Other => "other",
    }
}

/// Writes to the beginning of a file, and leaves the time of its modification as it was.
fn write_over(rt: &HostRuntime, file: &str, text: &[u8]) -> io::Result<()> {
    let mut file = OpenOptions::new().write(true).open(rt, file)?;
    let modified = file.metadata()?.modified()?;
    file.write_all(text)?;
    file.set_modified(modified)
}

impl Tree {
    /// The files below this directory, which needn't be there yet.
    pub(crate) fn new(rt: HostRuntime, root: &str) -> Result<Tree, AllocError> {
        let alloc = rt.alloc();
        let contents = Contents::new(alloc)?;
        Ok(Tree {
            rt,
            root: String::from_str(alloc, root)?,
            sources: HostSources::new(rt, String::from_str(alloc, root)?, contents.share()?),
            contents,
            place: HostPlace::new(rt, String::from_str(alloc, root)?, NAMES_NUMBER),
        })
    }

    /// `root`: makes the directory anew.
    pub(crate) fn create(&self, answer: &mut Answer) -> Result<(), RowFault> {
        let _ = fs::remove_dir_all(&self.rt, self.root.as_str());
        write_done(fs::create_dir(&self.rt, self.root.as_str()), answer)
    }

    /// `remove`: removes the directory, which has to be empty.
    pub(crate) fn remove(&self, answer: &mut Answer) -> Result<(), RowFault> {
        write_done(fs::remove_dir(&self.rt, self.root.as_str()), answer)
    }

    /// `place PATH TEXT MARK`: puts a file into the output tree.
    pub(crate) fn place(&mut self, row: &mut Row<'_>, answer: &mut Answer) -> Result<(), RowFault> {
        let alloc = self.rt.alloc();
        let (path, text) = (read_path(alloc, row)?, row.text(alloc)?);
        let executable = row.word()? == "executable";
        write_done(self.place.place(&path, &text, executable), answer)
    }

    /// `link PATH TARGET`: makes a link, by no adapter.
    pub(crate) fn link(&self, row: &mut Row<'_>, answer: &mut Answer) -> Result<(), RowFault> {
        let alloc = self.rt.alloc();
        let (path, target) = (read_string(alloc, row)?, read_string(alloc, row)?);
        let link = format!(in alloc; "{}/{path}", self.root)?;
        write_done(symlink(&self.rt, target.as_str(), link), answer)
    }

    /// `move FROM TO`: gives what stands at one path another path, by no adapter.
    pub(crate) fn move_it(&self, row: &mut Row<'_>, answer: &mut Answer) -> Result<(), RowFault> {
        let alloc = self.rt.alloc();
        let (from, to) = (read_string(alloc, row)?, read_string(alloc, row)?);
        let from = format!(in alloc; "{}/{from}", self.root)?;
        let to = format!(in alloc; "{}/{to}", self.root)?;
        write_done(fs::rename(&self.rt, from, to), answer)
    }

    /// `overwrite PATH TEXT`: writes to the beginning of a file, by no adapter, and leaves the time of its modification as it was.
    pub(crate) fn overwrite(&self, row: &mut Row<'_>, answer: &mut Answer) -> Result<(), RowFault> {
        let alloc = self.rt.alloc();
        let (path, text) = (read_path(alloc, row)?, row.text(alloc)?);
        let file = format!(in alloc; "{}/{}", self.root, path.as_str())?;
        write_done(write_over(&self.rt, file.as_str(), &text), answer)
    }

    /// `rest`: waits until the files are quiet.
    pub(crate) fn rest(&self, answer: &mut Answer) -> Result<(), RowFault> {
        thread::sleep(&self.rt, Duration::from_millis(REST_MILLIS));
        answer.word("ok")?;
        Ok(())
    }

    /// `clear`: removes the sandboxes that were left in the directory, and tells how many.
    pub(crate) fn clear(&self, answer: &mut Answer) -> Result<(), RowFault> {
        answer.number(remove_left_sandboxes(&self.rt, self.root.as_str()))?;
        Ok(())
    }

    /// `session`: the source tree is that of another session.
    pub(crate) fn begin_session(&mut self, answer: &mut Answer) -> Result<(), RowFault> {
        let root = String::from_str(self.rt.alloc(), self.root.as_str())?;
        self.sources = HostSources::new(self.rt, root, self.contents.share()?);
        answer.word("ok")?;
        Ok(())
    }

    /// `look PATH`: what stands there.
    pub(crate) fn look(&mut self, row: &mut Row<'_>, answer: &mut Answer) -> Result<(), RowFault> {
        let path = read_path(self.rt.alloc(), row)?;
        match self.sources.look(&path) {
            Ok(look) => answer.word(word_of(look))?,
            Err(_) => answer.word("failed")?,
        }
        Ok(())
    }

    /// `mark PATH`: the mark of the file there, in hexadecimal digits.
    pub(crate) fn mark(&mut self, row: &mut Row<'_>, answer: &mut Answer) -> Result<(), RowFault> {
        let path = read_path(self.rt.alloc(), row)?;
        match self.sources.look(&path) {
            Ok(Look::File { stamp, .. }) => answer.bytes(&stamp.mark.to_be_bytes())?,
            _ => return Err(RowFault::BadCall),
        }
        Ok(())
    }

    /// `read PATH`: what stands there, a file's text, and whether a look says the same.
    pub(crate) fn read(&mut self, row: &mut Row<'_>, answer: &mut Answer) -> Result<(), RowFault> {
        let path = read_path(self.rt.alloc(), row)?;
        match self.sources.read(&path) {
            Ok((look, bytes)) => {
                answer.word(word_of(look))?;
                answer.text(bytes.as_slice())?;
                let is_same = self.sources.look(&path) == Ok(look);
                answer.word(if is_same { "same" } else { "changed" })?;
                Ok(())
            }
            Err(refused) => write_refused(refused, answer),
        }
    }

    /// `list PATH MOST`: the files at or below a path.
    pub(crate) fn list(&mut self, row: &mut Row<'_>, answer: &mut Answer) -> Result<(), RowFault> {
        let path = read_path(self.rt.alloc(), row)?;
        let Ok(most) = usize::try_from(row.number()?) else {
            return Err(RowFault::BadNumber);
        };
        match self.sources.list(&path, most) {
            Ok(found) => {
                for one in found.as_slice() {
                    answer.text(one.path.as_str().as_bytes())?;
                }
                Ok(())
            }
            Err(refused) => write_refused(refused, answer),
        }
    }
}
