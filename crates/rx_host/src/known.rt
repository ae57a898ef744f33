//! The files below a directory, with the contents that the sessions of a process share. A kept file isn't opened, and what a look has
//! just told of it isn't asked again.

ghost use Rattle.std.specs.Prelude.{IfOk};
ghost use Rattle.rx_world.specs.Sources.{HasBytes};

use crate::below::{Below, Standing, parent_of};
use crate::contents::{Content, Contents};
use crate::reading::ReadFile;
use rx_base::{Bytes, Items, RelPath, TryClone};
use rx_world::{Found, Look};
use std::alloc::Global;
use std::collections::{BTreeMap, BTreeSet};
use std::fs::{File, Files};
use std::io;
use std::sync::Arc;
use std::time::{Clock, Duration, SystemTime, UNIX_EPOCH};

/// What stands at a path: a file whose content is kept, or anything else, though something above it may be a link.
#[derive(Drop)]
enum Asked {
    Kept(Arc<Content, Global>),
    Other(Standing),
}

/// The files below a directory. Where a content is kept of what stands at a path, each directory above it is asked for but once by
/// this object, and the read that follows a look takes what that found.
#[derive(Drop)]
pub(crate) struct Known<R> {
    tree: Below<R>,
    contents: Contents,
    /// Texts of directories that were seen to be such, with no link on the way.
    seen: BTreeSet<String>,
    /// The kept content that the last look at each path found, until the path is read.
    looked: BTreeMap<RelPath, Option<Arc<Content, Global>>>,
}

impl<R: Files<File = File> + AllocGlobal + Clock> Known<R> {
    /// The files below this directory.
    pub(crate) fn new(rt: R, root: String, contents: Contents) -> Known<R> {
        Known {
            seen: BTreeSet::new(rt.alloc()),
            looked: BTreeMap::new(rt.alloc()),
            tree: Below::new(rt, root),
            contents,
        }
    }

    pub(crate) fn runtime(&self) -> &R {
        self.tree.runtime()
    }

    /// What stands at a path.
    pub(crate) fn look_at(&mut self, path: &RelPath) -> io::Result<Look> {
        self.take_looked(path);
        match self.ask(path)? {
            Asked::Kept(content) => {
                let look = self.tree.look_of(path, Some(&content.metadata))?;
                self.keep_looked(path, content);
                Ok(look)
            }
            Asked::Other(standing) => {
                let standing = self.tree.confirm(path, standing)?;
                self.tree.look_of(path, standing.metadata.as_ref())
            }
        }
    }

    /// Takes what the last look at a path found. (Its entry stays, since to remove it would move others.)
    fn take_looked(&mut self, path: &RelPath) -> Option<Arc<Content, Global>> {
        self.looked.get_mut(path)?.take()
    }

    /// Keeps what a look found, where there is memory for it.
    fn keep_looked(&mut self, path: &RelPath, content: Arc<Content, Global>) {
        if let Ok(path) = path.try_clone(self.tree.runtime().alloc()) {
            let _ = self.looked.insert(path, Some(content));
        }
    }

    /// What stands at a path, with the bytes of a file.
    pub(crate) fn read_at(&mut self, path: &RelPath) -> io::Result<(Look, Bytes)>
        ensures { IfOk result (λ read. HasBytes read.0 read.1) }
    {
        let asked = match self.take_looked(path) {
            Some(content) => Asked::Kept(content),
            None => self.ask(path)?,
        };
        let read = match asked {
            Asked::Kept(content) => self.read_kept(&content)?,
            Asked::Other(standing) => self.read_anew(path, &standing)?,
        };
        Ok(self.tree.seen_as(read))
    }

    /// A file whose content is kept.
    fn read_kept(&self, content: &Content) -> io::Result<ReadFile> {
        let bytes = Vec::from_slice(self.tree.runtime().alloc(), content.bytes.as_slice())?;
        Ok(ReadFile {
            metadata: Some(content.metadata.clone()?),
            bytes,
        })
    }

    /// What stands at a path, which is opened. Where it is a file its content is kept.
    fn read_anew(&mut self, path: &RelPath, standing: &Standing) -> io::Result<ReadFile> {
        let began = now(self.tree.runtime());
        let read = self.tree.read_standing(path, standing)?;
        if let Some(began) = began {
            let alloc = self.tree.runtime().alloc();
            self.contents.keep(alloc, &read, began);
        }
        Ok(read)
    }

    /// Asks the system for what stands at a path.
    fn ask(&mut self, path: &RelPath) -> io::Result<Asked> {
        let standing = self.tree.ask(path)?;
        match self.kept_at(path, &standing)? {
            Some(content) => Ok(Asked::Kept(content)),
            None => Ok(Asked::Other(standing)),
        }
    }

    /// The kept content of a path of which the system tells this.
    fn kept_at(
        &mut self,
        path: &RelPath,
        standing: &Standing,
    ) -> io::Result<Option<Arc<Content, Global>>> {
        let Some(metadata) = standing.file() else {
            return Ok(None);
        };
        match self.contents.find(metadata) {
            Some(kept) if self.is_way_seen(path, standing.text.as_str())? => Ok(Some(kept)),
            _ => Ok(None),
        }
    }

    /// Whether all above a path was seen to be directories, now or before.
    fn is_way_seen(&mut self, path: &RelPath, text: &str) -> io::Result<bool> {
        let above = parent_of(text);
        if self.seen.contains(above) {
            return Ok(true);
        }
        if !self.tree.is_below_directories(path, text)? {
            return Ok(false);
        }
        self.seen
            .insert(String::from_str(self.tree.runtime().alloc(), above)?)?;
        Ok(true)
    }
}

impl<R: Files<File = File> + AllocGlobal + Clone + Drop> Known<R> {
    /// The files at or below a path: at most one more than `most`.
    pub(crate) fn list_at(&mut self, under: &RelPath, most: usize) -> io::Result<Items<Found>> {
        self.tree.list_at(under, most)
    }
}

/// The time since 1970, where the system tells it.
fn now(rt: &impl Clock) -> Option<Duration> {
    SystemTime::now(rt).ok()?.duration_since(UNIX_EPOCH).ok()
}
