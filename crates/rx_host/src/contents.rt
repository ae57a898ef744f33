//! Contents of files of the source tree, kept from one session for those after it, so that a header which many steps include isn't
//! opened and read by each. What tells the states of a file apart is said here, and when its content may be kept.

use crate::reading::ReadFile;
use rx_memo::Memo;
use std::alloc::{AllocError, Global};
use std::fs::Metadata;
use std::os::unix::fs::MetadataExt;
use std::sync::Arc;
use std::time::{Duration, SystemTime, UNIX_EPOCH};

/// The most bytes that contents take in all.
const MOST_BYTES: usize = 64 << 20;

/// The content of a longer file isn't kept.
const MOST_BYTES_OF_ONE: usize = 1 << 20;

/// For so long a file has to be as it is before it is read. A change that comes once it is read has another time then, since the
/// clocks of file systems go by smaller steps.
const QUIET_SECONDS: i64 = 2;

/// Which file of the machine it is, whatever path leads to it.
#[derive(Clone, Copy, PartialEq, Eq, PartialOrd, Ord)]
struct FileNumber {
    device: u64,
    number: u64,
}

/// The state of a file. Whatever is written to it, the system sets the time of its last change, and no call sets that one
/// (POSIX, <sys/stat.h>, st_ctim).
#[derive(Clone, Copy, PartialEq, Eq)]
struct State {
    file: FileNumber,
    mode: u32,
    size: u64,
    modified: (i64, i64),
    changed: (i64, i64),
}

impl State {
    fn of(metadata: &Metadata) -> State {
        State {
            file: FileNumber {
                device: metadata.dev(),
                number: metadata.ino(),
            },
            mode: metadata.mode(),
            size: metadata.len(),
            modified: (metadata.mtime(), metadata.mtime_nsec()),
            changed: (metadata.ctime(), metadata.ctime_nsec()),
        }
    }

    /// Whether the file is as it is since a while before this time. A system that tells no time of a change says 0.
    fn is_quiet(&self, now: Duration) -> bool {
        let seconds = i64::try_from(now.as_secs()).unwrap_or(0);
        0 < self.changed.0 && self.changed.0 < seconds.saturating_sub(QUIET_SECONDS)
    }
}

/// The content of a file, and what the system told of the file then.
#[derive(Drop)]
pub(crate) struct Content {
    pub(crate) metadata: Metadata,
    pub(crate) bytes: Vec<u8>,
}

/// The contents that the sessions of a process share.
#[derive(Drop)]
pub struct Contents {
    by_file: Arc<Memo<FileNumber, Content>, Global>,
}

impl Contents {
    /// None is kept yet.
    pub fn new(alloc: Global) -> Result<Contents, AllocError> {
        Ok(Contents {
            by_file: Arc::new(alloc, Memo::new(alloc, MOST_BYTES))?,
        })
    }

    /// Another handle of the same.
    pub fn share(&self) -> Result<Contents, AllocError> {
        Ok(Contents {
            by_file: Arc::try_clone(&self.by_file)?,
        })
    }

    /// The content of a file of which the system tells this now.
    pub(crate) fn find(&self, metadata: &Metadata) -> Option<Arc<Content, Global>> {
        let state = State::of(metadata);
        let content = self.by_file.find(&state.file)?;
        if State::of(&content.metadata) == state {
            Some(content)
        } else {
            None
        }
    }

    /// Keeps what was read of a file, unless it is long, or changed but a moment before this time, at which its reading began.
    pub(crate) fn keep(&self, alloc: Global, read: &ReadFile, began: Duration) {
        let Some(metadata) = &read.metadata else {
            return;
        };
        let state = State::of(metadata);
        if metadata.is_file() && read.bytes.len() <= MOST_BYTES_OF_ONE && state.is_quiet(began) {
            let _ = self.keep_in(alloc, metadata, read.bytes.as_slice());
        }
    }

    fn keep_in(&self, alloc: Global, metadata: &Metadata, bytes: &[u8]) -> Result<(), AllocError> {
        let file = State::of(metadata).file;
        let taken = bytes.len();
        let content = Content {
            metadata: metadata.clone()?,
            bytes: Vec::from_slice(alloc, bytes)?,
        };
        let content = Arc::new(alloc, content)?;
        self.by_file.keep(alloc, file, content, taken);
        Ok(())
    }
}
