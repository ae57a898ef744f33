//! The bytes of files below a directory. A file is opened by its whole path, and read only where the
//! system says of what was opened that it stands at this path, with no link on the way.

use crate::below::{Below, Standing, told};
use rx_base::RelPath;
use std::fs::{File, Files, Metadata};
use std::io::{Error, ErrorKind, Read};
use std::os::fd::AsRawFd;
use std::{fs, io};

/// How often a file is opened anew that another one took the place of while it was opened.
const OPEN_TRIES: u32 = 8;

/// The most bytes for which room is taken by what the system tells of a file's size. Of a longer file, and of one that
/// isn't as long as it is told to be, room is taken as its bytes come.
const MOST_ROOM: u64 = 1 << 20;

/// A path with the bytes of its file; anything else has none.
#[derive(Drop)]
pub(crate) struct ReadFile {
    pub(crate) metadata: Option<Metadata>,
    pub(crate) bytes: Vec<u8>,
}

/// A regular file that was opened, and its size a moment ago.
#[derive(Drop)]
struct OpenedFile {
    file: File,
    size: u64,
}

/// What came of opening a path.
#[derive(Drop)]
enum Opened {
    /// The regular file there.
    File(OpenedFile),
    /// No regular file stands there.
    Other(Option<Metadata>),
    /// Something else came there meanwhile.
    Replaced,
}

impl<R: Files<File = File> + AllocGlobal> Below<R> {
    /// What stands at a path, with the bytes of a regular file. They are those of the file that stood
    /// there once it was opened; what is told of it is told once they are read.
    pub(crate) fn read(&mut self, path: &RelPath) -> io::Result<ReadFile> {
        let standing = self.ask(path)?;
        self.read_standing(path, &standing)
    }

    /// The same of a path of which the system has just told this.
    pub(crate) fn read_standing(
        &mut self,
        path: &RelPath,
        standing: &Standing,
    ) -> io::Result<ReadFile> {
        if let Some(opened) = self.open_at_once(path, standing)? {
            return self.read_all(opened);
        }
        for _ in 0..OPEN_TRIES {
            match self.open(path)? {
                Opened::File(opened) => return self.read_all(opened),
                Opened::Other(metadata) => {
                    let bytes = Vec::new(self.rt.alloc());
                    return Ok(ReadFile { metadata, bytes });
                }
                Opened::Replaced => {}
            }
        }
        Err(Error::other("the file was replaced each time it was opened"))
    }

    /// The bytes of a file. Where the first read gives as many as its size a moment ago, and the system tells the same size
    /// after it, that was the end.
    fn read_all(&self, opened: OpenedFile) -> io::Result<ReadFile> {
        let OpenedFile { file, size } = opened;
        let mut file = file;
        let mut bytes = self.read_once(&mut file, size)?;
        if bytes.len() as u64 == size {
            let metadata = file.metadata()?;
            if metadata.len() == size {
                let metadata = Some(metadata);
                return Ok(ReadFile { metadata, bytes });
            }
        }
        file.read_to_end(&mut bytes)?;
        let metadata = Some(file.metadata()?);
        Ok(ReadFile { metadata, bytes })
    }

    /// The bytes that one read gives. With room for one byte more than there are it reaches the end.
    fn read_once(&self, file: &mut File, size: u64) -> io::Result<Vec<u8>> {
        let room = size.min(MOST_ROOM) as usize + 1;
        let mut bytes = Vec::new(self.rt.alloc());
        bytes.resize(room, 0)?;
        let count = match file.read(bytes.as_mut_slice()) {
            Ok(count) => count,
            Err(error) if error.kind() == ErrorKind::Interrupted => 0,
            Err(error) => return Err(error),
        };
        bytes.truncate(count);
        Ok(bytes)
    }

    /// Opens the file at a path, which is asked for name by name before and after.
    fn open(&mut self, path: &RelPath) -> io::Result<Opened> {
        let before = self.find(path)?;
        if before.file().is_none() {
            return Ok(Opened::Other(before.metadata));
        }
        let Some(file) = told(fs::open(&self.rt, before.text.as_str()))? else {
            return Ok(Opened::Replaced);
        };
        let metadata = file.metadata()?;
        if self.find(path)?.is_same(&metadata) {
            let size = metadata.len();
            Ok(Opened::File(OpenedFile { file, size }))
        } else {
            Ok(Opened::Replaced)
        }
    }

    /// The regular file at a path of which the system has just told this, where it says that what was opened stands there.
    fn open_at_once(
        &mut self,
        path: &RelPath,
        standing: &Standing,
    ) -> io::Result<Option<OpenedFile>> {
        let Some(metadata) = standing.file() else {
            return Ok(None);
        };
        let size = metadata.len();
        match fs::open(&self.rt, standing.text.as_str()) {
            Ok(file) if self.is_in_place(path, standing.text.as_str(), &file)? => {
                Ok(Some(OpenedFile { file, size }))
            }
            _ => Ok(None),
        }
    }

    /// Whether the system says that a file, which was opened by this text, stands at a path: by the link of its
    /// descriptor, whose text names the directories above the file, and no link (Linux, proc(5), /proc/pid/fd). It is
    /// false too where the system has no such links.
    fn is_in_place(&mut self, path: &RelPath, text: &str, file: &File) -> io::Result<bool> {
        let descriptor = file.as_raw_fd();
        let link = format!(in self.rt.alloc(); "/proc/self/fd/{descriptor}")?;
        let Ok(named) = fs::read_link(&self.rt, link.as_str()) else {
            return Ok(false);
        };
        // (so no link is in the root's text either)
        if named.as_str() == text {
            return Ok(true);
        }
        let Some(root) = self.real_root() else {
            return Ok(false);
        };
        Ok(match named.as_str().strip_prefix(root) {
            Some(below) => below.strip_prefix('/') == Some(path.as_str()),
            None => false,
        })
    }

    /// The root's path with no link in it, as it was when it was first asked for. Where the root leads
    /// elsewhere by now, no file is in place, and all are opened name by name.
    fn real_root(&mut self) -> Option<&str> {
        if self.real_root.is_none() {
            let path = fs::canonicalize(&self.rt, self.root.as_str()).ok()?;
            self.real_root = Some(path.into_string());
        }
        match &self.real_root {
            Some(path) => Some(path.as_str()),
            None => None,
        }
    }
}
