//! Why the files of a command are refused, in the words that the scan, the attempts and the replies
//! share.

use rx_base::{RelPath, Text};

/// A limit on the files of a command. A scan's files are the declared and the reached ones; a whole
/// list has all that the source tree lists.
#[derive(Clone, Copy, Debug, PartialEq, Eq)]
pub enum Limit {
    /// A scan has at most 20,000 files.
    ScanFiles,
    /// A file has at most 67,108,864 bytes.
    FileBytes,
    /// The files of a scan together have at most 1,073,741,824 bytes.
    ScanBytes,
    /// A whole list has at most 50,000 files.
    ListFiles,
    /// The files of a whole list together have at most 1,073,741,824 bytes.
    ListBytes,
}

/// A limit on what a command wrote.
#[derive(Clone, Copy, Debug, PartialEq, Eq)]
pub enum OutputLimit {
    /// A file at an output has at most 67,108,864 bytes.
    FileBytes,
    /// The files at all outputs together have at most 268,435,456 bytes.
    FilesBytes,
    /// Standard output and standard error have at most 16,777,216 bytes each.
    TextBytes,
}

/// What keeps a compile command on this machine.
#[derive(Debug, Drop)]
pub enum LocalCause {
    /// A word that isn't a compile word, or the name of an environment variable.
    Word { word: Text },
    /// The least path at which includes can't be followed.
    Path { path: RelPath },
}
