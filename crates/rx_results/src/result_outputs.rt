//! An output of a command with what a result has there: how often it has something, and the first
//! file.

ghost use Rattle.std.specs.Prelude.{◌≡◌};
ghost use Rattle.rx_results.specs.Outcomes.{body_of, texts_after};
ghost use Rattle.rx_results.specs.ResultOutputs.{file_with, has_no_digest, is_absent, is_repeated, nothing_at, result_file, slot_at, times_after, with_one_more};
ghost use Rattle.rx_results.specs.Slots.{file_size, mismatch_of, wanted};

use crate::slots::{DigestMismatch, Slot};
use rx_base::{Bytes, RelPath, Text};
use rx_messages::OutputFile;
use rx_world::FileOut;
use std::alloc::Global;
use std::collections::VecDeque;

/// How often a result has something at an output.
#[derive(Clone, Copy, Debug, PartialEq, Eq)]
pub(crate) enum Times {
    Never,
    Once,
    /// More than once.
    Again,
}

/// A file that a result has at an output.
#[derive(Debug, Drop)]
pub(crate) struct ResultFile {
    /// Where its bytes come from.
    pub(crate) source: Slot,
    pub(crate) executable: bool,
}

/// An output of a command, and what a result has there.
#[derive(Debug, Drop)]
pub(crate) struct ResultOutput {
    pub(crate) path: RelPath,
    /// How often the result has a file, a directory or a link here.
    pub(crate) times: Times,
    /// The file here, the first of the result's.
    pub(crate) file: Option<ResultFile>,
}

impl Times {
    /// Once more.
    fn more(self) -> Times
        ensures { result ≡ times_after self 1 }
    {
        match self {
            Times::Never => Times::Once,
            Times::Once | Times::Again => Times::Again,
        }
    }
}

impl ResultFile {
    /// The path of a result's file, and the file without it. Its contents aren't copied.
    pub(crate) fn of(file: OutputFile) -> (Text, ResultFile)
        ensures path { result.0 ≡ file.path }
        ensures file { result.1 ≡ result_file file }
    {
        let OutputFile {
            path,
            digest,
            is_executable,
            contents,
        } = file;
        let source = Slot {
            inline: contents,
            digest,
        };
        let file = ResultFile {
            source,
            executable: is_executable,
        };
        (path, file)
    }
}

impl ResultOutput {
    /// An output with nothing there.
    pub(crate) fn new(path: RelPath) -> ResultOutput
        ensures { result ≡ nothing_at path }
    {
        ResultOutput {
            path,
            times: Times::Never,
            file: None,
        }
    }

    /// Counts one more thing here. Of files the first stays.
    pub(crate) fn add(&mut self, file: Option<ResultFile>)
        ensures { self.new ≡ with_one_more file self.old }
    {
        self.times = self.times.more();
        if self.file.is_none() {
            self.file = file;
        }
    }

    /// Whether the result has more than one thing here.
    pub(crate) fn is_repeated(&self) -> bool
        ensures { result ≡ is_repeated self.now }
    {
        matches!(self.times, Times::Again)
    }

    /// Whether the result has no file here.
    pub(crate) fn is_absent(&self) -> bool
        ensures { result ≡ is_absent self.now }
    {
        self.file.is_none()
    }

    /// Whether the result has a file here and names no digest of it.
    pub(crate) fn has_no_digest(&self) -> bool
        ensures { result ≡ has_no_digest self.now }
    {
        match &self.file {
            Some(file) => file.source.digest.is_none(),
            None => false,
        }
    }

    /// The size of the file here by its digest, and 0 without one.
    pub(crate) fn size(&self) -> u64
        ensures { result ≡ file_size (slot_at self.now) }
    {
        match &self.file {
            Some(file) => file.source.size_told(),
            None => 0,
        }
    }

    /// Both digests, where the contents in the result haven't the one that is named.
    pub(crate) fn mismatch(&self) -> Option<DigestMismatch>
        ensures { result ≡ mismatch_of (slot_at self.now) }
    {
        match &self.file {
            Some(file) => file.source.mismatch(),
            None => None,
        }
    }

    /// The file that comes of this output, with the contents in the result or else the next of the
    /// fetched texts. Without a file here it is one of no bytes.
    pub(crate) fn fill(self, alloc: Global, texts: &mut VecDeque<Bytes>) -> FileOut
        ensures file { result ≡ file_with self
            (body_of (wanted (slot_at self)) (slot_at self).inline texts.old.items) }
        ensures rest { texts.new.items ≡ texts_after (wanted (slot_at self)) texts.old.items }
    {
        let ResultOutput { path, file, .. } = self;
        let (bytes, executable) = match file {
            Some(file) => (file.source.fill(texts), file.executable),
            None => (Bytes::new(alloc), false),
        };
        FileOut {
            path,
            bytes,
            executable,
        }
    }
}
