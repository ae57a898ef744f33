//! How much a command may write. An outcome is held against the limits when its run is over and all
//! its outputs are taken.

ghost use Rattle.std.specs.Prelude.{◌≡◌, option_copied};
ghost use Rattle.rx_local.specs.Limits.{counted_bytes, large_file, passed_by, passed_by_file, passed_of};

use rx_world::{FileOut, Outcome, OutputLimit};

/// The most bytes of the file at an output.
const MAX_FILE_BYTES: u64 = 67_108_864;

/// The most bytes of the files at all outputs together.
const MAX_FILES_BYTES: u64 = 268_435_456;

/// The most bytes of standard output, and of standard error.
const MAX_TEXT_BYTES: u64 = 16_777_216;

/// A limit that is passed, and how many bytes there are. The count stops at the end of its 64 bits.
#[derive(Clone, Copy, Debug, PartialEq, Eq)]
pub(crate) struct Passed {
    pub limit: OutputLimit,
    pub n: u64,
}

/// The first limit that an outcome passes: that of one file, by the least path that passes it, of
/// all files, of standard output, of standard error. At a code other than 0 there are no files.
pub(crate) fn passed_limit(outcome: &Outcome) -> Option<Passed>
    ensures { result ≡ passed_of outcome.now }
{
    let files = outcome.files.as_slice();
    let (stdout, stderr) = (outcome.exit.stdout.len(), outcome.exit.stderr.len());
    passed_by_file(files)
        .or(passed_by(OutputLimit::FilesBytes, MAX_FILES_BYTES, count_bytes(files)))
        .or(passed_by(OutputLimit::TextBytes, MAX_TEXT_BYTES, stdout as u64))
        .or(passed_by(OutputLimit::TextBytes, MAX_TEXT_BYTES, stderr as u64))
}

/// The limit, where so many bytes are more than it allows.
fn passed_by(limit: OutputLimit, most: u64, n: u64) -> Option<Passed>
    ensures { result ≡ passed_by limit most n }
{
    if n > most {
        return Some(Passed { limit, n });
    }
    None
}

/// The limit of one file, where a file passes it.
fn passed_by_file(files: &[FileOut]) -> Option<Passed>
    ensures { result ≡ passed_by_file files.now }
{
    match large_file(files) {
        Some(file) => Some(Passed {
            limit: OutputLimit::FileBytes,
            n: file.bytes.len() as u64,
        }),
        None => None,
    }
}

/// The first of the files that is too large.
fn large_file(files: &[FileOut]) -> Option<&FileOut>
    ensures { option_copied result ≡ large_file files.now }
{
    files
        .iter()
        .find(|file| file.bytes.len() as u64 > MAX_FILE_BYTES)
}

/// How many bytes the files have together. The count stops at the end of its 64 bits.
fn count_bytes(files: &[FileOut]) -> u64
    ensures { result ≡ counted_bytes files.now }
{
    let mut total: u64 = 0;
    for file in files {
        total = total.saturating_add(file.bytes.len() as u64);
    }
    total
}
