//! The limits on the files of a command: how many there may be, and how large.

ghost use Rattle.std.specs.Prelude.{◌≡◌, ◌<◌, ◌≤◌, ◌^◌, All, None, length, option_copied};
ghost use Rattle.rx_base.specs.Results.{Equals, Gives};
ghost use Rattle.rx_scan.specs.declared.gather_fault.GatherFault.TheVariants.{NoMemory as no_memory, TooLarge};
ghost use Rattle.rx_scan.specs.Limits.{bytes_limit, check_of, files_limit, large_file, most_files, sizes_of, total_of, total_size};
ghost use Rattle.rx_reach.specs.Searches.{most_file_bytes};

use crate::gather_fault::GatherFault;
use crate::seen_files::SeenFile;
use rx_base::TryClone;
use rx_reach::MAX_FILE_BYTES;
use rx_world::Limit;
use std::alloc::Global;

/// The most files of a scan.
pub(crate) const MAX_SCAN_FILES: usize = 20_000;

/// The most files of a whole list.
pub(crate) const MAX_LIST_FILES: usize = 50_000;

/// The most bytes of the files together.
const MAX_BYTES: u64 = 1_073_741_824;

/// The two kinds of lists of files, which have limits of their own.
#[derive(Clone, Copy, Debug, PartialEq, Eq)]
pub(crate) enum Extent {
    /// The declared and the reached files.
    Scan,
    /// All files that the source tree lists.
    WholeList,
}

impl Extent {
    /// How many files there may be.
    fn most_files(self) -> usize
        ensures { result ≡ most_files self }
    {
        match self {
            Extent::Scan => MAX_SCAN_FILES,
            Extent::WholeList => MAX_LIST_FILES,
        }
    }

    fn files_limit(self) -> Limit
        ensures { result ≡ files_limit self }
    {
        match self {
            Extent::Scan => Limit::ScanFiles,
            Extent::WholeList => Limit::ListFiles,
        }
    }

    fn bytes_limit(self) -> Limit
        ensures { result ≡ bytes_limit self }
    {
        match self {
            Extent::Scan => Limit::ScanBytes,
            Extent::WholeList => Limit::ListBytes,
        }
    }
}

/// Checks that the files, which are sorted, are within the limits of their kind of list: first how
/// many they are, then how large each is, then how large all are.
pub(crate) fn check_limits(
    alloc: Global,
    extent: Extent,
    files: &[SeenFile],
) -> Result<(), GatherFault>
    ensures { Gives no_memory (λ checked. checked) result (check_of extent files.now) }
{
    let most = extent.most_files();
    if files.len() > most {
        return Err(passed(extent.files_limit(), most as u64 + 1));
    }
    check_sizes(alloc, extent, files)
}

/// Checks how large each of the files is, and all of them.
fn check_sizes(alloc: Global, extent: Extent, files: &[SeenFile]) -> Result<(), GatherFault>
    requires { length files.now ≤ 50000 }
    ensures { Gives no_memory
        (λ checked. checked) result (sizes_of extent files.now (large_file files.now)) }
{
    match large_file(files) {
        Some(file) => Err(GatherFault::TooLarge {
            limit: Limit::FileBytes,
            n: file.stamp.size,
            path: Some(file.path.try_clone(alloc)?),
        }),
        None => check_total(extent, files),
    }
}

/// Checks how large all of the files are, none of which is too large.
fn check_total(extent: Extent, files: &[SeenFile]) -> Result<(), GatherFault>
    requires few { length files.now ≤ 50000 }
    requires small { All (λ file. file.stamp.size ≤ most_file_bytes) files.now }
    ensures { Equals (λ checked. checked) result (total_of extent files.now) }
{
    let total = total_size(files);
    if total > MAX_BYTES {
        return Err(passed(extent.bytes_limit(), total));
    }
    Ok(())
}

/// The refusal of files that together pass a limit.
fn passed(limit: Limit, n: u64) -> GatherFault
    ensures { result ≡ TooLarge limit n None }
{
    GatherFault::TooLarge {
        limit,
        n,
        path: None,
    }
}

/// The first of the files that is too large.
fn large_file(files: &[SeenFile]) -> Option<&SeenFile>
    ensures { option_copied result ≡ large_file files.now }
{
    files.iter().find(|file| file.stamp.size > MAX_FILE_BYTES)
}

/// How many bytes the files have together.
fn total_size(files: &[SeenFile]) -> u64
    requires { total_size files.now < 2 ^ 64 }
    ensures { result ≡ total_size files.now }
{
    files.iter().map(|file| file.stamp.size).sum()
}
