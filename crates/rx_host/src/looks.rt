//! From what the system tells of a file to a look. A stamp's mark is the time of the last
//! modification in nanoseconds since 1970. Where no such time is told, the mark is the first 128 bits
//! of the SHA-256 hash of the content.

ghost use Rattle.std.specs.Prelude.{◌≡◌, None, IfSome};
ghost use Rattle.rx_world.specs.declared.looks.Look.TheVariants.{Absent};
ghost use Rattle.rx_host.specs.Looks.{look_of, owner_executes};

use rx_base::digest_of;
use rx_world::{Look, Stamp};
use std::fs::Metadata;
use std::os::unix::fs::PermissionsExt;
use std::time::{Duration, SystemTime, UNIX_EPOCH};

/// The execute bit of a file's owner.
const OWNER_EXECUTES: u32 = 0o100;

/// The mark of a file by its time of modification, where one is told.
pub(crate) fn time_mark(metadata: &Metadata) -> Option<u128> {
    let modified = metadata.modified().ok()?;
    let since = modified.duration_since(UNIX_EPOCH).ok()?;
    Some(since.as_nanos())
}

/// The time of modification that a mark tells. The mark of a content tells none: it is past all such times, unless 64 of
/// its bits are zero.
pub(crate) fn time_of_mark(mark: u128) -> Option<SystemTime> {
    let nanoseconds = u64::try_from(mark).ok()?;
    UNIX_EPOCH.checked_add(Duration::from_nanos(nanoseconds))
}

/// The mark of a file by its content.
pub(crate) fn content_mark(bytes: &[u8]) -> u128 {
    let hash = digest_of(bytes).hash;
    let mut mark = 0u128;
    for byte in hash.iter().take(16) {
        mark = (mark << 8) | u128::from(*byte);
    }
    mark
}

/// The look of what the system tells this of, where a file has this mark.
pub(crate) fn look_with(metadata: Option<&Metadata>, mark: u128) -> Look
    ensures absent { metadata.entry ≡ None → result ≡ Absent }
    ensures there { IfSome metadata.entry (λ m. result ≡ look_of m.now mark) }
{
    match metadata {
        Some(metadata) => look_of(metadata, mark),
        None => Look::Absent,
    }
}

/// The look of a file with this mark, of a directory, and of anything else.
fn look_of(metadata: &Metadata, mark: u128) -> Look
    ensures { result ≡ look_of metadata.now mark }
{
    if metadata.is_dir() {
        return Look::Dir;
    }
    if !metadata.is_file() {
        return Look::Other;
    }
    let size = metadata.len();
    let executable = is_executable(metadata);
    Look::File {
        stamp: Stamp { size, mark },
        executable,
    }
}

/// Whether the owner may execute the file.
pub(crate) fn is_executable(metadata: &Metadata) -> bool
    ensures { result ≡ owner_executes metadata.now }
{
    metadata.permissions().mode() & OWNER_EXECUTES != 0
}
