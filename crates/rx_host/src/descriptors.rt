//! How many files this process may have open at once, which limits how many sessions it can serve at once.

ghost use Rattle.std.specs.Prelude.{◌≡◌, ◌+◌, ◌*◌};

use std::fs;
use std::fs::Files;

/// How many files a session may have open: three handles of its client's connection, two of the farm's, its sandbox, the two
/// streams of a program, and two for what is read and written of files.
const FILES_OF_SESSION: u64 = 10;

/// How many a process may have open beside its sessions: its own streams, the socket that listens, and what a program takes for a
/// moment as it starts.
const FILES_BESIDE: u64 = 16;

/// How many files so many sessions may have open at once.
pub fn open_files_of(sessions: u16) -> u64
    ensures { result ≡ 16 + 10 * sessions }
{
    FILES_BESIDE + FILES_OF_SESSION * u64::from(sessions)
}

/// How many files this process may have open, where there is a limit and the system tells it (Linux, proc(5), /proc/pid/limits).
pub fn open_files_limit<R: Files + AllocGlobal>(rt: &R) -> Option<u64> {
    let limits = fs::read_to_string(rt, "/proc/self/limits").ok()?;
    limit_in(limits.as_str())
}

/// The first number in the line of open files, which is the limit that holds.
fn limit_in(limits: &str) -> Option<u64> {
    let line = limits
        .lines()
        .find_map(|line| line.strip_prefix("Max open files"))?;
    let word = line.split_whitespace().next()?;
    word.parse::<u64>().ok()
}
