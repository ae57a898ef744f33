//! Paths of the machine as paths below the root.

ghost use Rattle.std.specs.Prelude.{◌≡◌, option_copied};
ghost use Rattle.rx_wrap.specs.Directories.{below, below_by, trimmed, unslashed};

use crate::strips::stripped;

/// A directory without a slash at its end.
fn unslashed(directory: &str) -> &str
    ensures { result.now ≡ unslashed directory.now }
{
    match directory.strip_suffix('/') {
        Some(front) => front,
        None => directory,
    }
}

/// The same, but for the root of the system.
pub(crate) fn trimmed(directory: &str) -> &str
    ensures { result.now ≡ trimmed directory.now }
{
    match directory {
        "/" => directory,
        _ => unslashed(directory),
    }
}

/// What a path is below a directory without a slash at its end.
fn below_by<'a>(directory: &str, path: &'a str) -> Option<&'a str>
    ensures { option_copied result ≡ below_by directory.now path.now }
{
    if path == directory {
        return Some("");
    }
    stripped("/", stripped(directory, path)?)
}

/// What a path is below a directory: nothing for the directory itself, else what follows it and a
/// slash.
#[tactic(auto, unfolding(crate::specs::Directories::below))]
pub(crate) fn below<'a>(directory: &str, path: &'a str) -> Option<&'a str>
    ensures { option_copied result ≡ below directory.now path.now }
{
    below_by(unslashed(directory), path)
}
