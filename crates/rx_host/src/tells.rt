//! Faults as lines on standard error, since a reply has but their number. No contract speaks of them.

use std::io::{Eprint, Error};

/// Tells what was tried, on what, and why it failed. The root of a tree has the empty path.
pub(crate) fn tell(rt: &impl Eprint, tried: &str, on: &str, error: &Error) {
    let on = if on.is_empty() { "the root" } else { on };
    let _ = eprintln!(rt; "reproxy: {tried} {on}: {error}");
}
