//! What a remote attempt is about.

use rx_world::Command;

/// A command, and whether a result of the farm's action cache is accepted for it.
#[derive(Debug, Drop)]
pub struct Task {
    pub command: Command,
    pub accept_cached: bool,
}
