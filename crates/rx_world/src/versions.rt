//! Versions of the Remote Execution API, and what depends on them.

/// A version of the API (`semver.proto`, SemVer). What stands behind the patch isn't kept.
#[derive(Clone, Copy, Debug, PartialEq, Eq)]
pub struct SemVer {
    pub major: i32,
    pub minor: i32,
    pub patch: i32,
}

/// Where a farm looks for the outputs of a Command.
#[derive(Clone, Copy, Debug, PartialEq, Eq)]
pub enum Dialect {
    /// From version 2.1 on: in `output_paths`.
    New,
    /// Version 2.0: in `output_files`.
    Old,
}
