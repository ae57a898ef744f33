//! What a compile command's words say of its includes.

use rx_base::{Items, RelPath, Text};

/// Where the includes of a compile command are sought, and where they begin.
#[derive(Debug, Drop)]
pub struct Search {
    pub working_directory: RelPath,
    /// The file that is compiled.
    pub source: RelPath,
    /// The directories for quoted names alone.
    pub quote_dirs: Items<RelPath>,
    /// The directories for quoted and angled names.
    pub dirs: Items<RelPath>,
    /// The names of the files that are included before the source.
    pub forced: Items<Text>,
    /// The texts of the paths that words name besides: the way to each is walked from the working
    /// directory, and a file that stands at its end is read.
    pub walked: Items<Text>,
    /// Whether the source is C.
    pub is_c: bool,
}
