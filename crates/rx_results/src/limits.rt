//! How many bytes a result of a farm may have.

/// The most bytes of the file at an output.
pub const MAX_FILE_BYTES: u64 = 67_108_864;

/// The most bytes of the files at all outputs together.
pub const MAX_FILES_BYTES: u64 = 268_435_456;

/// The most bytes of standard output, and of standard error.
pub const MAX_TEXT_BYTES: u64 = 16_777_216;
