//! Why bytes are no fields.

use thiserror::Error;

/// The first fault from the left. The offset is that of the varint, tag or length concerned, and
/// for a value of four or eight bytes that of its tag. It counts in the whole of the outermost
/// message's bytes, also inside a nested message.
#[derive(Clone, Copy, Debug, PartialEq, Eq, Error)]
pub enum WireFault {
    /// The bytes end within the varint, or within the value behind the tag or the length.
    #[error("the bytes end within what begins at {0}")]
    Truncated(usize),
    /// The varint has more than ten bytes, or its tenth byte is above 1.
    #[error("the varint at {0} has more than 64 bits")]
    VarintTooLong(usize),
    /// The tag has type 3, 4, 6 or 7, or is above 2^32 - 1.
    #[error("the tag at {0} has no known type")]
    BadType(usize),
    /// The tag has the field number 0.
    #[error("the tag at {0} has field number 0")]
    ZeroField(usize),
    /// The bytes of a string field whose length stands here are not UTF-8.
    #[error("the text at {0} is not UTF-8")]
    BadUtf8(usize),
}
