//! Why a header block is refused, and nothing else.

ghost use Rattle.std.specs.Prelude.{◌≡◌};
ghost use Rattle.rx_hpack.specs.declared.fault.HpackFault.TheVariants.{NoMemory};

use std::alloc::{AllocError, AllocFailed};
use thiserror::Error;

/// Why a header block is refused: the first thing that is wrong with it, from left to right.
#[derive(Clone, Copy, Debug, PartialEq, Eq, Error)]
pub enum HpackFault {
    /// An index is 0 or past the end of the dynamic table (RFC 7541 2.3.3).
    #[error("an index stands for no entry")]
    BadIndex,
    /// An integer is past 2^32 - 1 or has more than five further bytes, or the block ends inside
    /// an integer or a string (RFC 7541 5.1, 5.2).
    #[error("an integer is too large or cut")]
    BadInteger,
    /// A string holds the end mark, or its padding is longer than seven bits or isn't all ones
    /// (RFC 7541 5.2).
    #[error("a string breaks the Huffman code")]
    BadHuffman,
    /// A size update stands behind a header, or is past the limit (RFC 7541 4.2, 6.3).
    #[error("a size update is out of place or too large")]
    SizeUpdate,
    /// The header list is larger than [`LARGEST_LIST`](crate::LARGEST_LIST) bytes
    /// (RFC 9113 6.5.2, SETTINGS_MAX_HEADER_LIST_SIZE).
    #[error("the header list is too large")]
    ListTooLarge,
    /// Memory ran out.
    #[error("out of memory")]
    NoMemory,
}

impl From<AllocError> for HpackFault {
    ghost from_gives = { λ _ e. e ≡ NoMemory };

    fn from(_error: AllocError) -> HpackFault {
        HpackFault::NoMemory
    }
}

impl<T: Drop> From<AllocFailed<T>> for HpackFault {
    ghost from_gives = { λ _ e. e ≡ NoMemory };

    fn from(_error: AllocFailed<T>) -> HpackFault {
        HpackFault::NoMemory
    }
}
