//! The nine bytes before a frame's payload, and the rules that they alone can break (RFC 9113 4.1).
//! What the payload holds isn't looked at here.

ghost use Rattle.std.specs.Prelude.{◌≡◌, ◌<◌, ◌≤◌, ◌^◌, length};
ghost use Rattle.rx_h2frame.specs.Head.{header_of, is_padded, pad_length_size, priority_size, fits_kind, is_wrong_size, is_wrong_stream};

use crate::flags::{ACK, PADDED, PRIORITY, is_set};
use crate::kind::Kind;

/// The bytes of a frame's header (RFC 9113 4.1).
pub const HEADER_SIZE: usize = 9;

/// The bytes of a HEADERS frame's priority: four of a stream that it depends on, and a weight (RFC 9113 6.2).
const PRIORITY_SIZE: usize = 5;

/// A frame's header.
///
/// ```text
/// +-----------------------------------------------+
/// |                  size (24)                    |
/// +---------------+---------------+---------------+
/// |   kind (8)    |   flags (8)   |
/// +-+-------------+---------------+---------------+---------------+
/// |R|                        stream (31)                          |
/// +-+-------------------------------------------------------------+
/// ```
#[derive(Clone, Copy)]
pub(crate) struct Head {
    /// The bytes of the payload.
    pub(crate) size: usize,
    pub(crate) kind: Kind,
    pub(crate) flags: u8,
    /// 0 is the connection; the reserved bit R isn't part of it.
    pub(crate) stream: u32,
}

ghost use Rattle.rx_h2frame.specs.HeadView.{head_view};

/// The header that the bytes begin with.
pub(crate) fn head_of(bytes: &[u8]) -> Head
    requires { 9 ≤ length bytes.now }
    ensures is { head_view result ≡ header_of bytes.now }
    ensures size { result.size < 2 ^ 24 }
    ensures stream { result.stream < 2 ^ 31 }
{
    Head {
        size: (bytes[0] as usize * 256 + bytes[1] as usize) * 256 + bytes[2] as usize,
        kind: Kind::from(bytes[3]),
        flags: bytes[4],
        stream: (((bytes[5] % 128) as u32 * 256 + bytes[6] as u32) * 256 + bytes[7] as u32) * 256
            + bytes[8] as u32,
    }
}

impl Head {
    /// Whether the payload begins with the length of its padding.
    pub(crate) fn is_padded(self) -> bool
        ensures { result ≡ is_padded (head_view self) }
    {
        match self.kind {
            Kind::Data | Kind::Headers => is_set(self.flags, PADDED),
            _ => false,
        }
    }

    /// The bytes of the padding's length.
    pub(crate) fn pad_length_size(self) -> usize
        ensures { result ≡ pad_length_size (head_view self) }
    {
        if self.is_padded() { 1 } else { 0 }
    }

    /// The bytes of priority before the header block.
    pub(crate) fn priority_size(self) -> usize
        ensures { result ≡ priority_size (head_view self) }
    {
        match self.kind {
            Kind::Headers => {
                if is_set(self.flags, PRIORITY) {
                    PRIORITY_SIZE
                } else {
                    0
                }
            }
            _ => 0,
        }
    }

    /// Whether a frame of this kind can have a payload of this size.
    fn fits_kind(self) -> bool
        ensures { result ≡ fits_kind self.kind self.flags self.size }
    {
        match self.kind {
            Kind::Priority => self.size == 5,
            Kind::ResetStream | Kind::WindowUpdate => self.size == 4,
            Kind::Settings => self.size % 6 == 0 && (!is_set(self.flags, ACK) || self.size == 0),
            Kind::Ping => self.size == 8,
            Kind::GoAway => 8 <= self.size,
            _ => true,
        }
    }

    /// Whether the size is past the largest, or none that the frame can have.
    pub(crate) fn is_wrong_size(self, largest: usize) -> bool
        ensures { result ≡ is_wrong_size largest (head_view self) }
    {
        largest < self.size
            || self.size < self.pad_length_size() + self.priority_size()
            || !self.fits_kind()
    }

    /// Whether a frame of the connection names a stream, or one of a stream names none.
    pub(crate) fn is_wrong_stream(self) -> bool
        ensures { result ≡ is_wrong_stream self.kind self.stream }
    {
        match self.kind {
            Kind::Settings | Kind::Ping | Kind::GoAway => self.stream != 0,
            Kind::WindowUpdate | Kind::Unknown(_) => false,
            _ => self.stream == 0,
        }
    }
}
