//! The flags of a frame: one byte, of which each kind of frame knows some bits (RFC 9113 4.1).

ghost use Rattle.std.specs.Prelude.{◌≡◌};
ghost use Rattle.rx_h2frame.specs.Flags.{is_set};

/// DATA and HEADERS: nothing follows on this stream (RFC 9113 6.1, 6.2).
pub const END_STREAM: u8 = 1;

/// SETTINGS and PING: this frame acknowledges one of the peer's (RFC 9113 6.5, 6.7).
pub const ACK: u8 = 1;

/// HEADERS and CONTINUATION: the header block ends with this frame (RFC 9113 6.2, 6.10).
pub const END_HEADERS: u8 = 4;

/// DATA and HEADERS: the payload begins with the length of the padding at its end (RFC 9113 6.1).
pub const PADDED: u8 = 8;

/// HEADERS: five bytes of priority stand before the header block (RFC 9113 6.2).
pub const PRIORITY: u8 = 32;

/// Whether the flags have this bit.
pub fn is_set(flags: u8, bit: u8) -> bool
    ensures { result ≡ is_set flags bit }
{
    flags & bit != 0
}
