//! Messages in the bytes of a stream (PROTOCOL-HTTP2.md of gRPC, "Length-Prefixed-Message").
//!
//! ```text
//! +---------------+-----------------------------------------------+
//! |   flag (8)    |                  length (32)                  |
//! +---------------+-----------------------------------------------+
//! |                          message (length)                     |
//! +---------------------------------------------------------------+
//! ```

ghost use Rattle.std.specs.Prelude.{◌≡◌, ◌≤◌, length};
ghost use Rattle.rx_grpc.specs.Framing.{next_message, size_of, sized};
ghost use Rattle.rx_grpc.specs.Seen.{IsLong, sees};

/// How many bytes the flag and the length have.
pub const PREFIX_SIZE: usize = 5;

/// The most bytes of a message.
const LARGEST: usize = 4_194_304;

/// What bytes begin with.
#[derive(Clone, Copy, Debug, PartialEq, Eq)]
pub enum Sign {
    /// A whole message, and nothing behind it.
    Whole,
    /// So many bytes are lacking to the next sign.
    Lacks(usize),
    Compressed,
    TooLarge,
}

/// The length that a message tells.
fn size_of(bytes: &[u8]) -> usize
    requires { 5 ≤ length bytes.now }
    ensures { result ≡ size_of bytes.now }
{
    ((bytes[1] as usize * 256 + bytes[2] as usize) * 256 + bytes[3] as usize) * 256
        + bytes[4] as usize
}

/// What bytes begin with, where the length is told.
#[tactic(auto, unfolding(crate::specs::Framing::sized))]
fn sized(size: usize, bytes: &[u8]) -> Sign
    ensures sees { sees bytes.now result ≡ sized size bytes.now }
    ensures long { IsLong result (length bytes.now) }
{
    if size > LARGEST {
        return Sign::TooLarge;
    }
    if bytes.len() < size + PREFIX_SIZE {
        return Sign::Lacks(size + PREFIX_SIZE - bytes.len());
    }
    Sign::Whole
}

/// What bytes begin with: the flag is judged once it is there, and then the length.
#[tactic(auto, unfolding(crate::specs::Framing::next_message))]
pub fn next_message(bytes: &[u8]) -> Sign
    ensures sees { sees bytes.now result ≡ next_message bytes.now }
    ensures long { IsLong result (length bytes.now) }
{
    if bytes.is_empty() {
        return Sign::Lacks(1);
    }
    if bytes[0] > 0 {
        return Sign::Compressed;
    }
    if bytes.len() < PREFIX_SIZE {
        return Sign::Lacks(PREFIX_SIZE - bytes.len());
    }
    sized(size_of(bytes), bytes)
}
