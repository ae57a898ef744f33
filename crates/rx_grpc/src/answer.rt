//! The answer of a call that expects one message.

use rx_base::Bytes;

/// The answer of a call that expects one message.
#[derive(Debug, Drop)]
pub enum Answer {
    /// The one message, with status 0.
    Message(Bytes),
    /// A status other than 0.
    Status(u8),
    /// A message is compressed, which isn't read.
    Compressed,
    /// A message is longer than 4,194,304 bytes.
    TooLarge,
    /// The stream, or the connection, ended without a status.
    NoStatus,
    /// Status 0 with no message, with several, or with one that isn't whole.
    BadMessage,
}
