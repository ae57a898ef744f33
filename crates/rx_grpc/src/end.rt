//! How an answer ends.

/// What ended an answer.
#[derive(Clone, Copy, Debug, PartialEq, Eq)]
pub enum End {
    /// The status of the call: 0 is success, and 16 the largest.
    Status(u8),
    /// A message is compressed, which isn't read.
    Compressed,
    /// A message is longer than 4,194,304 bytes.
    TooLarge,
    /// The stream ended with HTTP status 200 and without a status of the call.
    NoStatus,
}
