//! What a streamed answer shows next.

ghost use Rattle.std.specs.Prelude.{◌≡◌};
ghost use Rattle.rx_grpc.specs.Item.{is_message};

use rx_base::Bytes;

/// What a streamed answer shows next: its messages, one after another, and then how it ended.
#[derive(Debug, Drop)]
pub enum StreamItem {
    /// The next message.
    Message(Bytes),
    /// Status 0 behind the last message; `cut` tells that the front of a message stands before it.
    Success { cut: bool },
    /// A status other than 0.
    Status(u8),
    /// A message is compressed, which isn't read.
    Compressed,
    /// A message is longer than 4,194,304 bytes.
    TooLarge,
    /// The stream ended with HTTP status 200 and without a status of the call.
    NoStatus,
    /// The link ended before the answer did.
    LinkEnd,
}

impl StreamItem {
    /// Whether it is a message, so that more follows.
    pub fn is_message(&self) -> bool
        ensures { result ≡ is_message self.now }
    {
        match self {
            StreamItem::Message(_) => true,
            StreamItem::Success { .. } => false,
            StreamItem::Status(_) => false,
            StreamItem::Compressed => false,
            StreamItem::TooLarge => false,
            StreamItem::NoStatus => false,
            StreamItem::LinkEnd => false,
        }
    }
}
