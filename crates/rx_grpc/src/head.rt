//! The HTTP status of an answer.

/// What the HTTP status says of a call that has no status of its own.
#[derive(Clone, Copy, Debug, PartialEq, Eq)]
pub enum Head {
    /// No final header list has come.
    Waiting,
    /// 200.
    Success,
    /// Another one, with the status of the call that it stands for.
    Failure(u8),
}
