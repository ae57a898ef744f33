//! The frames of HTTP/2 and their bytes (RFC 9113 4 and 6).
#![tactic(auto)]

mod flags;
mod frame;
mod head;
mod kind;
mod write;

pub use flags::{ACK, END_HEADERS, END_STREAM, PADDED, PRIORITY, is_set};
pub use frame::{Frame, FrameFault, Next, next_frame};
pub use head::HEADER_SIZE;
pub use kind::Kind;
pub use write::{FrameOut, write_frame};
