//! The frame that bytes begin with: it borrows from them, and takes no memory.

ghost use Rattle.std.specs.Prelude.{◌≡◌, ℕ, List, ◌++◌, ◌+◌, ◌-◌, ◌<◌, ◌≤◌, ◌^◌, length, take, IfOk, IfErr, Err};
ghost use Rattle.rx_h2frame.specs.Frame.{next, payload_of, whole_of, padding, is_wrong_padding};
ghost use Rattle.rx_h2frame.specs.Head.{pad_length_size, priority_size};
ghost use Rattle.rx_h2frame.specs.HeadView.{head_view};
ghost use Rattle.rx_h2frame.specs.Seen.{Sees, IsSoundNext, Waits, frame_view};

use crate::head::{HEADER_SIZE, Head, head_of};
use crate::kind::Kind;
use thiserror::Error;

/// Why bytes begin with no frame.
#[derive(Clone, Copy, Debug, PartialEq, Eq, Error)]
pub enum FrameFault {
    /// The payload is larger than any may be, or its size is none that such a frame can have.
    #[error("a frame has a size that it can't have")]
    FrameSize,
    /// The padding is longer than what its length byte and the priority leave of the payload.
    #[error("a frame has more padding than payload")]
    BadPadding,
    /// A frame of the connection names a stream, or one of a stream names none.
    #[error("a frame names a stream where it can't, or none where it must")]
    BadStreamId,
}

/// A whole frame, without its padding and priority.
#[derive(Clone, Copy, Debug, PartialEq, Eq)]
pub struct Frame<'a> {
    pub kind: Kind,
    pub flags: u8,
    /// 0 is the connection.
    pub stream: u32,
    /// The payload without padding and priority.
    pub body: &'a [u8],
    /// The bytes of the payload, with padding and priority: what counts for the windows.
    /// The frame's bytes are nine more.
    pub size: usize,
}

/// What bytes begin with.
#[derive(Clone, Copy, Debug, PartialEq, Eq)]
pub enum Next<'a> {
    Frame(Frame<'a>),
    /// So many bytes are lacking: to the nine of the header or, where these are there, to the frame.
    NeedMore(usize),
}

/// How many bytes of padding end the payload, by its first byte.
fn padding(head: Head, payload: &[u8]) -> usize
    ensures is { result ≡ padding (head_view head) payload.now }
    ensures small { result < 256 }
{
    if !head.is_padded() {
        return 0;
    }
    match payload.first() {
        Some(size) => *size as usize,
        None => 0,
    }
}

/// The padding's length is there, and more than there is room for.
fn is_wrong_padding(head: Head, payload: &[u8]) -> bool
    ensures { result ≡ is_wrong_padding (head_view head) payload.now }
{
    !payload.is_empty()
        && head.size < head.pad_length_size() + head.priority_size() + padding(head, payload)
}

fn frame_of<'a>(head: Head, payload: &'a [u8]) -> Frame<'a>
    requires fits { head.size ≤ length payload.now }
    requires front { pad_length_size (head_view head) + priority_size (head_view head)
        + padding (head_view head) payload.now ≤ head.size }
    ensures { frame_view result ≡ whole_of (head_view head) payload.now }
{
    let front = head.pad_length_size() + head.priority_size();
    let size = head.size - (front + padding(head, payload));
    let (_, after) = payload.split_at(front);
    let (body, _) = after.split_at(size);
    Frame {
        kind: head.kind,
        flags: head.flags,
        stream: head.stream,
        body,
        size: head.size,
    }
}

#[tactic(auto, unfolding(crate::specs::Frame::payload_of))]
fn payload_of<'a>(largest: usize, head: Head, payload: &'a [u8]) -> Result<Next<'a>, FrameFault>
    ensures { Sees result (payload_of largest (head_view head) payload.now) }
{
    if head.is_wrong_size(largest) {
        return Err(FrameFault::FrameSize);
    }
    if head.is_wrong_stream() {
        return Err(FrameFault::BadStreamId);
    }
    if is_wrong_padding(head, payload) {
        return Err(FrameFault::BadPadding);
    }
    if payload.len() < head.size {
        return Ok(Next::NeedMore(head.size - payload.len()));
    }
    Ok(Next::Frame(frame_of(head, payload)))
}

#[tactic(auto, unfolding(crate::specs::Frame::next))]
fn first_frame<'a>(bytes: &'a [u8], largest: u32) -> Result<Next<'a>, FrameFault>
    ensures { Sees result (next largest bytes.now) }
{
    if bytes.len() < HEADER_SIZE {
        return Ok(Next::NeedMore(HEADER_SIZE - bytes.len()));
    }
    let head = head_of(bytes);
    let (_, payload) = bytes.split_at(HEADER_SIZE);
    payload_of(largest as usize, head, payload)
}

/// The frame that the bytes begin with, where no payload may be larger than `largest`.
///
/// It is refused as soon as the bytes show it: a size or stream by the nine bytes of the header, padding by the byte
/// behind them. Where they show several, FrameSize comes first, then BadStreamId.
pub fn next_frame<'a>(bytes: &'a [u8], largest: u32) -> Result<Next<'a>, FrameFault>
    ensures exact { Sees result (next largest bytes.now) }

    // What a frame that is read keeps to.
    ensures sound { IfOk result (λ n. IsSoundNext largest bytes.now n) }

    // What is refused stays refused, whatever follows, and as long as fewer bytes than are lacking follow, the rest is lacking.
    ensures for_good { IfErr result
        (λ e. (more : List ℕ) → next largest (bytes.now ++ more) ≡ Err e) }
    ensures waits { IfOk result (λ n. (more : List ℕ) → Waits largest bytes.now more n) }
{
    first_frame(bytes, largest)
}
