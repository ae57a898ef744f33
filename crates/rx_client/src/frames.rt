//! The frames that a client sends, and what their headers are made of: a kind in one byte, and the
//! payload's length in four, the highest first.

ghost use Rattle.std.specs.Prelude.{◌≡◌, IfOk};
ghost use Rattle.rx_session.specs.Frames.{frame as frame_by};
ghost use Rattle.rx_session.specs.RequestMessages.{request_payload};
ghost use Rattle.rx_client.specs.Conversing.{frame_for};

use rx_base::NoMemory;
use rx_session::{Request, SHUTDOWN};
use rx_wrap::Errand;
use std::alloc::{AllocError, Global};

/// The bytes of a header.
pub(crate) const HEADER_LEN: usize = 5;

/// The kind of a frame that is a request.
const REQUEST_KIND: u8 = 1;

/// The kind of a frame that is a reply.
pub(crate) const REPLY_KIND: u8 = 2;

/// The frame that is sent for an errand. A payload whose length four bytes can't tell is answered
/// as want of memory.
pub(crate) fn frame_for(alloc: Global, errand: &Errand) -> Result<Vec<u8>, NoMemory>
    ensures { IfOk result (λ frame. frame.items ≡ frame_for errand.now) }
{
    match errand {
        Errand::Run(request) => request_frame(alloc, request),
        Errand::ShutDown => Vec::from_slice(alloc, &SHUTDOWN),
    }
}

fn request_frame(alloc: Global, request: &Request) -> Result<Vec<u8>, NoMemory>
    ensures { IfOk result (λ frame. frame.items ≡ frame_by 1 (request_payload request.now)) }
{
    let payload = request.encode(alloc)?;
    if payload.len() > u32::MAX as usize {
        return Err(AllocError);
    }
    let len = payload.len() as u32;
    let mut frame = Vec::with_capacity(alloc, HEADER_LEN)?;
    frame.push(REQUEST_KIND)?;
    frame.extend_from_slice(&len.to_be_bytes())?;
    frame.extend_from_slice(&payload)?;
    Ok(frame)
}
