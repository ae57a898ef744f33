//! The frame of a reply: a header, and the payload of the length that it tells.

ghost use Rattle.std.specs.Prelude.{◌≡◌, ◌≤◌, ◌<◌, ◌+◌, ◌^◌, ◌++◌, ◌∷◌, ℕ, List, [], IfOk, IsOk, OnOk, length, vec_len, vec_capacity};
ghost use Rattle.std.specs.Int.{w32, to_be_bytes};
ghost use Rattle.rx_session.specs.Replies.{frame_of};
ghost use Rattle.rx_session.specs.declared.headers.TheConstants.{HEADER_LEN};
ghost use Rattle.rx_session.specs.declared.place_faults.TheConstants.{PLACE_FAULT_LEN};
ghost use Rattle.rx_session.specs.declared.replies.Reply.TheVariants.{PlaceFault as place_fault};

use crate::headers::{HEADER_LEN, REPLY_KIND};
use crate::place_faults::{PLACE_FAULT_LEN, push_place_fault};
use crate::replies::Reply;
use rx_base::NoMemory;
use std::alloc::{AllocError, Global};

/// The most bytes of a reply's payload.
pub const MAX_REPLY_LEN: usize = 67_108_864;

/// The frame of a reply: its kind 2, the payload's length and the payload. A payload of more than
/// 67,108,864 bytes is no reply, and is answered as want of memory.
pub fn encode(alloc: Global, reply: &Reply) -> Result<Vec<u8>, NoMemory>
    ensures frame { IfOk result (λ frame. frame.items ≡ frame_of reply.now) }
    ensures size { IfOk result (λ frame. vec_len frame ≤ MAX_REPLY_LEN + 5) }
{
    let payload = reply.encode(alloc)?;
    if payload.len() > MAX_REPLY_LEN {
        return Err(AllocError);
    }
    let mut frame = Vec::with_capacity(alloc, HEADER_LEN + payload.len())?;
    push_header(&mut frame)?;
    frame.extend_from_slice(&payload)?;
    put_length(&mut frame);
    Ok(frame)
}

/// The header of a reply, its length still 0.
fn push_header(out: &mut Vec<u8>) -> Result<(), NoMemory>
    ensures ok { OnOk result (out.new.items ≡ out.old.items ++ 2 ∷ 0 ∷ 0 ∷ 0 ∷ 0 ∷ []) }
    ensures room { vec_len out.old + HEADER_LEN ≤ vec_capacity out.old → IsOk result }
    ensures capacity { vec_capacity out.old ≤ vec_capacity out.new }
    ensures len { OnOk result (vec_len out.new ≡ vec_len out.old + HEADER_LEN) }
{
    out.extend_from_slice(&[REPLY_KIND, 0, 0, 0, 0])
}

/// Puts the length of what follows the header into the header.
fn put_length(frame: &mut Vec<u8>)
    requires header { HEADER_LEN ≤ vec_len frame.old }
    requires short { vec_len frame.old < 2 ^ 32 }
    ensures { (payload : List ℕ) → frame.old.items ≡ 2 ∷ 0 ∷ 0 ∷ 0 ∷ 0 ∷ payload
        → frame.new.items ≡ 2 ∷ (to_be_bytes w32 (length payload) ++ payload) }
{
    let len = (frame.len() - HEADER_LEN) as u32;
    let bytes = len.to_be_bytes();
    frame[1] = bytes[0];
    frame[2] = bytes[1];
    frame[3] = bytes[2];
    frame[4] = bytes[3];
}

/// Room for the frame of a place fault, taken before a publication begins, so that nothing after
/// it can fail for want of memory.
#[derive(Debug, Drop)]
pub struct Room {
    frame: Vec<u8>,
    ghost empty: { vec_len frame ≡ 0 },
    ghost room: { HEADER_LEN + PLACE_FAULT_LEN ≤ vec_capacity frame },
}

impl Room {
    /// Takes the room.
    pub fn new(alloc: Global) -> Result<Room, NoMemory> {
        let frame = Vec::with_capacity(alloc, HEADER_LEN + PLACE_FAULT_LEN)?;
        Ok(Room { frame })
    }

    /// The frame of a place fault. It takes no memory.
    pub fn encode_place_fault(self, receipt: u64, placed: u64) -> Vec<u8>
        ensures { result.items ≡ frame_of (place_fault receipt placed) }
    {
        let Room { frame } = self;
        let mut frame = frame;
        push_header(&mut frame).unwrap();
        push_place_fault(&mut frame, receipt, placed).unwrap();
        put_length(&mut frame);
        frame
    }
}
