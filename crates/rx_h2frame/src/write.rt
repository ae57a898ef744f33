//! The bytes of a frame that is sent: without padding and without priority.

ghost use Rattle.std.specs.Prelude.{◌≡◌, ◌<◌, ◌^◌, ◌++◌, length, drop, OnOk, OnErr};
ghost use Rattle.rx_h2frame.specs.Write.{out_bytes, out_view, IsReadBack};

use crate::kind::Kind;
use std::alloc::AllocError;

/// A frame that is sent.
#[derive(Clone, Copy)]
pub struct FrameOut<'a> {
    pub kind: Kind,
    pub flags: u8,
    /// 0 is the connection.
    pub stream: u32,
    pub payload: &'a [u8],
}

fn put_frame(frame: &FrameOut, out: &mut Vec<u8>) -> Result<(), AllocError>
    requires size { length frame.now.payload.now < 2 ^ 24 }
    requires stream { frame.now.stream < 2 ^ 31 }
    ensures ok { OnOk result (out.new.items ≡ out.old.items ++ out_bytes (out_view frame.now)) }
    ensures err { OnErr result (out.new.items ≡ out.old.items) }
{
    let size = frame.payload.len() as u32;
    let head = [
        (size / 65536) as u8,
        (size / 256 % 256) as u8,
        (size % 256) as u8,
        frame.kind.number(),
        frame.flags,
        (frame.stream / 16777216) as u8,
        (frame.stream / 65536 % 256) as u8,
        (frame.stream / 256 % 256) as u8,
        (frame.stream % 256) as u8,
    ];
    let kept = out.len();
    out.extend_from_slice(&head)?;
    if out.extend_from_slice(frame.payload).is_err() {
        out.truncate(kept);
        return Err(AllocError);
    }
    Ok(())
}

/// Writes the frame's bytes behind `out`, or leaves `out` as it was where there is no memory.
pub fn write_frame(frame: &FrameOut, out: &mut Vec<u8>) -> Result<(), AllocError>
    requires size { length frame.now.payload.now < 2 ^ 24 }
    requires stream { frame.now.stream < 2 ^ 31 }
    ensures ok { OnOk result (out.new.items ≡ out.old.items ++ out_bytes (out_view frame.now)) }
    ensures err { OnErr result (out.new.items ≡ out.old.items) }

    // `next_frame` reads what was written, whatever follows.
    ensures reads_back { OnOk result
        (IsReadBack (out_view frame.now) (drop (length out.old.items) out.new.items)) }
{
    put_frame(frame, out)
}
