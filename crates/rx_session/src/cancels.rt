//! How a client cancels: what comes behind a request that watches.

ghost use Rattle.std.specs.Prelude.{◌≡◌, ◌≢◌, ◌≤◌, ◌<◌, [], length, IfErr, IfOk, IsFalse, IsTrue, OnOk, IsErrOf};
ghost use Rattle.std.specs.Io.KnownBytes.{Consumes, IsAtEnd};
ghost use Rattle.rx_world.specs.Causes.{Rose};
ghost use Rattle.rx_session.specs.Cancels.{IsCancelBy, IsCancelOf, IsFront, IsReadOn, cancel_frame, cancel_length};
ghost use Rattle.rx_session.specs.Streams.{IsNoBad};

use crate::bad::SessionFault;
use crate::streams::read_up_to;
use rx_base::NoMemory;
use rx_world::Source;
use std::alloc::AllocError;

/// The frame by which a client cancels.
pub const CANCEL: [u8; 5] = [3, 0, 0, 0, 0];

/// Why a session was cancelled: what came first behind its request.
#[derive(Clone, Copy, Debug, PartialEq, Eq)]
pub enum CancelReason {
    /// 1: a Cancel frame.
    Asked,
    /// 2: the end of the input.
    Ended,
    /// 3: bytes that are no Cancel frame, or only a front of one.
    OtherBytes,
    /// 4: the input failed.
    Lost,
}

/// Reads what comes behind a request, up to the five bytes of a Cancel frame. Whatever comes
/// cancels; the reason says what it was. It reads on only while what it read is a front of such a
/// frame, so one other byte cancels at once. A fault counts as that, whatever came before it. All
/// that is read is left in `read`, in place of what stood there.
pub fn read_cancel<S: Source>(source: &mut S, read: &mut Vec<u8>) -> Result<CancelReason, NoMemory>
    // What was taken from the source is what was read.
    ensures read { Consumes (S.left source.old) (S.left source.new) read.new.items }
    ensures most { length read.new.items ≤ cancel_length }
    // No byte was taken behind one that the frame doesn't have there.
    ensures front { IsReadOn read.new.items }
    // The reason is that of what was read, at the end that was found, or of the fault.
    ensures reason { IfOk result (λ reason. IsCancelBy reason read.new.items
        (S.left source.new) (S.faults source.old) (S.faults source.new)) }
    // Where the input didn't fail, a front of the frame was read to the frame's or the input's end.
    ensures end { IfOk result (λ reason. reason ≢ CancelReason.Lost → IsFront read.new.items
        → read.new.items ≢ cancel_frame → IsAtEnd (S.left source.new)) }
    ensures later { S.faults source.old ≤ S.faults source.new }
{
    read.clear();
    match read_front(source, read) {
        Ok(()) => Ok(cancel_by(read)),
        Err(SessionFault::NoMemory) => Err(AllocError),
        Err(_) => Ok(CancelReason::Lost),
    }
}

/// Whether these are a front of a Cancel frame, and not all of it.
fn goes_on(read: &[u8]) -> bool
    ensures on { IsTrue result → IsFront read.now × (length read.now < cancel_length) }
    ensures off { IsFalse result → IsFront read.now → cancel_length ≤ length read.now }
{
    read.len() < CANCEL.len() && CANCEL.starts_with(read)
}

/// Reads byte by byte, while what was read is a front of a Cancel frame and not all of it.
fn read_front<S: Source>(source: &mut S, read: &mut Vec<u8>) -> Result<(), SessionFault>
    requires { read.old.items ≡ [] }
    ensures read { Consumes (S.left source.old) (S.left source.new) read.new.items }
    ensures most { length read.new.items ≤ cancel_length }
    ensures front { IsReadOn read.new.items }
    ensures end { OnOk result (IsFront read.new.items → read.new.items ≢ cancel_frame
        → IsAtEnd (S.left source.new)) }
    ensures later { S.faults source.old ≤ S.faults source.new }
    ensures failed { IsErrOf result SessionFault.ReadFault
        → Rose (S.faults source.old) (S.faults source.new) }
    ensures only { IfErr result IsNoBad }
{
    'bytes: while goes_on(read) {
        let had = read.len();
        read_up_to(source, read, had + 1)?;
        if read.len() == had {
            return Ok(());
        }
    }
    Ok(())
}

/// What was read where the input didn't fail.
fn cancel_by(read: &[u8]) -> CancelReason
    ensures { IsCancelOf result read.now }
{
    if read.is_empty() {
        CancelReason::Ended
    } else if read == CANCEL.as_slice() {
        CancelReason::Asked
    } else {
        CancelReason::OtherBytes
    }
}
