//! Frames of a client, read from a source, and the frames by which the proxy ends.
//!
//! ```text
//! +--------+----------------------------+---------------------+
//! | kind   | length 4, the highest first | payload, so many    |
//! +--------+----------------------------+---------------------+
//! ```
//!
//! Kind 1 is a Request. Kind 4, Shutdown, may have no payload, and kind 5, ShutdownDone, answers it. The
//! Cancel frame, which may follow a request that watches, is of `cancels`.

ghost use Rattle.std.specs.Prelude.{◌≡◌, ◌≤◌, ◌+◌, [], IfErr, IfOk, OnOk, IsErrOf, length};
ghost use Rattle.std.specs.Io.KnownBytes.{Consumes};
ghost use Rattle.rx_world.specs.Causes.{Rose};
ghost use Rattle.rx_session.specs.Bad.{Decodes};
ghost use Rattle.rx_session.specs.Frames.{EndsRead, IsWithin, begins, behind, head_in, incoming_of, reach_of, shutdown_within};
ghost use Rattle.rx_session.specs.Streams.{IsNoCutPast, ReadsOn};

use crate::bad::{BadReason, SessionFault, refuse};
use crate::headers::{HEADER_LEN, Head, REQUEST_KIND, SHUTDOWN_KIND};
use crate::requests::Request;
use crate::streams::read_up_to;
use rx_world::Source;
use std::alloc::Global;

/// What a client's frame is.
#[derive(Debug, Drop)]
pub enum Incoming {
    Request(Request),
    /// It asks the proxy to end.
    Shutdown,
}

/// The frame that asks the proxy to end.
pub const SHUTDOWN: [u8; 5] = [4, 0, 0, 0, 0];

/// The frame that answers it.
pub const SHUTDOWN_DONE: [u8; 5] = [5, 0, 0, 0, 0];

/// The most bytes of a request's payload.
pub const MAX_REQUEST_LEN: usize = 4_194_304;

/// Reads one frame of a client of the served root. Behind a request it reads whether the input ends
/// there, and takes one byte at most. Behind a Shutdown it reads nothing, and behind a request that
/// watches neither: what comes there later may cancel it. A payload that a Shutdown may not have is
/// read all the same: where it is cut short, that is the refusal. All that is read is left in
/// `read`, in place of what stood there. It grows as the bytes come: a length alone takes no memory.
pub fn read_incoming<S: Source>(
    alloc: Global,
    source: &mut S,
    root: &str,
    read: &mut Vec<u8>,
) -> Result<Incoming, SessionFault>
    // What was taken from the source is what was read.
    ensures read { Consumes (S.left source.old) (S.left source.new) read.new.items }
    // No more is taken than a header, the payload of the length that it tells and, of a request, one
    // byte behind.
    ensures reach { length read.new.items ≤ reach_of read.new.items }
    ensures most { length read.new.items ≤ MAX_REQUEST_LEN + 6 }
    // The answer is the one that the definition gives for it.
    ensures incoming { Decodes (λ incoming. incoming) result (incoming_of root.now read.new.items) }
    // After a request that doesn't watch, and where the frame is cut short, the input is at its end.
    ensures end { EndsRead (S.left source.new) result }
    // What is behind the frame of what came in wasn't taken.
    ensures bare { OnOk result (behind read.new.items ≡ []) }
    ensures later { S.faults source.old ≤ S.faults source.new }
    ensures failed { IsErrOf result SessionFault.ReadFault
        → Rose (S.faults source.old) (S.faults source.new) }
{
    read.clear();
    read_up_to(source, read, HEADER_LEN)?;
    let head = head_of(read)?;
    let len = match head {
        Head::Request(len) => len,
        Head::Shutdown(len) => return read_shutdown(source, read, len),
    };
    read_up_to(source, read, HEADER_LEN + len)?;
    if read.len() < HEADER_LEN + len {
        return refuse(BadReason::CutShort, read.len() as u64);
    }
    let (_, payload) = read.split_at(HEADER_LEN);
    let request = Request::decode(alloc, payload, root)?;
    if request.watch {
        return Ok(Incoming::Request(request));
    }
    read_up_to(source, read, HEADER_LEN + len + 1)?;
    if read.len() > HEADER_LEN + len {
        return refuse(BadReason::Trailing, (HEADER_LEN + len) as u64);
    }
    Ok(Incoming::Request(request))
}

/// Reads the payload of a Shutdown, behind its header, and refuses it.
fn read_shutdown<S: Source>(
    source: &mut S,
    read: &mut Vec<u8>,
    len: usize,
) -> Result<Incoming, SessionFault>
    requires header { length read.old.items ≤ HEADER_LEN }
    requires bound { len ≤ MAX_REQUEST_LEN }
    ensures read { ReadsOn (S.left source.old) (S.left source.new) read.old.items read.new.items }
    ensures reach { length read.new.items ≤ HEADER_LEN + len }
    ensures incoming { Decodes (λ incoming. incoming) result (shutdown_within len read.new.items) }
    ensures end { EndsRead (S.left source.new) result }
    ensures later { S.faults source.old ≤ S.faults source.new }
    ensures failed { IsErrOf result SessionFault.ReadFault
        → Rose (S.faults source.old) (S.faults source.new) }
{
    let end = HEADER_LEN + len;
    read_up_to(source, read, end)?;
    if read.len() < end {
        return refuse(BadReason::CutShort, read.len() as u64);
    }
    if len > 0 {
        return refuse(BadReason::BadMessage, 1);
    }
    Ok(Incoming::Shutdown)
}

/// Whether a client's frame may begin so.
fn begins(kind: u8) -> bool
    ensures { result ≡ begins kind }
{
    kind == REQUEST_KIND || kind == SHUTDOWN_KIND
}

/// What the header of a client's frame tells.
#[tactic(auto, unfolding(crate::specs::Frames::head_in))]
fn head_of(header: &[u8]) -> Result<Head, SessionFault>
    ensures head { Decodes (λ head. head) result (head_in header.now) }
    ensures bound { IfOk result (IsWithin MAX_REQUEST_LEN) }
    ensures short { IfErr result (IsNoCutPast (length header.now)) }
{
    if header.len() < HEADER_LEN {
        return refuse(BadReason::CutShort, header.len() as u64);
    }
    if !begins(header[0]) {
        return refuse(BadReason::BadKind, 0);
    }
    let len = u32::from_be_bytes([header[1], header[2], header[3], header[4]]) as usize;
    if len > MAX_REQUEST_LEN {
        return refuse(BadReason::TooLong, len as u64);
    }
    if header[0] == REQUEST_KIND {
        Ok(Head::Request(len))
    } else {
        Ok(Head::Shutdown(len))
    }
}
