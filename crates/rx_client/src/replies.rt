//! The Reply that an input begins with.

ghost use Rattle.std.specs.Prelude.{◌≡◌, ◌≤◌, ◌+◌, IfSome, length};
ghost use Rattle.std.specs.Io.KnownBytes.{Consumes};
ghost use Rattle.rx_world.specs.Causes.{HasCauseOf};
ghost use Rattle.rx_client.specs.Heard.{Hears, first_reply, given_by, longest_reply, reply_len};
ghost use Rattle.rx_client.specs.declared.hear_fault.HearFault.TheVariants.{Lost as lost};

use crate::frames::{HEADER_LEN, REPLY_KIND};
use crate::hear_fault::HearFault;
use crate::streams::read_up_to;
use rx_session::{MAX_REPLY_LEN, Reply, ReplyFault};
use rx_world::Source;
use std::alloc::Global;

/// Reads the one Reply that an input begins with. All that is read is left in `read`, in place of
/// what stood there: no byte behind the frame is.
pub fn read_reply<S: Source>(
    alloc: Global,
    source: &mut S,
    read: &mut Vec<u8>,
) -> Result<Reply, HearFault>
    // What was taken from the source is what was read.
    ensures read { Consumes (S.left source.old) (S.left source.new) read.new.items }
    ensures most { length read.new.items ≤ longest_reply + 5 }
    // The answer is what the bytes that the input gives begin with.
    ensures reply { Hears result
        (first_reply (given_by read.new.items (S.left source.new))) }
    ensures cause { HasCauseOf lost (S.faults source.old) (S.faults source.new) result }
{
    read.clear();
    read_up_to(source, read, HEADER_LEN)?;
    let len = match reply_len(read) {
        Some(len) => len,
        None => return Err(HearFault::NoFrame),
    };
    read_up_to(source, read, HEADER_LEN + len)?;
    if read.len() < HEADER_LEN + len {
        return Err(HearFault::NoFrame);
    }
    let (_, payload) = read.split_at(HEADER_LEN);
    match Reply::decode(alloc, payload) {
        Ok(reply) => Ok(reply),
        Err(ReplyFault::NoMemory) => Err(HearFault::NoMemory),
        Err(ReplyFault::Wire(_)) => Err(HearFault::NoFrame),
        Err(ReplyFault::BadReply) => Err(HearFault::NoFrame),
    }
}

/// The length of the payload, where these bytes begin with the header of a Reply's frame.
#[tactic(auto, unfolding(crate::specs::Heard::reply_len))]
fn reply_len(header: &[u8]) -> Option<usize>
    ensures len { result ≡ reply_len header.now }
    ensures bound { IfSome result (λ len. len ≤ longest_reply) }
{
    if header.len() < HEADER_LEN {
        return None;
    }
    if header[0] != REPLY_KIND {
        return None;
    }
    let len = u32::from_be_bytes([header[1], header[2], header[3], header[4]]) as usize;
    if len > MAX_REPLY_LEN {
        return None;
    }
    Some(len)
}
