//! A conversation over one connection.

ghost use Rattle.std.specs.Prelude.{◌≡◌, ◌≤◌};
ghost use Rattle.rx_client.specs.Conversing.{Talks, frame_for};
ghost use Rattle.rx_client.specs.Said.{said};

use crate::hear_fault::HearFault;
use crate::heard::{Heard, hear, needs_all};
use crate::talk_fault::TalkFault;
use rx_session::write_frame;
use rx_world::{Sink, Source};
use rx_wrap::Errand;
use std::alloc::Global;

/// Sends the frame of an errand, and hears what the proxy says. That is heard also where the frame
/// wasn't taken whole, since a proxy may refuse by a part of it; but no more than a refusal then.
pub(crate) fn talk<S: Source, K: Sink>(
    alloc: Global,
    input: &mut S,
    output: &mut K,
    errand: &Errand,
    frame: &[u8],
) -> Result<Heard, TalkFault>
    requires { frame.now ≡ frame_for errand.now }
    ensures talks { Talks S.Source errand.now input.old input.new
        (said K.Sink output.old output.new) result }
{
    let (_, sent) = write_frame(output, frame);
    let mut read = Vec::new(alloc);
    match hear(alloc, errand, input, &mut read) {
        Ok(heard) => {
            if sent.is_err() && needs_all(&heard) {
                return Err(TalkFault::Conversation);
            }
            Ok(heard)
        }
        Err(HearFault::NoFrame) => match sent {
            Ok(()) => Err(TalkFault::BadReply),
            Err(_) => Err(TalkFault::Conversation),
        },
        Err(HearFault::Lost) => Err(TalkFault::Conversation),
        Err(HearFault::NoMemory) => Err(TalkFault::NoMemory),
    }
}
