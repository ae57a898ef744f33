//! The connections of a client.

ghost use Rattle.std.specs.Prelude.{◌≡◌, ◌≤◌, IsErrOf};
ghost use Rattle.rx_world.specs.Causes.{HasCauseOf};
ghost use Rattle.rx_client.specs.Connections.{Touches, connections};
ghost use Rattle.rx_client.specs.Conversing.{Converses, ConversesOnce, frame_for};
ghost use Rattle.rx_client.specs.declared.talk_fault.TalkFault.TheVariants.{Conversation as no_conversation};

use crate::frames::frame_for;
use crate::heard::Heard;
use crate::outside::Connect;
use crate::talk_fault::TalkFault;
use crate::talks::talk;
use rx_wrap::{Address, Asked, Errand};
use std::alloc::Global;

/// Connects once, sends the frame of an errand and hears what the proxy says.
fn converse_once<C: Connect>(
    alloc: Global,
    connect: &mut C,
    asked: &Asked,
    frame: &[u8],
) -> Result<Heard, TalkFault>
    requires { frame.now ≡ frame_for asked.now.errand }
    ensures converses { ConversesOnce C.In.Source C.Out.Sink (connections C.Connect connect.old)
        (connections C.Connect connect.new) asked.now result }
    ensures cause { HasCauseOf no_conversation
        (C.faults connect.old) (C.faults connect.new) result }
{
    let (mut input, mut output) = connect.connect(&asked.address)?;
    let heard = talk(alloc, &mut input, &mut output, &asked.errand, frame);
    connect.done(input, output);
    heard
}

/// Connects once more and closes, so that a proxy that waits for its next client sees that it is to
/// end. Where that fails, it has ended.
fn touch<C: Connect>(connect: &mut C, address: &Address)
    ensures touched { Touches (connections C.Connect connect.old)
        (connections C.Connect connect.new) address.now }
    ensures later { C.faults connect.old ≤ C.faults connect.new }
{
    if let Ok((input, output)) = connect.connect(address) {
        connect.done(input, output);
    }
}

/// Says to the proxy what was asked for, and hears what it says.
pub(crate) fn converse<C: Connect>(
    alloc: Global,
    connect: &mut C,
    asked: &Asked,
) -> Result<Heard, TalkFault>
    ensures converses { Converses C.In.Source C.Out.Sink (connections C.Connect connect.old)
        (connections C.Connect connect.new) asked.now result }
    ensures cause { HasCauseOf no_conversation
        (C.faults connect.old) (C.faults connect.new) result }
{
    let frame = frame_for(alloc, &asked.errand)?;
    let heard = converse_once(alloc, connect, asked, &frame)?;
    match heard {
        Heard::Reply(reply) => Ok(Heard::Reply(reply)),
        Heard::InPlace(cause) => Ok(Heard::InPlace(cause)),
        Heard::ShutDown => {
            touch(connect, &asked.address);
            Ok(Heard::ShutDown)
        }
    }
}
