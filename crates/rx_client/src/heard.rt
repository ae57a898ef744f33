//! What a client hears from the proxy.

ghost use Rattle.std.specs.Prelude.{◌≡◌};
ghost use Rattle.std.specs.Io.KnownBytes.{Consumes};
ghost use Rattle.rx_world.specs.Causes.{HasCauseOf};
ghost use Rattle.rx_client.specs.Conversing.{heard_in, heard_of, is_done, needs_all};
ghost use Rattle.rx_client.specs.Heard.{Hears, given_by};
ghost use Rattle.rx_client.specs.declared.hear_fault.HearFault.TheVariants.{Lost as lost};

use crate::endings::read_shutdown_done;
use crate::hear_fault::HearFault;
use crate::replies::read_reply;
use rx_session::{InPlaceCause, Reply};
use rx_world::Source;
use rx_wrap::Errand;
use std::alloc::Global;

/// What the proxy said.
#[derive(Debug, Drop)]
pub(crate) enum Heard {
    Reply(Reply),
    /// That the command is to run in place, which the request lets it.
    InPlace(InPlaceCause),
    /// That it ends.
    ShutDown,
}

/// Whether a reply is that the command ran.
fn is_done(reply: &Reply) -> bool
    ensures { result ≡ is_done reply.now }
{
    matches!(reply, Reply::Done { .. })
}

/// Whether it is only said of an errand that was sent whole.
pub(crate) fn needs_all(heard: &Heard) -> bool
    ensures { result ≡ needs_all heard.now }
{
    match heard {
        Heard::Reply(reply) => is_done(reply),
        Heard::InPlace(_) => true,
        Heard::ShutDown => true,
    }
}

/// What a reply says. That a command is to run in place is heard only where the request lets it.
fn heard_of(in_place: bool, reply: Reply) -> Option<Heard>
    ensures { result ≡ heard_of in_place reply }
{
    match reply {
        Reply::InPlace { cause } => {
            if in_place {
                return Some(Heard::InPlace(cause));
            }
            None
        }
        other => Some(Heard::Reply(other)),
    }
}

/// Reads the frame that an errand awaits, where the input begins with it. All that is read is left
/// in `read`.
pub(crate) fn hear<S: Source>(
    alloc: Global,
    errand: &Errand,
    source: &mut S,
    read: &mut Vec<u8>,
) -> Result<Heard, HearFault>
    ensures read { Consumes (S.left source.old) (S.left source.new) read.new.items }
    ensures heard { Hears result
        (heard_in errand.now (given_by read.new.items (S.left source.new))) }
    ensures cause { HasCauseOf lost (S.faults source.old) (S.faults source.new) result }
{
    match errand {
        Errand::Run(request) => match read_reply(alloc, source, read) {
            Ok(reply) => match heard_of(request.in_place, reply) {
                Some(heard) => Ok(heard),
                None => Err(HearFault::NoFrame),
            },
            Err(fault) => Err(fault),
        },
        Errand::ShutDown => match read_shutdown_done(source, read) {
            Ok(true) => Ok(Heard::ShutDown),
            Ok(false) => Err(HearFault::NoFrame),
            Err(refused) => Err(HearFault::from(refused)),
        },
    }
}
