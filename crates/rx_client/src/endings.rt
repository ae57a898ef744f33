//! The frame by which a proxy says that it ends.

ghost use Rattle.std.specs.Prelude.{◌≡◌, IfOk};
ghost use Rattle.std.specs.Io.KnownBytes.{Consumes};
ghost use Rattle.rx_world.specs.Causes.{HasCauseOf};
ghost use Rattle.rx_world.specs.declared.failures.Refused.TheVariants.{Failed as failed};
ghost use Rattle.rx_client.specs.Heard.{given_by, is_shutdown_done};

use crate::streams::read_up_to;
use rx_session::SHUTDOWN_DONE;
use rx_world::{Refused, Source};

/// Whether an input begins with that frame. All that is read is left in `read`.
pub(crate) fn read_shutdown_done<S: Source>(
    source: &mut S,
    read: &mut Vec<u8>,
) -> Result<bool, Refused>
    ensures read { Consumes (S.left source.old) (S.left source.new) read.new.items }
    ensures done { IfOk result (λ done.
        done ≡ is_shutdown_done (given_by read.new.items (S.left source.new))) }
    ensures cause { HasCauseOf failed (S.faults source.old) (S.faults source.new) result }
{
    read.clear();
    read_up_to(source, read, SHUTDOWN_DONE.len())?;
    Ok(read.as_slice() == SHUTDOWN_DONE.as_slice())
}
