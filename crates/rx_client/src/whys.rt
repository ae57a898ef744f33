//! Why a command runs in place, and the line that tells it.

ghost use Rattle.std.specs.Prelude.{◌≡◌, ◌++◌, IfOk, OnOk, string_bytes};
ghost use Rattle.rx_client.specs.Lines.{why_line, why_text};

use crate::refusals::push_in_place;
use rx_base::NoMemory;
use rx_session::InPlaceCause;
use std::alloc::Global;

/// Why a command runs in place.
#[derive(Debug, Drop)]
pub(crate) enum Why {
    /// The proxy said so.
    Told(InPlaceCause),
    /// The working directory is outside of the root.
    Outside,
    /// There is no proxy.
    NoProxy,
}

/// Adds why.
fn push_why(out: &mut String, why: &Why) -> Result<(), NoMemory>
    ensures { OnOk result (string_bytes out.new ≡ string_bytes out.old ++ why_text why.now) }
{
    match why {
        Why::Told(cause) => push_in_place(out, cause),
        Why::Outside => out.push_str("outside of exec_root"),
        Why::NoProxy => out.push_str("no proxy"),
    }
}

/// The line that tells why a command runs in place.
pub(crate) fn why_line(alloc: Global, why: &Why) -> Result<String, NoMemory>
    ensures { IfOk result (λ line. string_bytes line ≡ why_line why.now) }
{
    let mut line = String::from_str(alloc, "rewrapper: in place: ")?;
    push_why(&mut line, why)?;
    line.push_str("\n")?;
    Ok(line)
}
