//! The name of what a session did, and the number of an attempt.

ghost use Rattle.std.specs.Prelude.{◌≡◌};
ghost use Rattle.rx_note_lines.specs.Lines.{attempt_number_of, name_of};

use rx_report::What;
use rx_world::Attempt;

/// The name of what a session did.
pub(crate) fn name(what: &What) -> &'static str
    ensures { result.now ≡ name_of what.now }
{
    match what {
        What::Admitted => "admitted",
        What::Gathered { .. } => "gathered",
        What::Started { .. } => "started",
        What::Ended { .. } => "ended",
        What::Published { .. } => "published",
        What::Replied { .. } => "replied",
    }
}

/// The number of an attempt.
pub(crate) fn attempt_number(attempt: Attempt) -> u8
    ensures { result ≡ attempt_number_of attempt }
{
    match attempt {
        Attempt::Local => 1,
        Attempt::Remote => 2,
    }
}
