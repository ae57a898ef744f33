//! Which ask waits for its answer.

ghost use Rattle.std.specs.Prelude.{◌≡◌};
ghost use Rattle.rx_remote.specs.Marks.{phase_of};

use crate::Ask;

/// Which ask waits for its answer.
#[derive(Clone, Copy, Debug, PartialEq, Eq)]
pub enum Phase {
    Capabilities,
    GetResult,
    Upload { fresh: bool },
    Execute,
    NextOperation,
    Wait,
    Fetch,
    Ended,
}

/// Which of the asks it is.
pub(crate) fn phase_of(ask: &Ask) -> Phase
    ensures { result ≡ phase_of ask.now }
{
    match ask {
        Ask::Capabilities => Phase::Capabilities,
        Ask::GetResult => Phase::GetResult,
        Ask::Upload { fresh } => Phase::Upload { fresh: *fresh },
        Ask::Execute { skip_cache: _ } => Phase::Execute,
        Ask::NextOperation => Phase::NextOperation,
        Ask::Wait { name: _ } => Phase::Wait,
        Ask::Fetch { digests: _ } => Phase::Fetch,
        Ask::End { end: _ } => Phase::Ended,
    }
}
