//! How a request's step may run, and whether its client runs it where it can't be taken.

ghost use Rattle.std.specs.Prelude.{◌≡◌};
ghost use Rattle.rx_engine.specs.Choices.{choice_of, client_runs, is_compile, may_run_here};

use rx_scan::Choice;
use rx_session::Request;
use rx_world::{Kind, Strategy};

/// What a request says of the attempts that may be made.
pub(crate) fn choice_of(request: &Request) -> Choice
    ensures { result ≡ choice_of request.now }
{
    Choice {
        strategy: request.strategy,
        in_place: request.in_place && is_compile(request.kind),
    }
}

/// Whether the client itself runs the request's step where it can't be taken.
pub(crate) fn client_runs(request: &Request) -> bool
    ensures { result ≡ client_runs request.now }
{
    choice_of(request).in_place && may_run_here(request.strategy)
}

/// Whether a step is a compile step.
fn is_compile(kind: Kind) -> bool
    ensures { result ≡ is_compile kind }
{
    match kind {
        Kind::Tool => false,
        Kind::Compile => true,
    }
}

/// Whether a step may run on this machine.
fn may_run_here(strategy: Strategy) -> bool
    ensures { result ≡ may_run_here strategy }
{
    match strategy {
        Strategy::Remote => false,
        Strategy::Local | Strategy::RemoteLocalFallback | Strategy::Racing => true,
    }
}
