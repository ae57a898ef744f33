//! Which attempts are made of a command, and what becomes of one that can't be run on the farm.

ghost use Rattle.std.specs.Prelude.{◌≡◌};
ghost use Rattle.rx_scan.specs.Plans.{kept_plan, local_plan, ordinary_plan};

use rx_world::{Plan, Strategy};

/// What is chosen for a command: where it may run, and who runs it where it can't run on the farm.
#[derive(Clone, Copy, Debug, PartialEq, Eq)]
pub struct Choice {
    /// Where the command may run.
    pub strategy: Strategy,
    /// Whether its client runs it where a word or a path keeps it on this machine: it has no plan
    /// then.
    pub in_place: bool,
}

/// The plan of an ordinary command.
pub(crate) fn ordinary_plan(choice: Choice) -> Plan
    ensures { result ≡ ordinary_plan choice.strategy }
{
    match choice.strategy {
        Strategy::Local => Plan::LocalOnly,
        Strategy::Remote => Plan::RemoteOnly,
        Strategy::RemoteLocalFallback => Plan::Fallback,
        Strategy::Racing => Plan::Both,
    }
}

/// The plan of a command that only this machine can run. It has none where its client is to run it,
/// or where it is to run remotely.
pub(crate) fn local_plan(choice: Choice) -> Option<Plan>
    ensures { result ≡ local_plan choice }
{
    if choice.in_place {
        None
    } else {
        kept_plan(choice.strategy)
    }
}

/// The plan of a command that only this machine can run, and not its client. Where it is to run
/// remotely it has none.
fn kept_plan(strategy: Strategy) -> Option<Plan>
    ensures { result ≡ kept_plan strategy }
{
    match strategy {
        Strategy::Local | Strategy::RemoteLocalFallback | Strategy::Racing => Some(Plan::LocalOnly),
        Strategy::Remote => None,
    }
}
