//! Which ends may be published, and what an offer or a cancel is told.

ghost use Rattle.std.specs.Prelude.{◌≡◌};
ghost use Rattle.rx_race.specs.Publishing.{cancel_verdict, may_publish, offer_verdict};

use crate::Verdict;
use rx_world::{Attempt, Decision, End, Outcome, Plan};

/// Whether an attempt's end may be published. It has to be an outcome. A local one may have any
/// exit code, and so may a remote one where the plan has no local attempt; else its code has to be
/// 0.
pub fn may_publish<C>(plan: Plan, attempt: Attempt, end: &End<Outcome, C>) -> bool
    ensures { result ≡ may_publish plan attempt end.now }
{
    match end {
        End::Failed { cause: _ } => false,
        End::Done { outcome, origin: _ } => match (attempt, plan) {
            (Attempt::Local, _) => true,
            (Attempt::Remote, Plan::RemoteOnly) => true,
            (Attempt::Remote, _) => outcome.exit.code == 0,
        },
    }
}

/// What an offer is told. `may` says whether its end may be published.
pub(crate) fn offer_verdict(decision: Decision, may: bool) -> Verdict
    ensures { result ≡ offer_verdict decision may }
{
    match (decision, may) {
        (Decision::Undecided, true) => Verdict::Won,
        (Decision::Undecided, false) => Verdict::Noted,
        _ => Verdict::Late,
    }
}

/// What a cancel is told.
pub(crate) fn cancel_verdict(decision: Decision) -> Verdict
    ensures { result ≡ cancel_verdict decision }
{
    match decision {
        Decision::Undecided => Verdict::Won,
        _ => Verdict::Late,
    }
}
