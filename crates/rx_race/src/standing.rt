//! How a race stands, which attempt may start, and what an event changes.

ghost use Rattle.std.specs.Prelude.{◌≡◌};
ghost use Rattle.rx_race.specs.declared.standing.Standing.{Standing as StandingOf};
ghost use Rattle.rx_race.specs.Standings.{after, decision_after_cancel, decision_after_offer, fresh, has_no_attempt_left, in_plan, is_idle, is_noted, is_offered, is_turn, is_undecided, may_start, phase_of, with_phase};

use crate::{Event, Verdict};
use rx_world::{Attempt, Decision, Plan};

/// How far an attempt is.
#[derive(Clone, Copy, Debug, PartialEq, Eq)]
pub enum Phase {
    /// It wasn't started.
    Idle,
    /// It was started, and has offered no end.
    Running,
    /// It offered its end, and this was told.
    Offered(Verdict),
}

/// How a race stands: what its events come to.
#[derive(Clone, Copy, Debug, PartialEq, Eq)]
pub struct Standing {
    pub plan: Plan,
    pub local: Phase,
    pub remote: Phase,
    pub decision: Decision,
}

/// Whether a plan has an attempt.
fn in_plan(plan: Plan, attempt: Attempt) -> bool
    ensures { result ≡ in_plan plan attempt }
{
    match (plan, attempt) {
        (Plan::LocalOnly, Attempt::Remote) => false,
        (Plan::RemoteOnly, Attempt::Local) => false,
        _ => true,
    }
}

impl Phase {
    fn is_idle(self) -> bool
        ensures { result ≡ is_idle self }
    {
        matches!(self, Phase::Idle)
    }

    fn is_offered(self) -> bool
        ensures { result ≡ is_offered self }
    {
        matches!(self, Phase::Offered(_))
    }

    /// Whether it offered, while the race was undecided, an end that may not be published.
    fn is_noted(self) -> bool
        ensures { result ≡ is_noted self }
    {
        matches!(self, Phase::Offered(Verdict::Noted))
    }
}

impl Standing {
    /// Before the first event.
    pub(crate) fn fresh(plan: Plan) -> Standing
        ensures { result ≡ fresh plan }
    {
        Standing {
            plan,
            local: Phase::Idle,
            remote: Phase::Idle,
            decision: Decision::Undecided,
        }
    }

    /// How far an attempt is.
    pub(crate) fn phase(self, attempt: Attempt) -> Phase
        ensures { result ≡ phase_of attempt self }
    {
        match attempt {
            Attempt::Local => self.local,
            Attempt::Remote => self.remote,
        }
    }

    /// Whether an attempt may start.
    pub(crate) fn may_start(self, attempt: Attempt) -> bool
        ensures { result ≡ may_start self attempt }
    {
        in_plan(self.plan, attempt)
            && self.phase(attempt).is_idle()
            && self.is_undecided()
            && self.is_turn(attempt)
    }

    /// How the race stands after an event.
    pub(crate) fn after(self, event: Event) -> Standing
        ensures { result ≡ after self event }
    {
        match event {
            Event::Start(attempt) => self.with_phase(attempt, Phase::Running),
            Event::Offer(attempt, verdict) => {
                let offered = self.with_phase(attempt, Phase::Offered(verdict));
                Standing {
                    decision: offered.decision_after_offer(attempt, verdict),
                    ..offered
                }
            }
            Event::Cancel(verdict) => Standing {
                decision: self.decision_after_cancel(verdict),
                ..self
            },
        }
    }

    fn is_undecided(self) -> bool
        ensures { result ≡ is_undecided self.decision }
    {
        matches!(self.decision, Decision::Undecided)
    }

    /// Whether an attempt has nothing to wait for: under Fallback the local one waits until the
    /// remote one was noted.
    fn is_turn(self, attempt: Attempt) -> bool
        ensures { result ≡ is_turn self.plan attempt self.remote }
    {
        match (self.plan, attempt) {
            (Plan::Fallback, Attempt::Local) => self.remote.is_noted(),
            _ => true,
        }
    }

    fn with_phase(self, attempt: Attempt, phase: Phase) -> Standing
        ensures { result ≡ with_phase attempt phase self }
    {
        match attempt {
            Attempt::Local => Standing {
                local: phase,
                ..self
            },
            Attempt::Remote => Standing {
                remote: phase,
                ..self
            },
        }
    }

    /// Whether each attempt of the plan has offered.
    fn has_no_attempt_left(self) -> bool
        ensures { result ≡ has_no_attempt_left self }
    {
        (!in_plan(self.plan, Attempt::Local) || self.local.is_offered())
            && (!in_plan(self.plan, Attempt::Remote) || self.remote.is_offered())
    }

    /// The decision, once this attempt has offered and was told this.
    fn decision_after_offer(self, attempt: Attempt, verdict: Verdict) -> Decision
        ensures { result ≡ decision_after_offer self attempt verdict }
    {
        match verdict {
            Verdict::Won => Decision::By(attempt),
            Verdict::Noted if self.has_no_attempt_left() => Decision::Nothing,
            Verdict::Late | Verdict::Noted => self.decision,
        }
    }

    /// The decision, once a cancel was told this.
    fn decision_after_cancel(self, verdict: Verdict) -> Decision
        ensures { result ≡ decision_after_cancel self.decision verdict }
    {
        match verdict {
            Verdict::Won => Decision::Cancelled,
            _ => self.decision,
        }
    }
}
