//! A race as a plain value.

ghost use Rattle.std.specs.Prelude.{◌≡◌, ◌≤◌, [], IfOk, if◌then◌else◌};
ghost use Rattle.rx_race.specs.declared.events.Event.TheVariants.{Cancel as cancel_event, Offer as offer_event, Start as start_event};
ghost use Rattle.rx_race.specs.declared.standing.Phase.TheVariants.{Running as running};
ghost use Rattle.rx_race.specs.Publishing.{cancel_verdict, may_publish, offer_verdict};
ghost use Rattle.rx_race.specs.Races.{IsStep, cancels_of, standing_of, with_event};
ghost use Rattle.rx_race.specs.Sound.{KeepsDecision, Sound};
ghost use Rattle.rx_race.specs.Standings.{may_start, phase_of};

use crate::publishing::{cancel_verdict, may_publish, offer_verdict};
use crate::{Event, Phase, Standing, Verdict};
use rx_base::NoMemory;
use rx_world::{Attempt, Decision, End, Outcome, Plan};
use std::alloc::Global;
use std::marker::Model;

/// The most events of a race: two starts, two offers and two cancels.
const MOST_EVENTS: usize = 6;

/// A race of the attempts of a plan: the plan, and what happened so far. After `new` no call takes
/// memory.
#[derive(Debug, Drop)]
pub struct Race {
    standing: Standing,
    events: Vec<Event>,
}

impl Model for Race {
    ghost use Rattle.std.specs.Prelude.{vec_capacity};
    ghost use Rattle.rx_race.specs.Races.{Course, IsRace};

    ghost Value = { Course };

    ghost view = { λ r. record { plan = r.standing.plan; events = r.events.items } };

    ghost invariant = { λ r. IsRace r.standing r.events.items (vec_capacity r.events) };
}

impl Race {
    /// A race in which nothing happened yet, with room for all its events.
    pub fn new(alloc: Global, plan: Plan) -> Result<Race, NoMemory>
        ensures { IfOk result (λ race. race ≡ record { plan = plan; events = [] }) }
    {
        Ok(Race {
            standing: Standing::fresh(plan),
            events: Vec::with_capacity(alloc, MOST_EVENTS)?,
        })
    }

    /// What the race has come to. The facts of a sound race hold, whatever calls led here.
    pub fn decision(&self) -> Decision
        ensures replayed { result ≡ (standing_of self.now).decision }
        ensures sound { Sound (standing_of self.now) }
    {
        self.standing.decision
    }

    /// How far an attempt is.
    pub fn phase(&self, attempt: Attempt) -> Phase
        ensures { result ≡ phase_of attempt (standing_of self.now) }
    {
        self.standing.phase(attempt)
    }

    /// What happened so far, in its order.
    pub fn events(&self) -> &[Event]
        ensures { result.now ≡ self.now.events }
    {
        &self.events
    }

    /// How many cancels are among the events.
    pub fn cancels(&self) -> usize
        ensures { result ≡ cancels_of self.now }
    {
        self.events
            .iter()
            .filter(|event| matches!(event, Event::Cancel(_)))
            .count()
    }

    /// Starts an attempt, where it may start. Else nothing changes.
    pub fn start(&mut self, attempt: Attempt) -> bool
        ensures may { result ≡ may_start (standing_of self.old) attempt }
        ensures step { self.new
            ≡ (if result then with_event self.old (start_event attempt) else self.old) }
        ensures kept { KeepsDecision self.old self.new }
    {
        if !self.standing.may_start(attempt) {
            return false;
        }
        self.add(Event::Start(attempt));
        true
    }

    /// Offers the end of an attempt that runs. Late exactly where the race was decided, and else
    /// Won exactly where the end may be published. Where the last attempt is Noted, the race is
    /// decided for nothing.
    pub fn offer<C>(&mut self, attempt: Attempt, end: &End<Outcome, C>) -> Verdict
        requires { phase_of attempt (standing_of self.old) ≡ running }
        ensures verdict { result ≡ offer_verdict
            (standing_of self.old).decision (may_publish self.old.plan attempt end.now) }
        ensures step { self.new ≡ with_event self.old (offer_event attempt result) }
        ensures kept { KeepsDecision self.old self.new }
    {
        let may = may_publish(self.standing.plan, attempt, end);
        self.offer_judged(attempt, may)
    }

    /// Gives the request up. Won exactly where the race was undecided, else Late.
    pub fn cancel(&mut self) -> Verdict
        requires { cancels_of self.old ≤ 1 }
        ensures verdict { result ≡ cancel_verdict (standing_of self.old).decision }
        ensures step { self.new ≡ with_event self.old (cancel_event result) }
        ensures kept { KeepsDecision self.old self.new }
    {
        let verdict = cancel_verdict(self.standing.decision);
        self.add(Event::Cancel(verdict));
        verdict
    }

    /// The same as `offer`, of an end that may be published or may not.
    fn offer_judged(&mut self, attempt: Attempt, may: bool) -> Verdict
        requires { phase_of attempt (standing_of self.old) ≡ running }
        ensures verdict { result ≡ offer_verdict (standing_of self.old).decision may }
        ensures step { self.new ≡ with_event self.old (offer_event attempt result) }
        ensures kept { KeepsDecision self.old self.new }
    {
        let verdict = offer_verdict(self.standing.decision, may);
        self.add(Event::Offer(attempt, verdict));
        verdict
    }

    /// Adds an event that may come.
    fn add(&mut self, event: Event)
        requires step { IsStep (standing_of self.old) event }
        requires few { cancels_of (with_event self.old event) ≤ 2 }
        ensures step { self.new ≡ with_event self.old event }
        ensures kept { KeepsDecision self.old self.new }
    {
        self.standing = self.standing.after(event);
        self.events.push_reserved(event);
    }
}
