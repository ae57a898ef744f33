//! A race behind a lock, for attempts in threads of their own.

ghost use Rattle.std.specs.Prelude.{◌≡◌, ◌≢◌, [], false, true, IfErr, IfNone, IfOk, IfSome};
ghost use Rattle.rx_race.specs.declared.events.Verdict.TheVariants.{Late as late, Noted as noted, Won as won};
ghost use Rattle.rx_race.specs.declared.slips.Seat.TheVariants.{Canceller as canceller, Of as of_attempt};
ghost use Rattle.rx_race.specs.declared.slips.Slip.TheVariants.{Refused as refused, Stopped as stopped, Told as told};
ghost use Rattle.rx_race.specs.Locked.{AreTold, falls_back, slips_of};
ghost use Rattle.rx_race.specs.Publishing.{may_publish};
ghost use Rattle.rx_race.specs.Slips.{AreBlank, seen_in};
ghost use Rattle.rx_race.specs.Standings.{in_plan};
ghost use Rattle.rx_world.specs.declared.attempts.Attempt.TheVariants.{Local as local_attempt, Remote as remote_attempt};
ghost use Rattle.rx_world.specs.Decisions.{IsSettled};

use crate::Race;
use crate::contests::{Blanks, Contest};
use crate::desk::SlipDesk;
use crate::held::Held;
use crate::passes::{CancelPass, Live, Mark, NoStart, StartPass};
use crate::tickets::Ticket;
use rx_base::NoMemory;
use rx_world::{Attempt, Decision, End, Outcome, Plan};
use std::alloc::Global;
use std::sync::{Condvar, Mutex, Wait};

/// A race behind a lock. Its calls consume passes, and after `new` none takes memory.
#[derive(Drop)]
pub struct SharedRace<K: Contest> {
    held: Mutex<Held<K>>,
    changed: Condvar,
}

impl<K: Contest> SharedRace<K> {
    /// A race with its passes: to cancel, and to start the local and the remote attempt.
    pub fn new(
        alloc: Global,
        plan: Plan,
        blanks: Blanks,
    ) -> Result<(SharedRace<K>, CancelPass<K>, StartPass<K>, StartPass<K>), NoMemory>
        requires plan { plan ≡ K.plan }
        requires blanks { AreBlank blanks K.local K.remote K.cancel }
        ensures local { IfOk result (λ made. made.2.attempt ≡ local_attempt) }
        ensures remote { IfOk result (λ made. made.3.attempt ≡ remote_attempt) }
    {
        Ok(SharedRace::of(Race::new(alloc, plan)?, blanks))
    }

    /// The same of a race that has its memory, and in which nothing happened yet.
    pub fn of(
        race: Race,
        blanks: Blanks,
    ) -> (SharedRace<K>, CancelPass<K>, StartPass<K>, StartPass<K>)
        requires race { race ≡ record { plan = K.plan; events = [] } }
        requires blanks { AreBlank blanks K.local K.remote K.cancel }
        ensures local { result.2.attempt ≡ local_attempt }
        ensures remote { result.3.attempt ≡ remote_attempt }
    {
        let (desk, local, remote, cancel) = SlipDesk::open(blanks);
        let shared = SharedRace {
            held: Mutex::new(Held::open(race, desk)),
            changed: Condvar::new(),
        };
        let local = StartPass {
            attempt: Attempt::Local,
            ticket: local,
        };
        let remote = StartPass {
            attempt: Attempt::Remote,
            ticket: remote,
        };
        (shared, CancelPass { ticket: cancel }, local, remote)
    }

    /// Starts an attempt, where it may start. An attempt of the plan that doesn't fall back is
    /// refused only where the race is seen decided for an attempt, or cancelled.
    pub fn start(&self, rt: &impl Wait, pass: StartPass<K>) -> Result<Live<K>, NoStart<K>>
        ensures live { IfOk result (λ live. live.attempt ≡ pass.attempt) }
        ensures unstarted { IfErr result (λ no. no.attempt ≡ pass.attempt) }
        ensures refused { in_plan K.plan pass.attempt ≡ true
            → falls_back K.plan pass.attempt ≡ false
            → IfErr result (λ no. no.ticket.slip ≡ refused) }
    {
        let StartPass { attempt, ticket } = pass;
        match self.held.lock(rt).start(ticket, attempt) {
            Ok(ticket) => Ok(Live { attempt, ticket }),
            Err(ticket) => Err(NoStart { attempt, ticket }),
        }
    }

    /// The same of an attempt that falls back, after the remote one was noted.
    pub fn start_after(
        &self,
        rt: &impl Wait,
        pass: StartPass<K>,
        remote: &mut Mark<K>,
    ) -> Result<Live<K>, NoStart<K>>
        requires seat { remote.old.ticket.seat ≡ of_attempt remote_attempt }
        requires noted { remote.old.verdict ≡ noted }
        ensures verdict { remote.new.verdict ≡ remote.old.verdict }
        ensures ticket { remote.new.ticket ≡ remote.old.ticket }
        ensures live { IfOk result (λ live. live.attempt ≡ pass.attempt) }
        ensures unstarted { IfErr result (λ no. no.attempt ≡ pass.attempt) }
        ensures refused { in_plan K.plan pass.attempt ≡ true
            → IfErr result (λ no. no.ticket.slip ≡ refused) }
    {
        let StartPass { attempt, ticket } = pass;
        match self
            .held
            .lock(rt)
            .start_after(ticket, attempt, &mut remote.ticket)
        {
            Ok(ticket) => Ok(Live { attempt, ticket }),
            Err(ticket) => Err(NoStart { attempt, ticket }),
        }
    }

    /// The decision, where the race is decided for an attempt or cancelled.
    pub fn look(&self, rt: &impl Wait, live: &mut Live<K>) -> Option<Decision>
        ensures attempt { live.new.attempt ≡ live.old.attempt }
        ensures some { IfSome result (λ decision. IsSettled decision) }
        ensures stopped { IfSome result (λ decision. live.new.ticket.slip ≡ stopped decision) }
        ensures none { IfNone result (live.new.ticket ≡ live.old.ticket) }
    {
        let attempt = live.attempt;
        self.held.lock(rt).look(&mut live.ticket, attempt)
    }

    /// Whether the race is decided, as whoever holds no pass may ask.
    pub fn is_decided(&self, rt: &impl Wait) -> bool {
        self.held.lock(rt).is_decided()
    }

    /// Offers the end of an attempt. Won only where it may be published, Noted only where it may
    /// not, and Late where the pass has seen a decision.
    pub fn offer<C>(&self, rt: &impl Wait, live: Live<K>, end: &End<Outcome, C>) -> Mark<K>
        ensures seat { result.ticket.seat ≡ of_attempt live.attempt }
        ensures won { result.verdict ≡ won → may_publish K.plan live.attempt end.now ≡ true }
        ensures noted { result.verdict ≡ noted → may_publish K.plan live.attempt end.now ≡ false }
        ensures seen { seen_in result.ticket.slip ≡ seen_in live.ticket.slip }
        ensures late { IfSome (seen_in live.ticket.slip) (λ decision. result.verdict ≡ late) }
    {
        let Live { attempt, ticket } = live;
        let mut ticket = ticket;
        let mut held = self.held.lock(rt);
        let verdict = held.offer(&mut ticket, attempt, end);
        self.changed.notify_all();
        Mark { verdict, ticket }
    }

    /// Cancels. Won, or Late where the race was decided.
    pub fn cancel(&self, rt: &impl Wait, pass: CancelPass<K>) -> Mark<K>
        ensures seat { result.ticket.seat ≡ canceller }
        ensures told { result.ticket.slip ≡ told result.verdict }
        ensures verdict { result.verdict ≢ noted }
    {
        let CancelPass { ticket } = pass;
        let mut ticket = ticket;
        let mut held = self.held.lock(rt);
        let verdict = held.cancel(&mut ticket);
        self.changed.notify_all();
        Mark { verdict, ticket }
    }

    /// Waits until the decision, or whether the local and the remote attempt have offered, isn't
    /// this any more, and answers both.
    pub fn wait_change(
        &self,
        rt: &impl Wait,
        decision: Decision,
        offered: (bool, bool),
    ) -> (Decision, (bool, bool)) {
        let held = self.changed.wait_while(rt, self.held.lock(rt), |held| {
            let (now, (local, remote)) = held.news();
            now == decision && local == offered.0 && remote == offered.1
        });
        held.news()
    }

    /// What the three passes were told, by their tickets: those of marks, of starts that were
    /// refused, or of passes that weren't used.
    pub fn close(
        self,
        local: Ticket<K>,
        remote: Ticket<K>,
        cancel: Ticket<K>,
    ) -> (Ticket<K>, Ticket<K>, Ticket<K>)
        requires local { local.seat ≡ of_attempt local_attempt }
        requires remote { remote.seat ≡ of_attempt remote_attempt }
        requires cancel { cancel.seat ≡ canceller }
        ensures local { result.0 ≡ local }
        ensures remote { result.1 ≡ remote }
        ensures cancel { result.2 ≡ cancel }
        ensures told { AreTold K.plan (slips_of local.slip remote.slip cancel.slip) }
    {
        let (mut local, mut remote, mut cancel) = (local, remote, cancel);
        let mut held = self.held.into_inner();
        held.close(&mut local, &mut remote, &mut cancel);
        (local, remote, cancel)
    }
}
