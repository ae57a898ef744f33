//! What is under the lock of a shared race: the race, and what became of its passes.

ghost use Rattle.std.specs.Prelude.{◌≡◌, ◌≢◌, ◌↔◌, [], false, true, IfErr, IfNone, IfOk, IfSome, IsTrue, Some};
ghost use Rattle.rx_race.specs.declared.events.Verdict.TheVariants.{Late as late, Noted as noted, Won as won};
ghost use Rattle.rx_race.specs.declared.slips.Seat.TheVariants.{Canceller as canceller, Of as of_attempt};
ghost use Rattle.rx_race.specs.declared.slips.Slip.TheVariants.{Live as live, Refused as refused, Stopped as stopped, Told as told, Unused as unused};
ghost use Rattle.rx_race.specs.Locked.{AreTold, IsUnstarted, slips_of};
ghost use Rattle.rx_race.specs.Publishing.{may_publish};
ghost use Rattle.rx_race.specs.Races.{standing_of};
ghost use Rattle.rx_race.specs.Slips.{is_live, offered, seen_in, told_in, unused_slips};
ghost use Rattle.rx_race.specs.Standings.{in_plan, is_turn};
ghost use Rattle.rx_world.specs.declared.attempts.Attempt.TheVariants.{Local as local_attempt, Remote as remote_attempt};
ghost use Rattle.rx_world.specs.Decisions.{IsSettled};

use crate::contests::Contest;
use crate::desk::SlipDesk;
use crate::slips::Slip;
use crate::tickets::Ticket;
use crate::{Phase, Race, Verdict};
use rx_world::{Attempt, Decision, End, Outcome};
use std::marker::Model;

/// A race, and what became of each of its passes.
#[derive(Drop)]
pub(crate) struct Held<K: Contest> {
    race: Race,
    desk: SlipDesk<K>,
}

impl<K: Contest> Model for Held<K> {
    ghost use Rattle.rx_race.specs.Locked.{IsLocked, Locked};

    ghost Value = { Locked };

    ghost view = { λ h. record { race = h.race; slips = h.desk } };

    ghost invariant = { λ h. IsLocked K.plan (record { race = h.race; slips = h.desk }) };
}

/// Whether a race is decided for an attempt or cancelled.
fn is_settled(decision: Decision) -> bool
    ensures { IsTrue result ↔ IsSettled decision }
{
    match decision {
        Decision::By(_) | Decision::Cancelled => true,
        Decision::Undecided | Decision::Nothing => false,
    }
}

/// What becomes of a live pass whose offer was told this.
fn offered(slip: Slip, verdict: Verdict) -> Slip
    ensures { result ≡ offered slip verdict }
{
    match slip {
        Slip::Stopped(decision) | Slip::Yielded(decision) => Slip::Yielded(decision),
        Slip::Unused | Slip::Refused | Slip::Live | Slip::Told(_) => Slip::Told(verdict),
    }
}

impl<K: Contest> Held<K> {
    /// A race in which nothing happened yet, and whose passes weren't used.
    pub(crate) fn open(race: Race, desk: SlipDesk<K>) -> Held<K>
        requires race { race ≡ record { plan = K.plan; events = [] } }
        requires desk { desk ≡ unused_slips }
    {
        Held { race, desk }
    }

    /// Starts an attempt, where it may start. Else its pass is refused, where the race is decided
    /// for an attempt or cancelled, or stays unused.
    pub(crate) fn start(
        &mut self,
        ticket: Ticket<K>,
        attempt: Attempt,
    ) -> Result<Ticket<K>, Ticket<K>>
        requires { ticket ≡ record { seat = of_attempt attempt; slip = unused } }
        ensures started { IfOk result (λ t. t ≡ record { seat = of_attempt attempt; slip = live }) }
        ensures planned { IfOk result (λ t. in_plan K.plan attempt ≡ true) }
        ensures unstarted { IfErr result (IsUnstarted attempt) }
        ensures refused { in_plan K.plan attempt ≡ true
            → is_turn K.plan attempt (standing_of self.old.race).remote ≡ true
            → IfErr result (λ t. t.slip ≡ refused) }
    {
        let mut ticket = ticket;
        self.desk.check(&mut ticket);
        if self.race.start(attempt) {
            self.desk.write(&mut ticket, Slip::Live);
            return Ok(ticket);
        }
        if is_settled(self.race.decision()) {
            self.desk.write(&mut ticket, Slip::Refused);
            return Err(ticket);
        }
        Err(ticket)
    }

    /// The same after the remote attempt was noted.
    pub(crate) fn start_after(
        &mut self,
        ticket: Ticket<K>,
        attempt: Attempt,
        remote: &mut Ticket<K>,
    ) -> Result<Ticket<K>, Ticket<K>>
        requires ticket { ticket ≡ record { seat = of_attempt attempt; slip = unused } }
        requires remote { remote.old
            ≡ record { seat = of_attempt remote_attempt; slip = told noted } }
        ensures same { remote.new ≡ remote.old }
        ensures started { IfOk result (λ t. t ≡ record { seat = of_attempt attempt; slip = live }) }
        ensures planned { IfOk result (λ t. in_plan K.plan attempt ≡ true) }
        ensures unstarted { IfErr result (IsUnstarted attempt) }
        ensures refused { in_plan K.plan attempt ≡ true → IfErr result (λ t. t.slip ≡ refused) }
    {
        self.desk.check(remote);
        self.start(ticket, attempt)
    }

    /// The decision, where the race is decided for an attempt or cancelled.
    pub(crate) fn look(&mut self, ticket: &mut Ticket<K>, attempt: Attempt) -> Option<Decision>
        requires seat { ticket.old.seat ≡ of_attempt attempt }
        requires live { is_live ticket.old.slip ≡ true }
        ensures some { IfSome result (λ decision. IsSettled decision) }
        ensures stopped { IfSome result (λ decision.
            ticket.new ≡ record { seat = of_attempt attempt; slip = stopped decision }) }
        ensures none { IfNone result (ticket.new ≡ ticket.old) }
    {
        self.desk.check(ticket);
        let decision = self.race.decision();
        if is_settled(decision) {
            self.desk.write(ticket, Slip::Stopped(decision));
            return Some(decision);
        }
        None
    }

    /// Offers the end of an attempt that runs.
    pub(crate) fn offer<C>(
        &mut self,
        ticket: &mut Ticket<K>,
        attempt: Attempt,
        end: &End<Outcome, C>,
    ) -> Verdict
        requires seat { ticket.old.seat ≡ of_attempt attempt }
        requires live { is_live ticket.old.slip ≡ true }
        ensures seat { ticket.new.seat ≡ of_attempt attempt }
        ensures told { told_in ticket.new.slip ≡ Some result }
        ensures seen { seen_in ticket.new.slip ≡ seen_in ticket.old.slip }
        ensures late { IfSome (seen_in ticket.old.slip) (λ decision. result ≡ late) }
        ensures won { result ≡ won → may_publish K.plan attempt end.now ≡ true }
        ensures noted { result ≡ noted → may_publish K.plan attempt end.now ≡ false }
    {
        self.desk.check(ticket);
        let verdict = self.race.offer(attempt, end);
        let slip = offered(ticket.slip(), verdict);
        self.desk.write(ticket, slip);
        verdict
    }

    /// Cancels.
    pub(crate) fn cancel(&mut self, ticket: &mut Ticket<K>) -> Verdict
        requires { ticket.old ≡ record { seat = canceller; slip = unused } }
        ensures ticket { ticket.new ≡ record { seat = canceller; slip = told result } }
        ensures verdict { result ≢ noted }
    {
        self.desk.check(ticket);
        let verdict = self.race.cancel();
        self.desk.write(ticket, Slip::Told(verdict));
        verdict
    }

    /// Whether the race came to something.
    pub(crate) fn is_decided(&self) -> bool {
        self.race.decision() != Decision::Undecided
    }

    /// The decision, and whether the local and the remote attempt have offered.
    pub(crate) fn news(&self) -> (Decision, (bool, bool)) {
        let local = matches!(self.race.phase(Attempt::Local), Phase::Offered(_));
        let remote = matches!(self.race.phase(Attempt::Remote), Phase::Offered(_));
        (self.race.decision(), (local, remote))
    }

    /// What became of the three passes.
    pub(crate) fn close(
        &mut self,
        local: &mut Ticket<K>,
        remote: &mut Ticket<K>,
        cancel: &mut Ticket<K>,
    )
        requires local { local.old.seat ≡ of_attempt local_attempt }
        requires remote { remote.old.seat ≡ of_attempt remote_attempt }
        requires cancel { cancel.old.seat ≡ canceller }
        ensures local { local.new ≡ local.old }
        ensures remote { remote.new ≡ remote.old }
        ensures cancel { cancel.new ≡ cancel.old }
        ensures told { AreTold K.plan (slips_of local.old.slip remote.old.slip cancel.old.slip) }
    {
        self.desk.check(local);
        self.desk.check(remote);
        self.desk.check(cancel);
    }
}
