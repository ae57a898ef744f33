//! A running attempt that looks at its own race.

ghost use Rattle.std.specs.Prelude.{◌≡◌, IfSome, None, Some, false, true};
ghost use Rattle.rx_race.specs.declared.events.Verdict.TheVariants.{Late as late, Noted as noted, Won as won};
ghost use Rattle.rx_race.specs.declared.slips.Seat.TheVariants.{Of as of_attempt};
ghost use Rattle.rx_race.specs.Publishing.{may_publish};
ghost use Rattle.rx_race.specs.Slips.{seen_in};

use crate::contests::Contest;
use crate::passes::{Live, Mark};
use crate::shared_race::SharedRace;
use rx_world::{Decision, End, Outcome, Stop};
use std::marker::Model;
use std::sync::Wait;

/// The right to offer the end of an attempt, which asks its race between its steps whether it is to
/// stop.
#[derive(Drop)]
pub struct Looking<'a, K: Contest, R: Wait> {
    rt: &'a R,
    race: &'a SharedRace<K>,
    live: Live<K>,
    seen: Option<Decision>,
}

impl<'a, K: Contest, R: Wait> Model for Looking<'a, K, R> {
    ghost use Rattle.rx_race.specs.Looking.{IsLooking, Looked};

    ghost Value = { Looked };

    ghost view = { λ l. record { attempt = l.live.attempt; seen = l.seen } };

    ghost invariant = { λ l. IsLooking l.live.ticket.slip l.seen };
}

impl<'a, K: Contest, R: Wait> Looking<'a, K, R> {
    /// An attempt that has seen no decision.
    pub fn new(rt: &'a R, race: &'a SharedRace<K>, live: Live<K>) -> Looking<'a, K, R>
        ensures { result ≡ record { attempt = live.attempt; seen = None } }
    {
        Looking {
            rt,
            race,
            live,
            seen: None,
        }
    }

    /// Offers the end of the attempt. Won only where it may be published, Noted only where it may
    /// not, and Late where the attempt has seen a decision.
    pub fn offer<C>(self, end: &End<Outcome, C>) -> Mark<K>
        ensures seat { result.ticket.seat ≡ of_attempt self.entry.attempt }
        ensures won { result.verdict ≡ won
            → may_publish K.plan self.entry.attempt end.now ≡ true }
        ensures noted { result.verdict ≡ noted
            → may_publish K.plan self.entry.attempt end.now ≡ false }
        ensures seen { IfSome self.entry.seen (λ decision.
            seen_in result.ticket.slip ≡ Some decision) }
        ensures late { IfSome self.entry.seen (λ decision. result.verdict ≡ late) }
    {
        let Looking {
            rt,
            race,
            live,
            seen: _,
        } = self;
        race.offer(rt, live, end)
    }
}

impl<'a, K: Contest, R: Wait> Stop for Looking<'a, K, R> {
    ghost told = { λ l. l.seen };

    ghost attempt = { λ l. l.attempt };

    fn seen(&mut self) -> Option<Decision> {
        if let Some(decision) = self.race.look(self.rt, &mut self.live) {
            self.seen = Some(decision);
            return Some(decision);
        }
        None
    }
}
