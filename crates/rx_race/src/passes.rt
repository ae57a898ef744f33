//! The passes of a shared race. Each is the one right to a call, which consumes it, and what the
//! call hands back says what became of it.

ghost use Rattle.std.specs.Prelude.{◌≡◌, Some, true};
ghost use Rattle.rx_race.specs.declared.slips.Seat.TheVariants.{Canceller as canceller, Of as of_attempt};
ghost use Rattle.rx_race.specs.declared.slips.Slip.TheVariants.{Unused as unused};
ghost use Rattle.rx_race.specs.Slips.{is_live, is_unstarted, told_in};
ghost use Rattle.rx_race.specs.Standings.{in_plan};

use crate::Verdict;
use crate::contests::Contest;
use crate::tickets::Ticket;
use rx_world::Attempt;

/// The right to start an attempt.
#[derive(Drop)]
pub struct StartPass<K: Contest> {
    pub attempt: Attempt,
    pub ticket: Ticket<K>,
    pub ghost seat: { ticket.seat ≡ of_attempt attempt },
    pub ghost slip: { ticket.slip ≡ unused },
}

/// The right to offer the end of an attempt, which runs.
#[derive(Drop)]
pub struct Live<K: Contest> {
    pub attempt: Attempt,
    pub ticket: Ticket<K>,
    pub ghost seat: { ticket.seat ≡ of_attempt attempt },
    pub ghost slip: { is_live ticket.slip ≡ true },
    pub ghost planned: { in_plan K.plan attempt ≡ true },
}

/// A start that was refused. Where its slip is Refused, the race was seen decided for an attempt,
/// or cancelled.
#[derive(Drop)]
pub struct NoStart<K: Contest> {
    pub attempt: Attempt,
    pub ticket: Ticket<K>,
    pub ghost seat: { ticket.seat ≡ of_attempt attempt },
    pub ghost slip: { is_unstarted ticket.slip ≡ true },
}

/// The right to cancel.
#[derive(Drop)]
pub struct CancelPass<K: Contest> {
    pub ticket: Ticket<K>,
    pub ghost seat: { ticket.seat ≡ canceller },
    pub ghost slip: { ticket.slip ≡ unused },
}

/// What an offer or a cancel was told.
#[derive(Drop)]
pub struct Mark<K: Contest> {
    pub verdict: Verdict,
    pub ticket: Ticket<K>,
    pub ghost slip: { told_in ticket.slip ≡ Some verdict },
}
