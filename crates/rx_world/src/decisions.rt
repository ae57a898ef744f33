//! What the race of a request's attempts comes to, and how a running attempt learns of it.

ghost use Rattle.std.specs.Prelude.{◌≡◌, Option, None, Some, IfNone, IfSome};
ghost use Rattle.rx_world.specs.declared.attempts.Attempt.{Attempt};
ghost use Rattle.rx_world.specs.declared.decisions.Decision.{Decision};
ghost use Rattle.rx_world.specs.Decisions.{StopsBy};

use crate::Attempt;

/// What a race has come to.
#[derive(Clone, Copy, Debug, PartialEq, Eq)]
pub enum Decision {
    /// Nothing yet.
    Undecided,
    /// The end of this attempt is published.
    By(Attempt),
    /// The client gave its request up.
    Cancelled,
    /// Each attempt ended, and no end may be published.
    Nothing,
}

/// What a running attempt asks between its steps: whether its race was decided.
pub trait Stop {
    /// The decision that was told last.
    ghost told: { Self → Option Decision };

    /// The attempt that asks.
    ghost attempt: { Self → Attempt };

    /// The race's decision, where it was made: then the attempt is to stop.
    fn seen(&mut self) -> Option<Decision>
        ensures some { IfSome result (StopsBy (told self.new)) }
        ensures none { IfNone result (told self.new ≡ told self.old) }
        ensures attempt { attempt self.new ≡ attempt self.old };
}

/// An attempt that runs alone, and is never stopped.
#[derive(Clone, Copy, Debug, PartialEq, Eq)]
pub struct Unstopped {
    pub attempt: Attempt,
}

impl Stop for Unstopped {
    ghost told = { λ s. None };

    ghost attempt = { λ s. s.attempt };

    fn seen(&mut self) -> Option<Decision>
        ensures never { result ≡ None }
        ensures same { self.new ≡ self.old }
    {
        None
    }
}
