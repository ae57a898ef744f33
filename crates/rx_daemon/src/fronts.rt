//! Where the desks of a run come from, and who hears what their sessions did.

ghost use Rattle.std.specs.Prelude.{◌≡◌, ◌+◌, ◌≤◌, ℕ, Bool, true, List, Option, None, IfOk, IfSome, OnErr, length};
ghost use Rattle.std.specs.Option.{option_to_list};
ghost use Rattle.rx_world.specs.Causes.{HasCause};
ghost use Rattle.rx_daemon.specs.Fronts.{GivesNext};

use rx_engine::{Desk, Transcript};
use rx_world::{Failed, World};

/// Gives desks, one for each session.
pub trait Front<W: World> {
    type D: Desk<W> + Send + Drop;

    /// The desks that are still to come, where told.
    ghost coming: { Self → Option (List Self.D) };

    /// How many desks it gave.
    ghost given: { Self → ℕ };

    /// What a front of this kind gives as its desk of this number.
    ghost gives: { ℕ → Self.D → Type 0 };

    /// Whether it said that it has no more.
    ghost over: { Self → Bool };

    /// How often a call failed.
    ghost faults: { Self → ℕ };

    /// The next desk. None says that there are no more.
    fn next(&mut self) -> Result<Option<Self::D>, Failed>
        ensures next { IfOk result (GivesNext (coming self.old) (coming self.new)) }
        ensures kept { OnErr result (coming self.new ≡ coming self.old) }
        // Where it failed it may count a client for whom it had no desk.
        ensures counted { IfOk result (λ next.
            given self.new ≡ given self.old + length (option_to_list next)) }
        ensures gives { IfOk result (λ next. IfSome next (gives (given self.new))) }
        ensures more { given self.old ≤ given self.new }
        ensures over { IfOk result (λ next. next ≡ None → over self.new ≡ true) }
        ensures cause { HasCause (faults self.old) (faults self.new) result };
}

/// Hears what each session did, right after it.
pub trait Log {
    fn hear(&self, transcript: &Transcript);
}
