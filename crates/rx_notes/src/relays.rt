//! The rule of the queue: one pass sends, and one takes.

ghost use Rattle.std.specs.Prelude.{◌≡◌};

use crossbeam_queue::protocol::{Join, Lesson, Outcome, Protocol, Split};
use rx_report::Note;
use std::collections::LinkedList;

/// What a pass may do, and what it did. No value of it is made.
pub struct Part {
    /// Whether it may send.
    pub sends: bool,
    /// Whether it may take.
    pub takes: bool,
    /// What was sent by it.
    pub sent: LinkedList<Note>,
    /// What was taken by it.
    pub got: LinkedList<Note>,
}

/// What was sent is what was taken, and then what the queue holds.
pub struct Relays;

impl Protocol<Option<Note>, Part> for Relays {
    ghost use Rattle.std.specs.Prelude.{[], true};
    ghost use Rattle.rx_notes.specs.Relay.{Relayed, part};

    ghost holds = { Relayed };

    ghost first = { part true true [] [] };
}

/// A message is sent.
pub(crate) struct Sent;

impl Outcome<Option<Note>, Part> for Sent {
    ghost use Rattle.std.specs.Prelude.{◌≡◌};
    ghost use Rattle.rx_notes.specs.Relay.{with_sent};

    ghost then = { λ v x w. w ≡ with_sent v x };
}

/// A message is taken. Where there is none, all that was sent was taken.
pub(crate) struct Took;

impl Outcome<Option<Note>, Part> for Took {
    ghost use Rattle.std.specs.Prelude.{◌≡◌};
    ghost use Rattle.rx_notes.specs.Relay.{with_got};

    ghost then = { λ v x w. w ≡ with_got v x };
}

impl Lesson<Option<Note>, Part> for Took {
    ghost use Rattle.rx_notes.specs.Relay.{IsRest};

    ghost fact = { IsRest };
}

/// The right to take is cut off a pass, and goes back to it.
pub(crate) struct Taking;

impl Split<Part> for Taking {
    ghost use Rattle.rx_notes.specs.Relay.{taking, without_taking};

    ghost left = { without_taking };

    ghost right = { taking };
}

impl Join<Part> for Taking {
    ghost use Rattle.rx_notes.specs.Relay.{both, idle};

    ghost both = { both };

    ghost spent = { idle };
}
