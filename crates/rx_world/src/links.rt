//! Connections to a farm: bytes that go out and come in.

ghost use Rattle.std.specs.Prelude.{◌≡◌, ◌||◌, ℕ, Bool, [], List, Option, IfOk, length};
ghost use Rattle.std.specs.Io.{ReadsAtMost, WritesAtMost};
ghost use Rattle.rx_world.specs.declared.versions.Dialect.{Dialect};
ghost use Rattle.rx_world.specs.Causes.{HasCause};
ghost use Rattle.rx_world.specs.Links.{Goes, IsNew, Meets, SameRule, Wire, is_end, received_by, sent_by};

use crate::Failed;

/// One connection.
pub trait Link {
    /// The bytes that were sent and those that were received, where told.
    ghost wire: { Self → Option Wire };

    /// The other side has ended it.
    ghost ended: { Self → Bool };

    /// What the bytes sent and received meet at each moment. No call changes it.
    ghost rule: { Self → List ℕ → List ℕ → Type 0 };

    /// How often a call failed.
    ghost faults: { Self → ℕ };

    /// Sends a front of the piece, and answers how many bytes: none only of an empty piece.
    fn send(&mut self, piece: &[u8]) -> Result<usize, Failed>
        ensures bound { WritesAtMost result piece.now }
        ensures some { IfOk result (λ count. count ≡ 0 → piece.now ≡ []) }
        ensures wire { Goes (wire self.old) (wire self.new) (sent_by result piece.now) }
        ensures ended { ended self.new ≡ ended self.old }
        ensures rule { SameRule (rule self.old) (rule self.new) }
        ensures meets { Meets (wire self.new) (rule self.new) }
        ensures cause { HasCause (faults self.old) (faults self.new) result };

    /// Receives into the front of a buffer, and answers how many bytes. A zero for a buffer that
    /// isn't empty is the end.
    fn receive(&mut self, into: &mut [u8]) -> Result<usize, Failed>
        ensures bound { ReadsAtMost result into.new }
        ensures wire { Goes (wire self.old) (wire self.new) (received_by result into.new) }
        ensures ended { ended self.new ≡ (ended self.old || is_end result (length into.new)) }
        ensures rule { SameRule (rule self.old) (rule self.new) }
        ensures meets { Meets (wire self.new) (rule self.new) }
        ensures cause { HasCause (faults self.old) (faults self.new) result };
}

/// Makes connections to one farm.
pub trait Dial {
    type L: Link + Drop;

    /// What the bytes of each of its links meet. No call changes it.
    ghost rule: { Self → List ℕ → List ℕ → Type 0 };

    /// Where its farm looks for the outputs of a Command.
    ghost dialect: { Dialect };

    /// How often a call failed.
    ghost faults: { Self → ℕ };

    /// A new link.
    fn dial(&mut self) -> Result<Self::L, Failed>
        ensures fresh { IfOk result (λ link.
            IsNew (Self.L.wire link) (Self.L.ended link) (Self.L.faults link)) }
        ensures ruled { IfOk result (λ link. SameRule (rule self.new) (Self.L.rule link)) }
        ensures meets { IfOk result (λ link. Meets (Self.L.wire link) (Self.L.rule link)) }
        ensures rule { SameRule (rule self.old) (rule self.new) }
        ensures cause { HasCause (faults self.old) (faults self.new) result };
}
