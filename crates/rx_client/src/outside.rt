//! What a client needs of the outside, beside the streams that it writes to.

ghost use Rattle.std.specs.Prelude.{◌≡◌, ◌≤◌, ◌<◌, ◌++◌, ◌∷◌, [], ℕ, List, Option, IfOk, IfSome, OnErr};
ghost use Rattle.rx_client.specs.Runs.{Run, Runs, RunsNone, RunsOnce};
ghost use Rattle.rx_client.specs.StillTold.{StillTold};
ghost use Rattle.rx_wrap.specs.declared.addresses.Address.{Address};
ghost use Rattle.rx_world.specs.Causes.{HasCause, HasCauseOf, Rose};
ghost use Rattle.rx_world.specs.declared.failures.Refused.TheVariants.{Failed as failed};

use crate::ran::Ran;
use rx_base::{NoMemory, Text};
use rx_world::{Failed, Refused, Sink, Source};
use rx_wrap::Address;

/// Configuration files.
pub trait Configs {
    /// The bytes of the file at a path, where told.
    ghost held: { Self → List ℕ → Option (List ℕ) };

    /// How often a call failed.
    ghost faults: { Self → ℕ };

    /// The bytes of the file at a path.
    fn read(&mut self, path: &str) -> Result<Vec<u8>, Refused>
        ensures held { IfOk result (λ bytes.
            IfSome (held self.old path.now) (λ told. bytes.items ≡ told)) }
        ensures cause { HasCauseOf failed (faults self.old) (faults self.new) result };
}

/// Connections to a proxy.
pub trait Connect {
    type In: Source;

    type Out: Sink;

    /// The connections that are still to come, where told.
    ghost coming: { Self → Option (List (Self.In × Self.Out)) };

    /// Those that came back, in order, where told.
    ghost back: { Self → Option (List (Self.In × Self.Out)) };

    /// The addresses that were called, in order, where told.
    ghost called: { Self → Option (List Address) };

    /// How often a call failed, or a connection that came back had failed.
    ghost faults: { Self → ℕ };

    /// The two directions of a new connection: what comes in, and what goes out.
    fn connect(&mut self, address: &Address) -> Result<(Self::In, Self::Out), Failed>
        ensures fresh { IfOk result (λ ends.
            (Self.In.faults ends.0 ≡ 0) × (Self.Out.faults ends.1 ≡ 0)) }
        ensures first { IfOk result (λ ends.
            StillTold (coming self.old) (coming self.new) (λ x y. x ≡ ends ∷ y)) }
        ensures kept { OnErr result
            (StillTold (coming self.old) (coming self.new) (λ x y. x ≡ y)) }
        ensures back { StillTold (back self.old) (back self.new) (λ x y. y ≡ x) }
        ensures called { StillTold (called self.old) (called self.new)
            (λ x y. y ≡ x ++ address.now ∷ []) }
        ensures cause { HasCause (faults self.old) (faults self.new) result };

    /// Takes a connection back, and closes it. Where one of its directions failed, that is counted.
    fn done(&mut self, input: Self::In, output: Self::Out)
        ensures coming { StillTold (coming self.old) (coming self.new) (λ x y. x ≡ y) }
        ensures back { StillTold (back self.old) (back self.new)
            (λ x y. y ≡ x ++ (input, output) ∷ []) }
        ensures called { StillTold (called self.old) (called self.new) (λ x y. y ≡ x) }
        ensures later { faults self.old ≤ faults self.new }
        ensures input { 0 < Self.In.faults input → Rose (faults self.old) (faults self.new) }
        ensures output { 0 < Self.Out.faults output → Rose (faults self.old) (faults self.new) };
}

/// The machine on which a client is called.
pub trait Machine {
    /// What a path is once the system has resolved its links, where told; nothing where it can't be.
    ghost resolved: { Self → List ℕ → Option (Option (List ℕ)) };

    /// The commands that were run, in order, where told.
    ghost runs: { Self → Runs };

    /// The path with its links resolved; none where the system can't.
    fn resolve(&self, path: &str) -> Result<Option<Text>, NoMemory>
        ensures told { IfOk result (λ found.
            IfSome (resolved self.now path.now) (λ told. found ≡ told)) };

    /// Runs a command in a directory, with the environment and the standard streams of this program,
    /// and answers how it ended.
    fn run(&mut self, words: &[Text], directory: &str) -> Result<Ran, NoMemory>
        ensures ran { IfOk result (λ ended. RunsOnce
            (record { words = words.now; directory = directory.now; ended = ended })
            (runs self.old) (runs self.new)) }
        ensures none { OnErr result (RunsNone (runs self.old) (runs self.new)) };
}
