//! Benches: places in which a command runs once, over a tree of its own.

ghost use Rattle.std.specs.Prelude.{◌≡◌, ◌<◌, ◌≤◌, ℕ, List, Option, IfOk, OnOk, OnErr, IfSome};
ghost use Rattle.rx_world.specs.declared.attempts.BenchStep.{BenchStep};
ghost use Rattle.rx_world.specs.declared.benches.BenchRun.{BenchRun};
ghost use Rattle.rx_world.specs.declared.failures.Refused.TheVariants.{Failed as failed};
ghost use Rattle.rx_world.specs.declared.trees.Tree.{Tree};
ghost use Rattle.rx_world.specs.Benches.{FailsAt, IsFresh, IsRefusedAt, Makes, Puts, Returns, Runs, RunsTool, Takes};
ghost use Rattle.rx_world.specs.Causes.{HasCause, HasCauseOf, Rose};

use crate::{Command, Exit, Failed, FileOut, Refused, Tree, World};
use rx_base::RelPath;

/// One run of a bench: its command, the tree before it and how it ended.
#[derive(Debug, Drop)]
pub struct BenchRun {
    pub command: Command,
    pub tree: Tree,
    pub exit: Exit,
}

/// A tree in which a command runs. All paths are relative to its root.
pub trait Bench<W: World> {
    /// The tree that it holds, where told.
    ghost tree: { Self → Option Tree };

    /// Its runs that ended, in order, where told.
    ghost runs: { Self → Option (List BenchRun) };

    /// How often a call failed.
    ghost faults: { Self → ℕ };

    /// The step of the last call that failed, if one did. Want of memory is no such failure.
    ghost failed_at: { Self → Option BenchStep };

    /// Makes a directory, and those above it that are missing.
    fn make_dir(&mut self, path: &RelPath) -> Result<(), Failed>
        ensures made { OnOk result (Makes (tree self.old) (tree self.new) path.now) }
        ensures runs { runs self.new ≡ runs self.old }
        ensures step { FailsAt BenchStep.MakeDir (failed_at self.old) (failed_at self.new) result }
        ensures cause { HasCause (faults self.old) (faults self.new) result };

    /// Puts a file there, and makes the directories above it that are missing. `mark` is that of its
    /// stamp: where it is a time, the file gets it as its time of modification.
    fn put(
        &mut self,
        path: &RelPath,
        bytes: &[u8],
        executable: bool,
        mark: u128,
    ) -> Result<(), Failed>
        ensures put { OnOk result
            (Puts (tree self.old) (tree self.new) path.now bytes.now executable) }
        ensures runs { runs self.new ≡ runs self.old }
        ensures step { FailsAt BenchStep.Put (failed_at self.old) (failed_at self.new) result }
        ensures cause { HasCause (faults self.old) (faults self.new) result };

    /// Runs the command in the tree once, and answers how it ended.
    fn run(&mut self, command: &Command) -> Result<Exit, Refused>
        ensures failed { OnErr result (runs self.new ≡ runs self.old) }
        ensures runs { IfOk result
            (Runs (tree self.old) (runs self.old) (runs self.new) command.now) }
        ensures honest { IfOk result (λ exit. W.tools_honest →
            RunsTool W.tool command.now (tree self.old) (tree self.new) exit) }
        ensures step { IsRefusedAt BenchStep.Run (failed_at self.old) (failed_at self.new) result }
        ensures cause { HasCauseOf failed (faults self.old) (faults self.new) result };

    /// The file at a path, where a regular file is there.
    fn take(&mut self, path: &RelPath) -> Result<Option<FileOut>, Refused>
        ensures taken { IfOk result (λ file. Takes (tree self.old) path.now file) }
        ensures path { IfOk result (λ file. IfSome file (λ f. f.path ≡ path.now)) }
        ensures same { tree self.new ≡ tree self.old }
        ensures runs { runs self.new ≡ runs self.old }
        ensures step { IsRefusedAt BenchStep.Take (failed_at self.old) (failed_at self.new) result }
        ensures cause { HasCauseOf failed (faults self.old) (faults self.new) result };
}

/// Makes benches, and takes them back.
pub trait BenchMaker<W: World> {
    type B: Bench<W> + Send;

    /// How often a call failed, here and on the benches that came back.
    ghost faults: { Self → ℕ };

    /// The benches that came back, in order, where told.
    ghost returned: { Self → Option (List Self.B) };

    /// A new bench, whose tree is empty.
    fn make(&mut self) -> Result<Self::B, Failed>
        ensures fresh { IfOk result (λ bench.
            IsFresh W.tools_honest (Self.B.tree bench) (Self.B.runs bench) (Self.B.faults bench)
            (Self.B.failed_at bench)) }
        ensures returned { returned self.new ≡ returned self.old }
        ensures cause { HasCause (faults self.old) (faults self.new) result };

    /// Takes a bench back, whatever happened on it. Where it failed, the count of the maker rises.
    fn done(&mut self, bench: Self::B)
        ensures later { faults self.old ≤ faults self.new }
        ensures raised { 0 < Self.B.faults bench → Rose (faults self.old) (faults self.new) }
        ensures returned { Returns (returned self.old) (returned self.new) bench };
}
