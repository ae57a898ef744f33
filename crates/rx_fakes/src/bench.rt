//! A bench of the Toy world.

ghost use Rattle.std.specs.Prelude.{◌≡◌, ◌≤◌, Some};
ghost use Rattle.rx_world.specs.Benches.{FailsAt};
ghost use Rattle.rx_world.specs.Causes.{HasCause, Rose};

use crate::Script;
use crate::files::{add_directory, add_file, take_file};
use rx_base::{Items, RelPath, TryClone};
use rx_world::{
    Bench, BenchRun, BenchStep, Command, Contents, Exit, Failed, FileOut, Refused, Toy, Tree,
    toy_run,
};
use std::alloc::Global;
use std::mem::replace;

/// A tree in memory in which the Toy world's tool runs. After a run its files are those that the
/// tool made, and no others. In calls that answer `Failed` alone, want of memory is a counted fault.
#[derive(Drop)]
pub struct ToyBench {
    pub alloc: Global,
    pub tree: Tree,
    pub runs: Items<BenchRun>,
    pub script: Script,
    /// The step of the last call that failed.
    pub failed: Option<BenchStep>,
}

impl ToyBench {
    /// Counts a call of this step, and whether it is to fail.
    fn call(&mut self, step: BenchStep) -> Result<(), Failed>
        ensures tree { self.new.tree ≡ self.old.tree }
        ensures runs { self.new.runs ≡ self.old.runs }
        ensures step { FailsAt step self.old.failed self.new.failed result }
        ensures cause { HasCause self.old.script.faults self.new.script.faults result }
    {
        let called = self.script.call();
        if called.is_err() {
            self.failed = Some(step);
        }
        called
    }

    /// Counts a fault of this step.
    fn fault(&mut self, step: BenchStep) -> Failed
        ensures tree { self.new.tree ≡ self.old.tree }
        ensures runs { self.new.runs ≡ self.old.runs }
        ensures step { self.new.failed ≡ Some step }
        ensures later { self.old.script.faults ≤ self.new.script.faults }
        ensures rose { Rose self.old.script.faults self.new.script.faults }
    {
        self.failed = Some(step);
        self.script.fault()
    }
}

impl<K: Contents> Bench<Toy<K>> for ToyBench {
    ghost tree = { λ b. Some b.tree };

    ghost runs = { λ b. Some b.runs };

    ghost faults = { λ b. b.script.faults };

    ghost failed_at = { λ b. b.failed };

    fn make_dir(&mut self, path: &RelPath) -> Result<(), Failed> {
        self.call(BenchStep::MakeDir)?;
        match add_directory(self.alloc, &mut self.tree, path) {
            Ok(()) => Ok(()),
            Err(_) => Err(self.fault(BenchStep::MakeDir)),
        }
    }

    fn put(
        &mut self,
        path: &RelPath,
        bytes: &[u8],
        executable: bool,
        mark: u128,
    ) -> Result<(), Failed> {
        let _ = mark;
        self.call(BenchStep::Put)?;
        match add_file(self.alloc, &mut self.tree, path, bytes, executable) {
            Ok(()) => Ok(()),
            Err(_) => Err(self.fault(BenchStep::Put)),
        }
    }

    fn run(&mut self, command: &Command) -> Result<Exit, Refused> {
        self.call(BenchStep::Run)?;
        let made = toy_run(self.alloc, command, &self.tree)?;
        let command = command.try_clone(self.alloc)?;
        let exit = made.exit.try_clone(self.alloc)?;
        let after = Tree {
            files: made.files,
            directories: self.tree.directories.try_clone(self.alloc)?,
        };
        let tree = replace(&mut self.tree, after);
        self.runs.push(BenchRun {
            command,
            tree,
            exit,
        })?;
        Ok(made.exit)
    }

    fn take(&mut self, path: &RelPath) -> Result<Option<FileOut>, Refused> {
        self.call(BenchStep::Take)?;
        Ok(take_file(self.alloc, self.tree.files.as_slice(), path)?)
    }
}
