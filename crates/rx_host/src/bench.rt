//! A bench of the host: a staged directory of its own, in which a child program runs.

ghost use Rattle.std.specs.Prelude.{◌≡◌, ◌≤◌, None, Some, IfOk, IfSome};
ghost use Rattle.rx_world.specs.declared.failures.Refused.TheVariants.{Failed as failed};
ghost use Rattle.rx_world.specs.Benches.{refused_at};
ghost use Rattle.rx_world.specs.Causes.{Rose};

use crate::below::Below;
use crate::hands::Hands;
use crate::looks::{is_executable, time_of_mark};
use crate::made::MadeDirs;
use crate::runs::Runner;
use crate::staged::Staged;
use crate::tells::tell;
use crate::world::HostWorld;
use rx_base::{Bytes, RelPath, TryClone};
use rx_streams::Faults;
use rx_world::{Bench, BenchStep, Command, Exit, Failed, FileOut, Refused};
use std::alloc::Global;
use std::fs::{File, Files};
use std::io::{Error, ErrorKind};
use std::process::Output;
use std::sync::Arc;
use std::{io, process};

/// A staged directory. A command runs in it as this user, and nothing holds it in there.
#[derive(Drop)]
pub struct HostBench<H> {
    tree: Below<HostRuntime>,
    /// The directories there that were made since the last run.
    made: MadeDirs,
    runner: Runner<H>,
    /// How many files were put.
    pub(crate) files: u64,
    pub(crate) faults: Faults,
    /// The step of the last call that failed.
    pub(crate) failed: Option<BenchStep>,
}

impl<H: Hands> HostBench<H> {
    /// The bench of an empty directory.
    pub(crate) fn new(root: String, runner: Runner<H>) -> HostBench<H>
        ensures faults { result.faults.count ≡ 0 }
        ensures failed { result.failed ≡ None }
    {
        HostBench {
            tree: Below::new(runner.rt, root),
            made: MadeDirs::new(runner.rt.alloc()),
            runner,
            files: 0,
            faults: Faults::new(),
            failed: None,
        }
    }

    /// The use of its directory.
    pub(crate) fn into_staged(self) -> Arc<Staged, Global> {
        let runner = self.runner;
        runner.staged
    }

    /// Counts a fault of this step.
    fn fault_at(&mut self, step: BenchStep, error: Error) -> Failed
        ensures step { self.new.failed ≡ Some step }
        ensures later { self.old.faults.count ≤ self.new.faults.count }
        ensures rose { Rose self.old.faults.count self.new.faults.count }
    {
        self.failed = Some(step);
        self.faults.failed(error)
    }

    /// Counts a fault of this step, unless the error is want of memory.
    fn refusal_at(&mut self, step: BenchStep, error: Error) -> Refused
        ensures step { self.new.failed ≡ refused_at step self.old.failed result }
        ensures later { self.old.faults.count ≤ self.new.faults.count }
        ensures counted { result ≡ failed → Rose self.old.faults.count self.new.faults.count }
    {
        let refused = self.faults.refused(error);
        if let Refused::Failed = refused {
            self.failed = Some(step);
        }
        refused
    }

    /// Runs a command to its end.
    fn run_at(&self, command: &Command) -> io::Result<Exit> {
        let output = self.output_of(command)?;
        let Some(code) = output.status.code() else {
            return Err(Error::other("a signal ended the command"));
        };
        Ok(Exit {
            code,
            stdout: Bytes::from_vec(output.stdout),
            stderr: Bytes::from_vec(output.stderr),
        })
    }

    /// Runs a command with its environment alone. A program without a slash is sought in the `PATH` of that
    /// environment, or in `/bin:/usr/bin` where it has none.
    fn output_of(&self, command: &Command) -> io::Result<Output> {
        let Some((program, arguments)) = command.words.as_slice().split_first() else {
            return Err(Error::from(ErrorKind::InvalidInput));
        };
        let directory = self.tree.text_of(command.working_directory.as_str())?;
        let mut child = process::Command::new(self.tree.runtime().alloc(), program.as_str())?;
        for argument in arguments {
            child.arg(argument.as_str())?;
        }
        child.env_clear();
        for variable in command.environment.as_slice() {
            child.env(variable.name.as_str(), variable.value.as_str())?;
        }
        child.current_dir(directory.as_str())?;
        self.runner.output_of(&mut child)
    }

    /// Tells why a run failed, unless it was halted.
    fn tell_run(&self, command: &Command, error: &Error) {
        if self.runner.is_halted() {
            return;
        }
        if let Some(program) = command.words.as_slice().first() {
            tell(&self.runner.rt, "run", program.as_str(), error);
        }
    }
}

/// Leaves the directory into which files were put, and forgets what was made: a command may move directories, and put links in
/// their places.
fn forget_made<R: Files + AllocGlobal>(tree: &Below<R>, made: &mut MadeDirs) -> io::Result<()> {
    tree.leave(made)?;
    *made = MadeDirs::new(tree.runtime().alloc());
    Ok(())
}

/// Makes a directory below a tree, with those above it that are missing.
fn make_in<R: Files + AllocGlobal>(
    tree: &Below<R>,
    made: &mut MadeDirs,
    path: &RelPath,
) -> io::Result<()> {
    tree.leave(made)?;
    tree.make_dirs(made, path.as_str())?;
    Ok(())
}

/// Puts a file below a tree, with the directories above it that are missing, and with the time of
/// modification that a mark tells.
fn put_into<R: Files + AllocGlobal>(
    tree: &Below<R>,
    made: &mut MadeDirs,
    path: &RelPath,
    bytes: &[u8],
    executable: bool,
    mark: u128,
) -> io::Result<()> {
    let text = tree.text_of(path.as_str())?;
    tree.enter_parent(made, path, text.as_str())?;
    let modified = time_of_mark(mark);
    tree.write_new(made.modes(), text.as_str(), bytes, executable, modified)
}

/// The regular file at a path. A link isn't followed.
fn take_from<R: Files<File = File> + AllocGlobal>(
    tree: &mut Below<R>,
    made: &mut MadeDirs,
    path: &RelPath,
) -> io::Result<Option<FileOut>>
    ensures { IfOk result (λ file. IfSome file (λ f. f.path ≡ path.now)) }
{
    tree.leave(made)?;
    let read = tree.read(path)?;
    match read.metadata {
        Some(metadata) if metadata.is_file() => Ok(Some(FileOut {
            path: path.try_clone(tree.runtime().alloc())?,
            bytes: Bytes::from_vec(read.bytes),
            executable: is_executable(&metadata),
        })),
        _ => Ok(None),
    }
}

impl<H: Hands> Bench<HostWorld> for HostBench<H> {
    ghost tree = { λ s. None };

    ghost runs = { λ s. None };

    ghost faults = { λ s. s.faults.count };

    ghost failed_at = { λ s. s.failed };

    fn make_dir(&mut self, path: &RelPath) -> Result<(), Failed> {
        match make_in(&self.tree, &mut self.made, path) {
            Ok(()) => Ok(()),
            Err(error) => {
                tell(self.tree.runtime(), "make directory", path.as_str(), &error);
                Err(self.fault_at(BenchStep::MakeDir, error))
            }
        }
    }

    fn put(
        &mut self,
        path: &RelPath,
        bytes: &[u8],
        executable: bool,
        mark: u128,
    ) -> Result<(), Failed> {
        self.files = self.files.saturating_add(1);
        match put_into(&self.tree, &mut self.made, path, bytes, executable, mark) {
            Ok(()) => Ok(()),
            Err(error) => {
                tell(self.tree.runtime(), "put", path.as_str(), &error);
                Err(self.fault_at(BenchStep::Put, error))
            }
        }
    }

    fn run(&mut self, command: &Command) -> Result<Exit, Refused> {
        let ran = match forget_made(&self.tree, &mut self.made) {
            Ok(()) => self.run_at(command),
            Err(error) => Err(error),
        };
        match ran {
            Ok(exit) => Ok(exit),
            Err(error) => {
                self.tell_run(command, &error);
                Err(self.refusal_at(BenchStep::Run, error))
            }
        }
    }

    fn take(&mut self, path: &RelPath) -> Result<Option<FileOut>, Refused> {
        match take_from(&mut self.tree, &mut self.made, path) {
            Ok(file) => Ok(file),
            Err(error) => {
                tell(self.tree.runtime(), "take", path.as_str(), &error);
                Err(self.refusal_at(BenchStep::Take, error))
            }
        }
    }
}
