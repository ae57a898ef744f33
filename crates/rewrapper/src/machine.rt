//! The machine that the client is called on.

ghost use Rattle.std.specs.Prelude.{None};

use rx_base::{NoMemory, Text};
use rx_client::{Machine, Ran};
use std::alloc::AllocError;
use std::fs::Files;
use std::io::{Eprint, ErrorKind};
use std::os::unix::process::ExitStatusExt;
use std::process::{Command, ExitStatus, Processes};
use std::{fs, io};

/// Resolves paths, and runs commands with the whole environment and the three standard streams of this
/// program, in its process group. Nothing is told of paths and of runs. Why a command can't be run is
/// told on standard error.
#[derive(Drop)]
pub(crate) struct HostMachine<R> {
    rt: R,
}

impl<R> HostMachine<R> {
    pub(crate) fn new(rt: R) -> HostMachine<R> {
        HostMachine { rt }
    }
}

/// How a command ended.
fn ran_of(status: ExitStatus) -> Ran {
    if let Some(exit) = status.code() {
        return Ran::Exited(exit);
    }
    let Some(signal) = status.signal() else {
        return Ran::NotStarted;
    };
    match u8::try_from(signal) {
        Ok(signal) => Ran::Killed(signal),
        Err(_) => Ran::NotStarted,
    }
}

/// Tells why a command can't be run.
fn unstarted(rt: &impl Eprint, program: &str, error: &io::Error) -> Ran {
    let _ = eprintln!(rt; "rewrapper: {program}: {error}");
    if error.kind() == ErrorKind::NotFound {
        Ran::NotFound
    } else {
        Ran::NotStarted
    }
}

impl<R: Files + AllocGlobal + Processes + Eprint> Machine for HostMachine<R> {
    ghost resolved = { λ m path. None };

    ghost runs = { λ m. None };

    fn resolve(&self, path: &str) -> Result<Option<Text>, NoMemory> {
        match fs::canonicalize(&self.rt, path) {
            Ok(path) => Ok(Some(Text::from_string(path.into_string()))),
            Err(error) if error.kind() == ErrorKind::OutOfMemory => Err(AllocError),
            Err(_) => Ok(None),
        }
    }

    fn run(&mut self, words: &[Text], directory: &str) -> Result<Ran, NoMemory> {
        let Some((program, arguments)) = words.split_first() else {
            return Ok(Ran::NotFound);
        };
        let mut command = Command::new(self.rt.alloc(), program.as_str())?;
        command.current_dir(directory)?;
        for argument in arguments {
            command.arg(argument.as_str())?;
        }
        match command.status(&self.rt) {
            Ok(status) => Ok(ran_of(status)),
            Err(error) => Ok(unstarted(&self.rt, program.as_str(), &error)),
        }
    }
}
