//! The command of a request, as every attempt runs it.

use rx_base::{Items, NoMemory, RelPath, Text, TryClone};
use std::alloc::Global;

/// A name with its value: an environment variable or a property of a platform
/// (`remote_execution.proto`, Command.EnvironmentVariable and Platform.Property).
#[derive(Debug, Drop)]
pub struct Pair {
    pub name: Text,
    pub value: Text,
}

impl TryClone for Pair {
    fn try_clone(&self, alloc: Global) -> Result<Pair, NoMemory> {
        Ok(Pair {
            name: self.name.try_clone(alloc)?,
            value: self.value.try_clone(alloc)?,
        })
    }
}

/// What a request is about.
#[derive(Clone, Copy, Debug, PartialEq, Eq)]
pub enum Kind {
    /// Any program, which reads its declared inputs.
    Tool,
    /// A compiler of C or C++, whose includes are scanned.
    Compile,
}

/// Where a request's command runs.
#[derive(Clone, Copy, Debug, PartialEq, Eq)]
pub enum Strategy {
    Local,
    Remote,
    RemoteLocalFallback,
    Racing,
}

/// A program with its words and all that it may see.
#[derive(Debug, Drop)]
pub struct Command {
    /// The program and its arguments.
    pub words: Items<Text>,
    /// The whole environment, in the order of the request.
    pub environment: Items<Pair>,
    /// Where it runs, below the root.
    pub working_directory: RelPath,
    /// The files that it is to write, relative to the root: sorted by their bytes, each once.
    pub outputs: Items<RelPath>,
    /// What the farm is to choose a machine by.
    pub platform: Items<Pair>,
    /// How long it may run remotely, in seconds; 0 says nothing.
    pub timeout_seconds: u32,
}

impl TryClone for Command {
    fn try_clone(&self, alloc: Global) -> Result<Command, NoMemory> {
        Ok(Command {
            words: self.words.try_clone(alloc)?,
            environment: self.environment.try_clone(alloc)?,
            working_directory: self.working_directory.try_clone(alloc)?,
            outputs: self.outputs.try_clone(alloc)?,
            platform: self.platform.try_clone(alloc)?,
            timeout_seconds: self.timeout_seconds,
        })
    }
}
