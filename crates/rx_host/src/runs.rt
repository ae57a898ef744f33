//! Child programs, each with a thread that waits for its end.

use crate::children::Children;
use crate::halting::{Halting, Run, halted};
use crate::hands::Hands;
use crate::staged::{Staged, give_up};
use std::alloc::Global;
use std::process::{Child, Command, Output, Stdio};
use std::sync::Arc;
use std::{io, thread};

/// What a run needs beside its command.
#[derive(Drop)]
pub(crate) struct Runner<H> {
    pub(crate) rt: HostRuntime,
    pub(crate) hands: H,
    pub(crate) staged: Arc<Staged, Global>,
    pub(crate) halting: Halting,
    pub(crate) children: Children,
}

impl<H: Hands> Runner<H> {
    /// Whether the runs of the session were halted.
    pub(crate) fn is_halted(&self) -> bool {
        self.halting.are_runs_halted()
    }

    /// Runs a program without input, and collects what it writes, from both streams by turns. Where the runs of the
    /// session are halted the program runs on by itself, and its directory is kept until it has ended: ended by force, a
    /// compiler would leave temporary files, and children of its own.
    pub(crate) fn output_of(&self, command: &mut Command) -> io::Result<Output> {
        let rt = self.rt;
        let run = self.halting.begin_run(&self.hands, rt.alloc())?;
        let theirs = Arc::try_clone(&run)?;
        let staged = Arc::try_clone(&self.staged)?;
        let children = self.children.share()?;
        let child = command
            .stdin(Stdio::null())
            .stdout(Stdio::piped())
            .stderr(Stdio::piped())
            .spawn(&rt)?;
        children.begin();
        let waiting = move || see_out(rt, child, staged, theirs, children);
        if let Err(refused) = thread::spawn(&self.hands, waiting) {
            (refused.value)();
        }
        match run.wait(&self.hands) {
            Some(output) => output,
            None => Err(halted()),
        }
    }
}

/// Waits for a program to its end, and tells what it wrote. By then it doesn't use its directory.
fn see_out(
    rt: HostRuntime,
    child: Child,
    staged: Arc<Staged, Global>,
    run: Arc<Run, Global>,
    children: Children,
) {
    let output = child.wait_with_output(rt.alloc());
    let _ = give_up(&rt, staged);
    run.end(output);
    children.end();
}
