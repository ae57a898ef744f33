//! A command that runs in place.

ghost use Rattle.std.specs.Prelude.{◌≡◌, IfOk, OnErr, OnOk};
ghost use Rattle.rx_client.specs.Running.{MayTell, RunsHere, TellsWhy, run_of};
ghost use Rattle.rx_client.specs.Runs.{RunsNone, RunsOnce};
ghost use Rattle.rx_client.specs.Said.{IsSilent, said};

use crate::answers::Answer;
use crate::outside::Machine;
use crate::standard::Standard;
use crate::tells::tell_line;
use crate::whys::{Why, why_line};
use rx_base::NoMemory;
use rx_world::Sink;
use rx_wrap::Job;
use std::alloc::Global;

/// Writes the line that tells why, where that is asked for.
fn tell_why<E: Sink>(alloc: Global, verbose: bool, why: &Why, err: &mut E) -> Result<(), NoMemory>
    ensures told { OnOk result (TellsWhy verbose why.now (said E.Sink err.old err.new)) }
    ensures lost { OnErr result (MayTell verbose (said E.Sink err.old err.new)) }
{
    if !verbose {
        return Ok(());
    }
    let line = why_line(alloc, why)?;
    tell_line(line.as_bytes(), err);
    Ok(())
}

/// Runs the command of a job in place, as it was given and where the client was called. Why is
/// written first, where that is asked for.
pub(crate) fn run_here<M: Machine, O: Sink, E: Sink>(
    alloc: Global,
    job: &Job,
    why: &Why,
    machine: &mut M,
    standard: &mut Standard<O, E>,
) -> Answer
    ensures { RunsHere job.now why.now (M.runs machine.old) (M.runs machine.new)
        (said O.Sink standard.old.out standard.new.out)
        (said E.Sink standard.old.err standard.new.err) result }
{
    if tell_why(alloc, job.verbose, why, &mut standard.err).is_err() {
        return Answer::Memory;
    }
    match machine.run(job.command.as_slice(), job.directory.as_str()) {
        Ok(ended) => Answer::RanHere(ended),
        Err(_) => Answer::Memory,
    }
}
