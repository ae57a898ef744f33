//! One attempt on this machine: a fresh bench, its tree, the run, the outputs, and the bench back,
//! unless the race of the request's attempts is decided before.

ghost use Rattle.std.specs.Prelude.{◌≡◌, ◌≤◌, ◌⊎◌, All, None, Some, IfErr, IfOk, IfSome, map, pos};
ghost use Rattle.rx_world.specs.Benches.{IsFresh, Runs};
ghost use Rattle.rx_world.specs.Files.{cut_files};
ghost use Rattle.rx_world.specs.Inputs.{IsAsListed, listed_copy, world_copy};
ghost use Rattle.rx_world.specs.Outcomes.{IsClean, IsProper};
ghost use Rattle.rx_world.specs.Trees.{tree_of};
ghost use Rattle.rx_local.specs.Limits.{IsWithinLimits};
ghost use Rattle.rx_local.specs.Local.{HasAttempted, HasEnded, HasFailedAt, HasTold, IfMissing, IsBeforeRun, IsChanged, IsCounted, IsTakeCause, LacksOutput, first_missing, local_job};
ghost use Rattle.rx_local.specs.Stage.{HasRunToZero, IsStepCause};

use crate::limits::{Passed, passed_limit};
use crate::stage::prepare;
use crate::take::{cause_of, take_outputs};
use rx_base::{Items, RelPath};
use rx_inputs::HashedContents;
use rx_world::{
    Bench, BenchMaker, BenchStep, Cause, Command, InputFile, Outcome, Sources, Stop, World,
};
use std::alloc::Global;

/// What a local attempt runs: a command, on these files and directories.
#[derive(Clone, Copy)]
pub struct LocalJob<'a> {
    pub command: &'a Command,
    pub files: &'a [InputFile],
    pub directories: &'a [RelPath],
    /// Contents that needn't be hashed again.
    pub hashed: &'a HashedContents,
}

/// Runs a command once on a fresh bench that holds these files and directories, and takes its
/// outputs.
///
/// The stop is asked first, and then the bench is made. Each file is read from the source tree and
/// put, in their order; its bytes are let go before the next is read. Then the directories are made,
/// then those in which the outputs are to stand. The stop is asked again, and the command runs. At
/// code 0 there is a file for each output of the command, in its order; at another code no file is
/// looked for. The bench is handed back on every way out.
///
/// `Stopped` has the decision that the stop told. `InputChanged` is the first file whose look, or
/// whose digest, isn't the gathered one, and `SourceFault` the first that can't be read.
/// `OutputMissing` names the first output that isn't there. `OutputTooLarge` has the first limit that
/// the outcome passes, of which no output is missing. A `BenchFault` has the first step that failed.
/// Nothing is done after any of these. Want of memory is `NoMemory` and no count rises for it.
pub fn run_local<W: World, M: BenchMaker<W>, S: Sources<W>, T: Stop>(
    alloc: Global,
    job: &LocalJob,
    benches: &mut M,
    sources: &mut S,
    stop: &mut T,
) -> Result<Outcome, Cause>
    // What was read, and the one run over it on the one bench that was made, or the cause and what had run.
    ensures attempted { HasAttempted W.World M.BenchMaker M.B.Bench S.Sources (local_job job.now)
        benches.old benches.new sources.old sources.new result }
    ensures proper { IfOk result (IsProper job.now.command.now) }
    ensures within { IfOk result IsWithinLimits }
    // Where stamps are honest too, it is the clean run over what the world has under the gathered stamps.
    ensures stamped { IfOk result (λ outcome. W.tools_honest → W.stamps_honest →
        IsClean W.tool job.now.command.now
        (tree_of (map (world_copy W.content) job.now.files.now) job.now.directories.now) outcome) }
    // Where the source tree keeps a list, it is the clean run over what the list has.
    ensures listed { IfOk result (λ outcome. W.tools_honest → S.keeps sources.old →
        IfSome (S.listed sources.old) (λ entries. IsClean W.tool job.now.command.now
        (tree_of (map (listed_copy entries) job.now.files.now) job.now.directories.now) outcome)) }
    // And then no file changes that is as listed.
    ensures unchanged { IfErr result (λ cause. S.keeps sources.old →
        IfSome (S.listed sources.old) (λ entries.
        All (IsAsListed entries) job.now.files.now → IsChanged cause → ⊥)) }
    // It is stopped exactly by the decision that the stop told.
    ensures told { HasTold (T.told stop.old) (T.told stop.new) result }
    ensures attempt { T.attempt stop.new ≡ T.attempt stop.old }
{
    if let Some(decision) = stop.seen() {
        return Err(Cause::Stopped { decision });
    }
    let Ok(mut bench) = benches.make() else {
        return Err(Cause::BenchFault {
            step: BenchStep::Make,
        });
    };
    let result = run_on::<W, M::B, S, T>(alloc, job, &mut bench, sources, stop);
    benches.done(bench);
    result
}

/// The attempt on a fresh bench.
fn run_on<W: World, B: Bench<W>, S: Sources<W>, T: Stop>(
    alloc: Global,
    job: &LocalJob,
    bench: &mut B,
    sources: &mut S,
    stop: &mut T,
) -> Result<Outcome, Cause>
    requires { IsFresh W.tools_honest (B.tree bench.old) (B.runs bench.old) (B.faults bench.old)
        (B.failed_at bench.old) }
    ensures ended { HasEnded W.World B.Bench S.Sources (Some bench.new) (local_job job.now)
        sources.old sources.new result }
    ensures failed { HasFailedAt B.Bench bench.new result }
    ensures proper { IfOk result (IsProper job.now.command.now) }
    ensures within { IfOk result IsWithinLimits }
    ensures later { B.faults bench.old ≤ B.faults bench.new }
    ensures cause { IfErr result (IsCounted (B.faults bench.old) (B.faults bench.new)
        (S.faults sources.old) (S.faults sources.new)) }
    ensures told { HasTold (T.told stop.old) (T.told stop.new) result }
    ensures attempt { T.attempt stop.new ≡ T.attempt stop.old }
{
    prepare::<W, B, S>(alloc, job, bench, sources)?;
    if let Some(decision) = stop.seen() {
        return Err(Cause::Stopped { decision });
    }
    let outcome = run_staged::<W, B>(alloc, job.command, bench)?;
    if let Some(Passed { limit, n }) = passed_limit(&outcome) {
        return Err(Cause::OutputTooLarge { limit, n });
    }
    Ok(outcome)
}

/// The run and the outputs, on a bench that is ready.
fn run_staged<W: World, B: Bench<W>>(
    alloc: Global,
    command: &Command,
    bench: &mut B,
) -> Result<Outcome, Cause>
    ensures failed { B.failed_at bench.old ≡ None → HasFailedAt B.Bench bench.new result }
    ensures proper { IfOk result (IsProper command.now) }
    ensures clean { IfOk result (λ outcome. W.tools_honest →
        IfSome (B.tree bench.old) (λ tree. IsClean W.tool command.now tree outcome)) }
    ensures ran { IfOk result (λ outcome.
        Runs (B.tree bench.old) (B.runs bench.old) (B.runs bench.new) command.now outcome.exit) }
    ensures taken { IfOk result (λ outcome. IfSome (B.tree bench.new) (λ tree.
        outcome.exit.code ≡ pos 0 → outcome.files ≡ cut_files command.now.outputs tree.files)) }
    ensures later { B.faults bench.old ≤ B.faults bench.new }
    ensures cause { IfErr result (λ cause.
        IsStepCause BenchStep.Run (B.faults bench.old) (B.faults bench.new) cause
        ⊎ IsStepCause BenchStep.Take (B.faults bench.old) (B.faults bench.new) cause) }
    ensures not_run { IfErr result (λ cause. IsBeforeRun cause →
        B.runs bench.new ≡ B.runs bench.old) }
    ensures ended { IfErr result (λ cause. IsTakeCause cause →
        HasRunToZero B.Bench command.now bench.old bench.new) }
    ensures once { IfErr result (λ cause. (B.runs bench.new ≡ B.runs bench.old)
        ⊎ HasRunToZero B.Bench command.now bench.old bench.new) }
    ensures missing { IfErr result (λ cause. IfMissing cause (λ path. W.tools_honest →
        IfSome (B.tree bench.old) (λ tree. LacksOutput W.tool command.now tree path))) }
    ensures lacks { IfErr result (λ cause. IfMissing cause (λ path.
        IfSome (B.tree bench.new) (λ tree.
        first_missing command.now.outputs tree.files ≡ Some path))) }
{
    let exit = match bench.run(command) {
        Ok(exit) => exit,
        Err(refused) => return Err(cause_of(refused, BenchStep::Run)),
    };
    if exit.code != 0 {
        return Ok(Outcome {
            exit,
            files: Items::new(alloc),
        });
    }
    let files = take_outputs::<W, B>(alloc, command.outputs.as_slice(), bench)?;
    Ok(Outcome {
        exit,
        files: Items::from_vec(files),
    })
}
