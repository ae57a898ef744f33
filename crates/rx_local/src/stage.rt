//! What stands on a bench before a run: the files, the directories, and those of the outputs.

ghost use Rattle.std.specs.Prelude.{◌≡◌, ◌≤◌, [], ◌∷◌, None, option_to_list, IfErr, OnOk};
ghost use Rattle.rx_base.specs.Paths.{parent_of};
ghost use Rattle.rx_base.specs.Told.{Told};
ghost use Rattle.rx_world.specs.declared.failures.Refused.TheVariants.{Failed as failed};
ghost use Rattle.rx_world.specs.Benches.{FailsAt, IsRefusedAt};
ghost use Rattle.rx_world.specs.Causes.{HasCause, HasCauseOf};
ghost use Rattle.rx_world.specs.Trees.{parents_of, tree_with_directories, tree_with_files, with_parents};
ghost use Rattle.rx_local.specs.Local.{HasFailedAt, IsCauseOf, IsCounted, IsPrepareCause, local_job};
ghost use Rattle.rx_local.specs.Stage.{HasFailedStaging, HasStaged, IsStepCause, IsStageCause, MakesAll, PutsAll, cause_of_read};

use crate::LocalJob;
use crate::take::cause_of;
use rx_base::RelPath;
use rx_inputs::{HashedContents, ReadFault, read_again};
use rx_world::{Bench, BenchStep, Cause, Failed, InputFile, Refused, Sources, World};
use std::alloc::Global;

/// Makes a bench ready for the command of a job.
pub fn prepare<W: World, B: Bench<W>, S: Sources<W>>(
    alloc: Global,
    job: &LocalJob,
    bench: &mut B,
    sources: &mut S,
) -> Result<(), Cause>
    ensures ok { OnOk result (HasStaged W.World S.Sources sources.old sources.new job.now.files.now
        (λ staged. Told (B.tree bench.old) (B.tree bench.new) (λ x y.
        y ≡ with_parents job.now.command.now.outputs
        (tree_with_directories job.now.directories.now (tree_with_files staged x))))) }
    ensures failed { B.failed_at bench.old ≡ None → HasFailedAt B.Bench bench.new result }
    ensures err { IfErr result (HasFailedStaging W.World S.Sources sources.old sources.new
        (IsCauseOf W.World (local_job job.now))) }
    ensures before { IfErr result IsPrepareCause }
    ensures runs { B.runs bench.new ≡ B.runs bench.old }
    ensures later { (B.faults bench.old ≤ B.faults bench.new)
        × (S.faults sources.old ≤ S.faults sources.new) }
    ensures cause { IfErr result (IsCounted (B.faults bench.old) (B.faults bench.new)
        (S.faults sources.old) (S.faults sources.new)) }
{
    stage_files::<W, B, S>(alloc, job.hashed, job.files, bench, sources)?;
    make_all::<W, B>(
        alloc,
        job.command.outputs.as_slice(),
        job.directories,
        bench,
    )
}

/// Reads the files in their order, and puts each before the next is read.
fn stage_files<W: World, B: Bench<W>, S: Sources<W>>(
    alloc: Global,
    hashed: &HashedContents,
    files: &[InputFile],
    bench: &mut B,
    sources: &mut S,
) -> Result<(), Cause>
    ensures ok { OnOk result (HasStaged W.World S.Sources sources.old sources.new files.now
        (PutsAll (B.tree bench.old) (B.tree bench.new))) }
    ensures failed { B.failed_at bench.old ≡ None → HasFailedAt B.Bench bench.new result }
    ensures err { IfErr result (HasFailedStaging W.World S.Sources sources.old sources.new
        (IsStageCause files.now)) }
    ensures runs { B.runs bench.new ≡ B.runs bench.old }
    ensures later { (B.faults bench.old ≤ B.faults bench.new)
        × (S.faults sources.old ≤ S.faults sources.new) }
    ensures cause { IfErr result (IsCounted (B.faults bench.old) (B.faults bench.new)
        (S.faults sources.old) (S.faults sources.new)) }
{
    for file in files {
        stage_file::<W, B, S>(alloc, hashed, file, bench, sources)?;
    }
    Ok(())
}

fn stage_file<W: World, B: Bench<W>, S: Sources<W>>(
    alloc: Global,
    hashed: &HashedContents,
    file: &InputFile,
    bench: &mut B,
    sources: &mut S,
) -> Result<(), Cause>
    ensures ok { OnOk result (HasStaged W.World S.Sources sources.old sources.new (file.now ∷ [])
        (PutsAll (B.tree bench.old) (B.tree bench.new))) }
    ensures failed { B.failed_at bench.old ≡ None → HasFailedAt B.Bench bench.new result }
    ensures err { IfErr result (HasFailedStaging W.World S.Sources sources.old sources.new
        (IsStageCause (file.now ∷ []))) }
    ensures runs { B.runs bench.new ≡ B.runs bench.old }
    ensures later { (B.faults bench.old ≤ B.faults bench.new)
        × (S.faults sources.old ≤ S.faults sources.new) }
    ensures cause { IfErr result (IsCounted (B.faults bench.old) (B.faults bench.new)
        (S.faults sources.old) (S.faults sources.new)) }
{
    let bytes = match read_again::<W, S>(alloc, Some(hashed), file, sources) {
        Ok(bytes) => bytes,
        Err(fault) => return Err(cause_of_read(fault)),
    };
    match bench.put(
        &file.path,
        bytes.as_slice(),
        file.executable,
        file.stamp.mark,
    ) {
        Ok(()) => Ok(()),
        Err(_) => Err(Cause::BenchFault {
            step: BenchStep::Put,
        }),
    }
}

/// Why the attempt failed, where a file isn't read as it was gathered.
fn cause_of_read(fault: ReadFault) -> Cause
    ensures { result ≡ cause_of_read fault }
{
    match fault {
        ReadFault::InputChanged(input) => Cause::InputChanged(input),
        ReadFault::SourceFault { path } => Cause::SourceFault { path },
        ReadFault::NoMemory => Cause::NoMemory,
    }
}

/// Makes the directories, and then those in which the outputs are to stand.
fn make_all<W: World, B: Bench<W>>(
    alloc: Global,
    outputs: &[RelPath],
    directories: &[RelPath],
    bench: &mut B,
) -> Result<(), Cause>
    ensures tree { OnOk result (Told (B.tree bench.old) (B.tree bench.new) (λ x y.
        y ≡ with_parents outputs.now (tree_with_directories directories.now x))) }
    ensures runs { B.runs bench.new ≡ B.runs bench.old }
    ensures later { B.faults bench.old ≤ B.faults bench.new }
    ensures failed { B.failed_at bench.old ≡ None → HasFailedAt B.Bench bench.new result }
    ensures cause { IfErr result
        (IsStepCause BenchStep.MakeDir (B.faults bench.old) (B.faults bench.new)) }
{
    let Ok(()) = make_directories::<W, B>(directories, bench) else {
        return Err(Cause::BenchFault {
            step: BenchStep::MakeDir,
        });
    };
    match make_parents::<W, B>(alloc, outputs, bench) {
        Ok(()) => Ok(()),
        Err(refused) => Err(cause_of(refused, BenchStep::MakeDir)),
    }
}

fn make_directories<W: World, B: Bench<W>>(
    directories: &[RelPath],
    bench: &mut B,
) -> Result<(), Failed>
    ensures made { OnOk result (MakesAll (B.tree bench.old) (B.tree bench.new) directories.now) }
    ensures runs { B.runs bench.new ≡ B.runs bench.old }
    ensures step { FailsAt BenchStep.MakeDir (B.failed_at bench.old)
        (B.failed_at bench.new) result }
    ensures cause { HasCause (B.faults bench.old) (B.faults bench.new) result }
{
    for path in directories {
        bench.make_dir(path)?;
    }
    Ok(())
}

/// Makes the directories in which the outputs are to stand.
fn make_parents<W: World, B: Bench<W>>(
    alloc: Global,
    outputs: &[RelPath],
    bench: &mut B,
) -> Result<(), Refused>
    ensures made { OnOk result
        (MakesAll (B.tree bench.old) (B.tree bench.new) (parents_of outputs.now)) }
    ensures runs { B.runs bench.new ≡ B.runs bench.old }
    ensures step { IsRefusedAt BenchStep.MakeDir (B.failed_at bench.old)
        (B.failed_at bench.new) result }
    ensures cause { HasCauseOf failed (B.faults bench.old) (B.faults bench.new) result }
{
    for path in outputs {
        make_parent::<W, B>(alloc, path, bench)?;
    }
    Ok(())
}

fn make_parent<W: World, B: Bench<W>>(
    alloc: Global,
    path: &RelPath,
    bench: &mut B,
) -> Result<(), Refused>
    ensures made { OnOk result (MakesAll (B.tree bench.old) (B.tree bench.new)
        (option_to_list (parent_of path.now))) }
    ensures runs { B.runs bench.new ≡ B.runs bench.old }
    ensures step { IsRefusedAt BenchStep.MakeDir (B.failed_at bench.old)
        (B.failed_at bench.new) result }
    ensures cause { HasCauseOf failed (B.faults bench.old) (B.faults bench.new) result }
{
    let Some(parent) = path.parent(alloc)? else {
        return Ok(());
    };
    bench.make_dir(&parent)?;
    Ok(())
}
