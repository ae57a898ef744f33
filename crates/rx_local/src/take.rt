//! The outputs of a run: taken one after the other, all or none.

ghost use Rattle.std.specs.Prelude.{◌≡◌, ◌≤◌, None, Some, map, IfErr, IfOk, IfSome};
ghost use Rattle.rx_world.specs.Benches.{Takes};
ghost use Rattle.rx_world.specs.Files.{cut_files};
ghost use Rattle.rx_local.specs.Local.{HasFailedAt, IfMissing, cause_at, first_missing};
ghost use Rattle.rx_local.specs.Stage.{IsStepCause};

use rx_base::{RelPath, TryClone};
use rx_world::{Bench, BenchStep, Cause, FileOut, Refused, World};
use std::alloc::Global;

/// The files at these paths, in their order.
pub fn take_outputs<W: World, B: Bench<W>>(
    alloc: Global,
    outputs: &[RelPath],
    bench: &mut B,
) -> Result<Vec<FileOut>, Cause>
    ensures paths { IfOk result (λ files. map (λ f. f.path) files.items ≡ outputs.now) }
    ensures taken { IfOk result (λ files. IfSome (B.tree bench.old) (λ tree.
        files.items ≡ cut_files outputs.now tree.files)) }
    ensures same { B.tree bench.new ≡ B.tree bench.old }
    ensures runs { B.runs bench.new ≡ B.runs bench.old }
    ensures later { B.faults bench.old ≤ B.faults bench.new }
    ensures failed { B.failed_at bench.old ≡ None → HasFailedAt B.Bench bench.new result }
    ensures cause { IfErr result
        (IsStepCause BenchStep.Take (B.faults bench.old) (B.faults bench.new)) }
    ensures missing { IfErr result (λ cause. IfMissing cause (λ path.
        IfSome (B.tree bench.old) (λ tree. first_missing outputs.now tree.files ≡ Some path))) }
{
    let Ok(mut files) = Vec::with_capacity(alloc, outputs.len()) else {
        return Err(Cause::NoMemory);
    };
    for path in outputs {
        let file = take_output::<W, B>(alloc, path, bench)?;
        let Ok(()) = files.push(file) else {
            return Err(Cause::NoMemory);
        };
    }
    Ok(files)
}

fn take_output<W: World, B: Bench<W>>(
    alloc: Global,
    path: &RelPath,
    bench: &mut B,
) -> Result<FileOut, Cause>
    ensures path { IfOk result (λ file. file.path ≡ path.now) }
    ensures taken { IfOk result (λ file. Takes (B.tree bench.old) path.now (Some file)) }
    ensures same { B.tree bench.new ≡ B.tree bench.old }
    ensures runs { B.runs bench.new ≡ B.runs bench.old }
    ensures later { B.faults bench.old ≤ B.faults bench.new }
    ensures failed { B.failed_at bench.old ≡ None → HasFailedAt B.Bench bench.new result }
    ensures cause { IfErr result
        (IsStepCause BenchStep.Take (B.faults bench.old) (B.faults bench.new)) }
    ensures missing { IfErr result (λ cause. IfMissing cause (λ missing.
        (missing ≡ path.now) × Takes (B.tree bench.old) path.now None)) }
{
    match bench.take(path) {
        Ok(Some(file)) => Ok(file),
        Ok(None) => match path.try_clone(alloc) {
            Ok(path) => Err(Cause::OutputMissing { path }),
            Err(_) => Err(Cause::NoMemory),
        },
        Err(refused) => Err(cause_of(refused, BenchStep::Take)),
    }
}

/// Why the attempt failed, where a bench refused this step.
pub fn cause_of(refused: Refused, step: BenchStep) -> Cause
    ensures { result ≡ cause_at step refused }
{
    match refused {
        Refused::Failed => Cause::BenchFault { step },
        Refused::NoMemory => Cause::NoMemory,
    }
}
