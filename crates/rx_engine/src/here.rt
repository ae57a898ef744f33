//! The local attempt of a session: made on what was gathered, until its end or what stops it.

ghost use Rattle.std.specs.Prelude.{◌≡◌, None};
ghost use Rattle.rx_engine.specs.Attempts.{HasRunHere, end_of, whole_end};

use crate::attempts::Job;
use crate::ends::hold;
use crate::held::Held;
use rx_local::{LocalJob, Places, run_local};
use rx_world::{BenchMaker, Cause, End, Origin, Outcome, Sources, Stop, World};

/// Makes the local attempt on what was gathered. An outcome that can't be kept for want of memory
/// isn't published, and the attempt's end is then want of memory.
pub(crate) fn run_here<W: World, H, N: Places, B: BenchMaker<W>, S: Sources<W>, T: Stop>(
    job: &Job<'_, H, N>,
    benches: &mut B,
    sources: &mut S,
    stop: &mut T,
) -> End<Held, Cause>
    requires { T.told stop.old ≡ None }
    ensures ran { HasRunHere W.World B.BenchMaker B.B.Bench S.Sources job.now.gathered.now
        (T.told stop.new) benches.old benches.new sources.old sources.new (whole_end result) }
    ensures attempt { T.attempt stop.new ≡ T.attempt stop.old }
{
    let gathered = job.gathered;
    let local = LocalJob {
        command: &gathered.command,
        files: gathered.files.as_slice(),
        directories: gathered.dirs.as_slice(),
        hashed: job.hashed,
    };
    let ended = run_local::<W, B, S, T>(job.alloc, &local, benches, sources, stop);
    hold(job.alloc, end_of(ended), Cause::NoMemory)
}

/// How a local attempt with this result ended.
fn end_of(ended: Result<Outcome, Cause>) -> End<Outcome, Cause>
    ensures { result ≡ end_of ended }
{
    match ended {
        Ok(outcome) => End::Done {
            outcome,
            origin: Origin::Local,
        },
        Err(cause) => End::Failed { cause },
    }
}
