//! The laws of `rx_core` at concrete remote attempts, and runs that lead from a request to its answer.
//! All of it is proved, and none of it does anything when it runs.

ghost use Rattle.std.specs.Prelude.{◌<◌, ℕ, [], List, length};
ghost use Rattle.ground_rows.specs.AtOnce.{RemoteEnd, at_once, at_once-lawful, fallen_back, raced, success};
ghost use Rattle.rx_core.specs.Remote.{Job};
ghost use Rattle.rx_core.specs.Runs.{IsRun, opening};
ghost use Rattle.rx_world.specs.declared.outcomes.FileOut.{FileOut};
ghost use Rattle.rx_world.specs.declared.outcomes.Outcome.{Outcome};
ghost use Rattle.rx_world.specs.Outcomes.{IsProper};

use rx_core::{FarmHistory, RemoteHistory, every_run, every_step};
use rx_rows::{Answer, RowFault};
use rx_world::{Toy, World};
use std::marker::Brand;

/// A remote attempt that is told its end at once.
struct AtOnce;

impl<W: World> RemoteHistory<W> for AtOnce {
    ghost heard = { RemoteEnd };

    ghost rules = { at_once W.tool };

    ghost lawful = { at_once-lawful W.tool };
}

/// The steps of a request that falls back may come as they do, whatever its command makes.
fn falls_back<W: World>()
    ensures { (job : Job) (outcome : Outcome) → IsProper job.command outcome
        → IsRun (at_once W.tool) (opening [] 1 0) (fallen_back job outcome) }
{}

/// So may those of a race that the farm wins, where the place then fails.
fn races<W: World>()
    ensures { (job : Job) (files : List FileOut) → 0 < length files
        → IsProper job.command (success files)
        → IsRun (at_once W.tool) (opening [] 1 0) (raced job files) }
{}

/// `laws`: calls what is proved, so that each law holds at these attempts.
pub(crate) fn answer_laws(answer: &mut Answer) -> Result<(), RowFault> {
    every_run::<Toy<Brand>, AtOnce>();
    every_step::<Toy<Brand>, AtOnce>();
    every_run::<Toy<Brand>, FarmHistory>();
    every_step::<Toy<Brand>, FarmHistory>();
    falls_back::<Toy<Brand>>();
    races::<Toy<Brand>>();
    answer.word("proved")?;
    Ok(())
}
