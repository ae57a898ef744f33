//! The laws of the core, over every remote attempt that meets the laws of `RemoteHistory`.

ghost use Rattle.std.specs.Prelude.{◌≡◌, ℕ, List, Some};
ghost use Rattle.rx_core.specs.Actions.{Action};
ghost use Rattle.rx_core.specs.Facts.{Holds, Persists};
ghost use Rattle.rx_core.specs.Honest.{AreClean};
ghost use Rattle.rx_core.specs.Runs.{IsReached};
ghost use Rattle.rx_core.specs.States.{State};
ghost use Rattle.rx_core.specs.Steps.{MayStep, Step, after_step};
ghost use Rattle.rx_world.specs.declared.outcomes.FileOut.{FileOut};

use crate::RemoteHistory;
use rx_world::World;

/// Each state of each run meets the facts of the core. Where the world is honest to an action, its
/// outcomes are what its command makes of its tree, and so is the one that is published.
pub fn every_run<W: World, R: RemoteHistory<W>>()
    ensures holds { (files : List FileOut) (state : State R.heard)
        → IsReached R.rules files state → Holds R.rules files state }
    ensures clean { (files : List FileOut) (state : State R.heard)
        → IsReached R.rules files state → AreClean W.tool R.rules state }
{}

/// From any state, no step changes a decision that was made, an entry or a reply.
pub fn every_step<W: World, R: RemoteHistory<W>>()
    ensures kept { (state : State R.heard) (step : Step R.heard) → MayStep R.rules state step
        → (n : ℕ) (action : Action R.heard) → state.actions n ≡ Some action
        → Persists action ((after_step R.rules state step).actions n) }
{}
