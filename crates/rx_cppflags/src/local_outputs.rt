//! The outputs of a compile command that only this machine can run, by what its words say. Such a
//! command has words that aren't understood, so no more than these outputs are known.

ghost use Rattle.std.specs.Prelude.{◌≡◌, ◌++◌, IfOk, filter};
ghost use Rattle.rx_base.specs.SortedPaths.{AreSorted};
ghost use Rattle.rx_cppflags.specs.LocalOutputs.{apart_paths, local_outputs};
ghost use Rattle.rx_cppflags.specs.Outside.{is_apart};

use crate::found::outputs_of;
use crate::pieces::Piece;
use crate::searches::is_apart;
use rx_base::{Items, NoMemory, RelPath, TryClone, sort_paths};
use rx_world::Command;
use std::alloc::Global;

/// The outputs of a command whose words say this, in order. What can't be one is left out.
pub(crate) fn local_outputs(
    alloc: Global,
    command: &Command,
    pieces: &[Piece],
) -> Result<Items<RelPath>, NoMemory>
    ensures { IfOk result (λ outputs. outputs ≡ local_outputs command.now pieces.now) }
{
    let paths = outputs_of(alloc, pieces, Items::new(alloc))?;
    let apart = apart_paths(alloc, &command.outputs, paths)?;
    sort_paths(apart)
}

/// Those of these paths that are above and below no other, and no output that the command has.
fn apart_paths(
    alloc: Global,
    outputs: &Items<RelPath>,
    paths: Items<RelPath>,
) -> Result<Items<RelPath>, NoMemory>
    ensures { IfOk result (λ apart. apart ≡ apart_paths outputs.now paths) }
{
    let others = sort_paths(with_copies(alloc, outputs.try_clone(alloc)?, paths.as_slice())?)?;
    apart_from(alloc, others.as_slice(), paths.as_slice())
}

/// Those of these paths that are above and below none of the others, which are sorted.
fn apart_from(
    alloc: Global,
    others: &[RelPath],
    paths: &[RelPath],
) -> Result<Items<RelPath>, NoMemory>
    requires { AreSorted others.now }
    ensures { IfOk result (λ apart. apart ≡ filter (is_apart others.now) paths.now) }
{
    let mut apart = Items::new(alloc);
    for path in paths {
        if is_apart(path, others) {
            apart.push(path.try_clone(alloc)?)?;
        }
    }
    Ok(apart)
}

/// Paths, and behind them copies of others.
fn with_copies(
    alloc: Global,
    mut paths: Items<RelPath>,
    others: &[RelPath],
) -> Result<Items<RelPath>, NoMemory>
    ensures { IfOk result (λ all. all ≡ paths ++ others.now) }
{
    for other in others {
        paths.push(other.try_clone(alloc)?)?;
    }
    Ok(paths)
}
