//! The files of a source tree in memory, as a list of it gives them.

ghost use Rattle.std.specs.Prelude.{◌≡◌, ◌+◌, ◌||◌, IfOk, Some, filter, map, take};
ghost use Rattle.std.specs.Str.{bytes_eq};
ghost use Rattle.rx_base.specs.Paths.{is_below};
ghost use Rattle.rx_base.specs.SortedPaths.{AreSorted};
ghost use Rattle.rx_fakes.specs.Entries.{entry_of};
ghost use Rattle.rx_fakes.specs.Found.{found_of};
ghost use Rattle.rx_world.specs.Sources.{Lists, is_file};

use crate::entries::Node;
use rx_base::{Items, NoMemory, RelPath, TryClone};
use rx_world::{Found, Look};
use std::alloc::Global;
use std::collections::BTreeMap;

/// The files at or below a path, in the order of their paths: at most one more than `most`.
pub(crate) fn list_files(
    alloc: Global,
    nodes: &BTreeMap<RelPath, Node>,
    under: &RelPath,
    most: usize,
) -> Result<Items<Found>, NoMemory>
    requires { AreSorted (map (λ pair. pair.0) nodes.now.entries) }
    ensures { IfOk result (Lists (Some (map entry_of nodes.now.entries)) under.now most) }
{
    let mut found = all_found(alloc, nodes)?;
    keep_files(&mut found);
    keep_under(&mut found, under);
    cut(&mut found, most);
    Ok(Items::from_vec(found))
}

/// All that is found, in the order of the paths.
fn all_found(alloc: Global, nodes: &BTreeMap<RelPath, Node>) -> Result<Vec<Found>, NoMemory>
    ensures { IfOk result (λ found.
        found.items ≡ map found_of (map entry_of nodes.now.entries)) }
{
    let mut found = Vec::with_capacity(alloc, nodes.len())?;
    for (path, node) in nodes {
        found.push(Found {
            path: path.try_clone(alloc)?,
            look: node.look,
        })?;
    }
    Ok(found)
}

fn keep_files(found: &mut Vec<Found>)
    ensures { found.new.items ≡ filter (λ f. is_file f.look) found.old.items }
{
    found.retain(is_file);
}

fn is_file(found: &Found) -> bool
    ensures { result ≡ is_file found.now.look }
{
    match found.look {
        Look::File { .. } => true,
        Look::Absent | Look::Dir | Look::Other => false,
    }
}

fn keep_under(found: &mut Vec<Found>, under: &RelPath)
    ensures { found.new.items
        ≡ filter (λ f. is_below f.path under.now || bytes_eq f.path under.now) found.old.items }
{
    found.retain(|f| lies_under(&f.path, under));
}

/// Whether a path is another or lies below it.
fn lies_under(path: &RelPath, under: &RelPath) -> bool
    ensures { result ≡ (is_below path.now under.now || bytes_eq path.now under.now) }
{
    path.is_below(under) || *path == *under
}

/// Leaves one more than `most`, where there are more.
fn cut(found: &mut Vec<Found>, most: usize)
    ensures { found.new.items ≡ take (most + 1) found.old.items }
{
    if most < found.len() {
        found.truncate(most + 1);
    }
}
