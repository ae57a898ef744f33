//! Items in the order of their paths.

ghost use Rattle.std.specs.Prelude.{◌≡◌, ◌≤◌, ◌<◌, ℕ, List, OnErr, OnOk, length};
ghost use Rattle.rx_fakes.specs.Placing.{IsWithin, with_item};
ghost use Rattle.rx_world.specs.Files.{placed_by};

use rx_base::{Items, NoMemory, RelPath};
use rx_world::FileOut;
use std::alloc::Global;
use std::cmp::Ordering;
use std::mem::replace;

/// An item that stands at a path.
pub(crate) trait HasPath {
    ghost path_of: { Self → List ℕ };

    fn path(&self) -> &RelPath
        ensures { result.now ≡ path_of self.now };
}

impl HasPath for RelPath {
    ghost path_of = { λ path. path };

    fn path(&self) -> &RelPath {
        self
    }
}

impl HasPath for FileOut {
    ghost path_of = { λ file. file.path };

    fn path(&self) -> &RelPath {
        &self.path
    }
}

/// Where an item goes in a list.
#[derive(Clone, Copy, Debug, PartialEq, Eq)]
pub(crate) enum Spot {
    /// In place of the item at this index.
    Taken(usize),
    /// Before the item at this index, or at the end.
    Free(usize),
}

/// Where an item goes by its path.
fn spot_for<T: HasPath>(items: &[T], item: &T) -> Spot
    ensures within { IsWithin (length items.now) result }
    ensures spot { placed_by T.path_of item.now items.now ≡ with_item items.now item.now result }
{
    for (at, held) in items.iter().enumerate() {
        match item.path().cmp(held.path()) {
            Ordering::Less => return Spot::Free(at),
            Ordering::Equal => return Spot::Taken(at),
            Ordering::Greater => {}
        }
    }
    Spot::Free(items.len())
}

/// Places an item by its path. Where memory is wanting, all stays as it was.
fn place_item<T: HasPath + Drop>(items: &mut Vec<T>, item: T) -> Result<(), NoMemory>
    ensures ok { OnOk result (items.new.items ≡ placed_by T.path_of item items.old.items) }
    ensures err { OnErr result (items.new.items ≡ items.old.items) }
{
    match spot_for(items, &item) {
        Spot::Taken(at) => {
            items[at] = item;
            Ok(())
        }
        Spot::Free(at) => {
            items.insert(at, item)?;
            Ok(())
        }
    }
}

/// The same in a list that definitions see.
pub(crate) fn place_in<T: HasPath + Drop>(
    alloc: Global,
    items: &mut Items<T>,
    item: T,
) -> Result<(), NoMemory>
    ensures ok { OnOk result (items.new ≡ placed_by T.path_of item items.old) }
    ensures err { OnErr result (items.new ≡ items.old) }
{
    let mut inner = replace(items, Items::new(alloc)).into_vec();
    let placed = place_item(&mut inner, item);
    *items = Items::from_vec(inner);
    placed
}
