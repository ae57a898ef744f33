//! Lists that contracts alone see.

ghost use Rattle.std.specs.Prelude.{◌≡◌, ◌++◌, ◌∷◌, []};

use std::marker::Model;
use std::mem::replace;
use std::snapshot::Snapshot;

/// Items that were shown one after another, seen as the list of them. It takes no memory, and holds
/// none of them.
#[cycle(traces)]
#[derive(Drop)]
pub struct Trace<T> {
    latest: Option<(Snapshot<Trace<T>>, Snapshot<T>)>,
}

impl<T> Model for Trace<T> {
    ghost use Rattle.std.specs.Prelude.{List, length};
    ghost use Rattle.witness_rows.specs.Traces.{all_of};

    ghost Value = { List T };

    ghost view = { λ t. all_of t.latest };

    ghost size = { length };

    ghost use Rattle.std.proofs.Common.{arith, length-append};

    ghost size_decreases = { λ a h. Prim.grind (arith, length-append) };
}

impl<T> Trace<T> {
    /// No items.
    pub fn new() -> Trace<T>
        ensures { result ≡ [] }
    {
        Trace { latest: None }
    }

    /// These items.
    pub fn of(items: &[T]) -> Trace<T>
        ensures { result ≡ items.now }
    {
        let mut trace = Trace::new();
        for item in items {
            trace.push(item);
        }
        trace
    }

    /// Puts an item at the end, without a copy of it.
    pub fn push(&mut self, item: &T)
        ensures { self.new ≡ self.old ++ item.now ∷ [] }
    {
        let earlier = replace(self, Trace::new());
        *self = Trace {
            latest: Some((Snapshot::of(&earlier), Snapshot::of(item))),
        };
    }
}
