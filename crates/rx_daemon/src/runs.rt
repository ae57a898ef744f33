//! Which run of sessions in threads it is, as one type. The type is picked at a call, by `Brand`, from
//! values that are known only then.

ghost use Rattle.std.specs.Prelude.{[], ℕ, List, Option, None};
ghost use Rattle.std.specs.declared.sync.ledger.Blank.{Blank};
ghost use Rattle.rx_world.specs.declared.outcomes.FileOut.{FileOut};

use std::marker::{Brand, PhantomData};
use std::sync::ledger::Ledger;

/// Which run it is: its root, what the place held, how often the front had failed as it began, the ledgers
/// of the run, how many sessions it has at once, and the rights to its numbers.
pub(crate) trait Run {
    /// The served root.
    ghost root: { List ℕ };

    /// What the place held at first, where it tells that.
    ghost opening: { Option (List FileOut) };

    /// How often the front had failed.
    ghost faults: { ℕ };

    /// How many desks the front had given.
    ghost given: { ℕ };

    /// The name of the ledger of desks that left the front.
    ghost taken: { ℕ };

    /// The name of the ledger of desks whose sessions were concluded.
    ghost concluded: { ℕ };

    /// The name of the ledger of admissions.
    ghost admissions: { ℕ };

    /// How many sessions there are at once, and into how many parts the shares of these ledgers are cut.
    ghost most: { ℕ };

    /// The right to each number.
    ghost rights: { List Blank };
}

impl Run for Brand {
    ghost root = { [] };

    ghost opening = { None };

    ghost faults = { 0 };

    ghost given = { 0 };

    ghost taken = { 0 };

    ghost concluded = { 0 };

    ghost admissions = { 0 };

    ghost most = { 0 };

    ghost rights = { [] };
}

/// The desks of a run: what its front was to give, where it told that, and what fronts of the kind give.
pub(crate) trait Desks<D>: Run {
    ghost coming: { Option (List D) };

    ghost gives: { ℕ → D → Type 0 };
}

impl<D> Desks<D> for Brand {
    ghost coming = { None };

    ghost gives = { λ n d. Unit {0} };
}

/// The ledger of desks that left the front.
pub(crate) struct Taken<K> {
    of: PhantomData<K>,
}

impl<K: Run> Ledger for Taken<K> {
    ghost name = { K.taken };

    ghost parts = { K.most };
}

/// The ledger of desks whose sessions were concluded.
pub(crate) struct Concluded<K> {
    of: PhantomData<K>,
}

impl<K: Run> Ledger for Concluded<K> {
    ghost name = { K.concluded };

    ghost parts = { K.most };
}

/// The ledger of admissions: a part for each session at once.
pub(crate) struct Admissions<K> {
    of: PhantomData<K>,
}

impl<K: Run> Ledger for Admissions<K> {
    ghost name = { K.admissions };

    ghost parts = { K.most };
}
