//! Which shared race it is: the names of its ledgers and its plan, as one type. The type is picked
//! at a call, by `Brand`, from values that are known only then.

ghost use Rattle.std.specs.Prelude.{◌≡◌, ℕ};
ghost use Rattle.rx_world.specs.declared.attempts.Plan.{Plan};
ghost use Rattle.rx_world.specs.declared.attempts.Plan.TheVariants.{LocalOnly};

use std::marker::{Brand, PhantomData};
use std::sync::ledger::{Blank, Ledger};

/// The names of the ledgers of a race's passes: one for each pass.
pub trait Seats {
    /// That of the local attempt's pass.
    ghost local: { ℕ };

    /// That of the remote attempt's pass.
    ghost remote: { ℕ };

    /// That of the cancel pass.
    ghost cancel: { ℕ };
}

impl Seats for Brand {
    ghost local = { 0 };

    ghost remote = { 0 };

    ghost cancel = { 0 };
}

/// Which race it is.
pub trait Contest: Seats {
    /// Its plan.
    ghost plan: { Plan };
}

impl Contest for Brand {
    ghost plan = { LocalOnly };
}

/// The ledger of the local attempt's pass. It has one part, so that whoever has the pass knows
/// under the lock what became of it.
pub struct LocalSeat<K> {
    of: PhantomData<K>,
}

impl<K: Seats> Ledger for LocalSeat<K> {
    ghost name = { K.local };

    ghost parts = { 1 };
}

/// The ledger of the remote attempt's pass.
pub struct RemoteSeat<K> {
    of: PhantomData<K>,
}

impl<K: Seats> Ledger for RemoteSeat<K> {
    ghost name = { K.remote };

    ghost parts = { 1 };
}

/// The ledger of the cancel pass.
pub struct CancelSeat<K> {
    of: PhantomData<K>,
}

impl<K: Seats> Ledger for CancelSeat<K> {
    ghost name = { K.cancel };

    ghost parts = { 1 };
}

/// The three ledgers of a race before it is known which race it is.
#[derive(Drop)]
pub struct Blanks {
    pub local: Blank,
    pub remote: Blank,
    pub cancel: Blank,
}

impl Blanks {
    /// Three ledgers of one part each.
    pub fn new() -> Blanks
        ensures local { result.local.parts ≡ 1 }
        ensures remote { result.remote.parts ≡ 1 }
        ensures cancel { result.cancel.parts ≡ 1 }
    {
        Blanks {
            local: Blank::new(1),
            remote: Blank::new(1),
            cancel: Blank::new(1),
        }
    }
}
