//! Slots of `rx_local` at a concrete type: two threads, and one slot for both.

ghost use Rattle.std.specs.Prelude.{◌≡◌, ◌+◌};

use rx_local::{Places, Slots, blank_for};
use std::marker::Brand;
use std::sync::Wait;
use std::sync::ledger::Blank;
use std::thread::{Threads, join};

/// Two threads take the one slot and give it back, each in its turn. The answer is how many slots there
/// are.
fn share_one<K: Places + Send + Sync, R: Threads + Wait + Sync>(rt: &R, blank: Blank) -> u32
    requires name { blank.name ≡ K.name }
    requires parts { (blank.parts ≡ K.parts) × (K.parts ≡ K.most + 1) }
    requires slots { 1 ≡ K.most }
{
    let slots = Slots::<K>::new(1, blank);
    join(
        rt,
        || take_and_give::<K, R>(rt, &slots),
        || take_and_give::<K, R>(rt, &slots),
    );
    slots.all()
}

/// Takes a slot, however long that takes, and gives it back.
fn take_and_give<K: Places, R: Wait>(rt: &R, slots: &Slots<K>) {
    if let Some(pass) = slots.take(rt, || false) {
        slots.give(rt, pass);
    }
}

/// How many slots there are when two threads have shared one, whose ledger is made here.
pub(crate) fn two_threads<R: Threads + Wait + Sync>(rt: &R) -> u32 {
    share_one::<Brand, R>(rt, blank_for(1))
}
