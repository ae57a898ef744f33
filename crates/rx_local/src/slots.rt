//! Slots: so many local attempts run at once. Each has a pass while it runs. Free slots and passes
//! out sum to all slots, which the type of what the lock keeps says.

ghost use Rattle.std.specs.Prelude.{◌≡◌, ◌+◌, ◌<◌, ◌≤◌, ℕ};

use std::marker::Brand;
use std::sync::ledger::{Blank, Book, Ledger, Share};
use std::sync::{Condvar, Mutex, Wait};

/// Which slots these are: their ledger, and how many there are. The type is picked at a call, by
/// `Brand`, from values that are known only then.
pub trait Places: Ledger {
    /// How many there are.
    ghost most: { ℕ };
}

impl Places for Brand {
    ghost most = { 0 };
}

/// The ledger of so many slots, before it is known which slots they are: a part for each pass, and
/// one that is never handed out.
pub fn blank_for(slots: u32) -> Blank
    ensures { result.parts ≡ slots + 1 }
{
    Blank::new(slots as u64 + 1)
}

/// What the lock keeps. Each pass that is out has one part of the ledger, and an amount of one.
#[derive(Drop)]
struct Free<K: Places> {
    free: u32,
    all: u32,
    out: Book<K>,
    spare: Share<K>,
    ghost all_are: { all ≡ K.most },
    ghost counted: { free + out.total ≡ K.most },
    ghost parts_left: { spare.parts + out.total ≡ K.most + 1 },
    ghost none_spent: { spare.amount ≡ 0 },
}

/// The right to one slot. It can't be copied or let go, and has to be given back.
pub struct SlotPass<K: Places> {
    share: Share<K>,
    ghost one_part: { share.parts ≡ 1 },
    ghost one: { share.amount ≡ 1 },
}

/// So many slots behind a lock.
#[derive(Drop)]
pub struct Slots<K: Places> {
    lock: Mutex<Free<K>>,
    given: Condvar,
    all: u32,
    ghost all_are: { all ≡ K.most },
}

impl<K: Places> Free<K> {
    /// One slot less is free.
    fn take(&mut self) -> SlotPass<K>
        requires { 0 < self.old.free }
        ensures { self.new.free + 1 ≡ self.old.free }
    {
        let Free {
            free,
            out,
            spare,
            ..
        } = self;
        let mut share = spare.split_off(1, 0);
        out.add(&mut share, 1);
        *free -= 1;
        SlotPass { share }
    }

    /// One slot more is free.
    fn give(&mut self, pass: SlotPass<K>)
        ensures { self.new.free ≡ self.old.free + 1 }
    {
        let SlotPass { share } = pass;
        let mut share = share;
        let Free {
            free,
            out,
            spare,
            ..
        } = self;
        out.audit(&mut share);
        out.sub(&mut share, 1);
        spare.merge(share);
        *free += 1;
    }
}

impl<K: Places> Slots<K> {
    /// So many slots, all of them free.
    pub fn new(slots: u32, blank: Blank) -> Slots<K>
        requires name { blank.name ≡ K.name }
        requires parts { (blank.parts ≡ K.parts) × (K.parts ≡ K.most + 1) }
        requires slots { slots ≡ K.most }
    {
        let (out, spare) = blank.open::<K>();
        Slots {
            lock: Mutex::new(Free {
                free: slots,
                all: slots,
                out,
                spare,
            }),
            given: Condvar::new(),
            all: slots,
        }
    }

    /// How many slots there are, free or not.
    pub fn all(&self) -> u32
        ensures { result ≡ K.most }
    {
        self.all
    }

    /// Waits for a free slot and takes it, or until the wait is over: then there is none, unless one is free.
    /// Who ends a wait says so by `wake` afterwards.
    pub fn take<F: Fn() -> bool>(&self, rt: &impl Wait, is_over: F) -> Option<SlotPass<K>>
        requires { F.IsAlwaysCallable is_over }
    {
        let mut held = self.given.wait_while(rt, self.lock.lock(rt), |kept| {
            kept.free == 0 && !is_over()
        });
        if held.free == 0 {
            return None;
        }
        Some(held.take())
    }

    /// Has each wait for a slot see anew whether it is over. A wait that begins holds the lock from its last
    /// look until it sleeps, so none is missed.
    pub fn wake(&self, rt: &impl Wait) {
        drop(self.lock.lock(rt));
        self.given.notify_all();
    }

    /// Gives a slot back. One attempt that waits goes on.
    pub fn give(&self, rt: &impl Wait, pass: SlotPass<K>) {
        self.lock.lock(rt).give(pass);
        self.given.notify_one();
    }
}
