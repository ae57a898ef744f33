//! What a thread of a run took from the front, and what it concluded. Where all accounts of a run are
//! one again, and that one is even, no desk that left the front was lost.

ghost use Rattle.std.specs.Prelude.{◌≡◌, ◌+◌, ◌<◌};
ghost use Rattle.rx_daemon.specs.Accounts.{both, one_concluded, one_taken};

use crate::runs::{Concluded, Run, Taken};
use std::marker::Model;
use std::sync::ledger::{Blank, Book, Share};

/// The ledgers of a run before it is known which run it is.
#[derive(Drop)]
pub(crate) struct Blanks {
    pub taken: Blank,
    pub concluded: Blank,
    pub admissions: Blank,
}

impl Blanks {
    /// Those of a run of so many threads: a part for each.
    pub(crate) fn for_threads(threads: u16) -> Blanks
        ensures taken { result.taken.parts ≡ threads }
        ensures concluded { result.concluded.parts ≡ threads }
        ensures admissions { result.admissions.parts ≡ threads }
    {
        let parts = u64::from(threads);
        Blanks {
            taken: Blank::new(parts),
            concluded: Blank::new(parts),
            admissions: Blank::new(parts),
        }
    }
}

/// What its holder took and concluded, with some parts of the right to know the whole.
#[derive(Drop)]
pub(crate) struct Account<K: Run> {
    taken: Share<Taken<K>>,
    concluded: Share<Concluded<K>>,
}

impl<K: Run> Model for Account<K> {
    ghost use Rattle.std.specs.Prelude.{◌≡◌};
    ghost use Rattle.rx_daemon.specs.Accounts.{Counts};

    ghost Value = { Counts };

    ghost view = { λ a. record {
      parts = a.taken.parts;
      taken = a.taken.amount;
      concluded = a.concluded.amount;
    } };

    ghost invariant = { λ a. a.concluded.parts ≡ a.taken.parts };
}

impl<K: Run> Account<K> {
    /// All accounts of a run in one.
    pub(crate) fn new(taken: Share<Taken<K>>, concluded: Share<Concluded<K>>) -> Account<K>
        requires { concluded.parts ≡ taken.parts }
        ensures { result ≡ record {
          parts = taken.parts;
          taken = taken.amount;
          concluded = concluded.amount;
        } }
    {
        Account { taken, concluded }
    }

    /// Counts a desk that left the front.
    pub(crate) fn take(&mut self, book: &mut Book<Taken<K>>)
        requires { 0 < self.old.parts }
        ensures counted { self.new ≡ one_taken self.old }
        ensures total { book.new.total ≡ book.old.total + 1 }
    {
        book.add(&mut self.taken, 1);
    }

    /// Counts a desk whose session ended.
    pub(crate) fn conclude(&mut self, book: &mut Book<Concluded<K>>)
        requires { 0 < self.old.parts }
        ensures counted { self.new ≡ one_concluded self.old }
        ensures total { book.new.total ≡ book.old.total + 1 }
    {
        book.add(&mut self.concluded, 1);
    }

    /// Whoever has all accounts knows how many desks left the front, and how many sessions ended.
    pub(crate) fn audit(&mut self, taken: &mut Book<Taken<K>>, concluded: &mut Book<Concluded<K>>)
        requires { self.old.parts ≡ K.most }
        ensures same { self.new ≡ self.old }
        ensures taken { (taken.new.total ≡ self.old.taken) × (taken.new.total ≡ taken.old.total) }
        ensures concluded { (concluded.new.total ≡ self.old.concluded)
            × (concluded.new.total ≡ concluded.old.total) }
    {
        taken.audit(&mut self.taken);
        concluded.audit(&mut self.concluded);
    }

    /// A new account with so many of the parts.
    pub(crate) fn split(&mut self, parts: u64) -> Account<K>
        requires { parts < self.old.parts }
        ensures left { (self.new.parts + parts ≡ self.old.parts)
            × (self.new.taken ≡ self.old.taken)
            × (self.new.concluded ≡ self.old.concluded) }
        ensures given { result ≡ record { parts = parts; taken = 0; concluded = 0 } }
    {
        Account {
            taken: self.taken.split_off(parts, 0),
            concluded: self.concluded.split_off(parts, 0),
        }
    }

    /// Both accounts in one.
    pub(crate) fn join(self, other: Account<K>) -> Account<K>
        ensures { result ≡ both self other }
    {
        let Account { taken, concluded } = other;
        let mut account = self;
        account.taken.merge(taken);
        account.concluded.merge(concluded);
        account
    }
}
