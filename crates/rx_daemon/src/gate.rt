//! The front of a run of sessions in threads, which stands behind a lock, how it was left, and the numbers
//! of the desks that it gives.

ghost use Rattle.std.specs.Prelude.{◌≡◌, ◌≢◌, ◌<◌, ℕ, IfSome, MatchOption, None, false, length, true};
ghost use Rattle.rx_daemon.specs.Accounts.{one_taken};
ghost use Rattle.rx_daemon.specs.Fronts.{IsGiven};
ghost use Rattle.rx_daemon.specs.Gates.{IsGate};
ghost use Rattle.rx_daemon.specs.Rights.{AreLeft, IsRight, most_numbers};

use crate::accounts::Account;
use crate::fronts::Front;
use crate::runs::{Desks, Run, Taken};
use rx_world::World;
use std::marker::{Model, PhantomData};
use std::sync::ledger::{Blank, Book};

/// Why a front can't be asked any more.
#[derive(Clone, Copy, Debug, PartialEq, Eq)]
pub(crate) enum Left {
    /// It said that it has no more desks.
    Ended,
    /// It failed.
    Lost,
    /// Each number was given.
    Spent,
}

/// The number of a desk that left the front, with the right to it.
pub(crate) struct Claim<K: Run> {
    number: u32,
    right: Blank,
    of: PhantomData<K>,
}

impl<K: Run> Model for Claim<K> {
    ghost use Rattle.rx_daemon.specs.Gates.{Claimed};
    ghost use Rattle.rx_daemon.specs.Rights.{IsRight};

    ghost Value = { Claimed };

    ghost view = { λ s. record { number = s.number; right = s.right } };

    ghost invariant = { λ s. IsRight K.rights s.number s.right };
}

impl<K: Run> Claim<K> {
    /// That of the next desk.
    fn new(number: u32, right: Blank) -> Claim<K>
        requires right { IsRight K.rights number right }
        ensures { result ≡ record { number = number; right = right } }
    {
        Claim {
            number,
            right,
            of: PhantomData,
        }
    }

    /// The number and the right to it.
    pub(crate) fn into_parts(self) -> (u32, Blank)
        ensures number { result.0 ≡ self.number }
        ensures right { IsRight K.rights result.0 result.1 }
    {
        let Claim {
            number,
            right,
            of: _,
        } = self;
        (number, right)
    }
}

/// A front, why it can't be asked any more, how many desks were taken from it, and the rights that are
/// left. The number of a desk is how many were taken with it.
#[derive(Drop)]
pub(crate) struct Gate<W: World, F: Front<W> + Drop, K: Desks<F::D>> {
    front: F,
    left: Option<Left>,
    number: u32,
    taken: Book<Taken<K>>,
    rights: Vec<Blank>,
    world: PhantomData<W>,
}

impl<W: World, F: Front<W> + Drop, K: Desks<F::D>> Model for Gate<W, F, K> {
    ghost use Rattle.std.specs.Prelude.{◌≡◌};
    ghost use Rattle.rx_daemon.specs.Gates.{IsGate, Entrance};

    ghost Value = { Entrance F };

    ghost view = { λ g. record {
      front = g.front;
      left = g.left;
      taken = g.taken.total;
      rights = g.rights.items;
    } };

    ghost invariant = { λ g. IsGate F.coming F.faults F.given F.over F.gives K.coming K.gives
        K.faults K.given K.rights (record {
          front = g.front;
          left = g.left;
          taken = g.taken.total;
          rights = g.rights.items;
        })
        × (g.number ≡ g.taken.total) };
}

impl<W: World, F: Front<W> + Drop, K: Desks<F::D>> Gate<W, F, K> {
    /// A front that wasn't asked yet, with all rights.
    pub(crate) fn new(front: F, taken: Book<Taken<K>>, rights: Vec<Blank>) -> Gate<W, F, K>
        requires faults { F.faults front ≡ K.faults }
        requires given { F.given front ≡ K.given }
        requires coming { F.coming front ≡ K.coming }
        requires kinds { (n : ℕ) (desk : F.D) → F.gives n desk → K.gives n desk }
        requires rights { rights.items ≡ K.rights }
        requires one_part { AreLeft K.rights rights.items }
        requires numbers { length K.rights ≡ most_numbers }
        requires taken { taken.total ≡ 0 }
    {
        Gate {
            front,
            left: None,
            number: 0,
            taken,
            rights,
            world: PhantomData,
        }
    }

    /// The next desk with its number, unless the run was closed. It counts as taken by the account.
    pub(crate) fn next(
        &mut self,
        is_closed: bool,
        account: &mut Account<K>,
    ) -> Option<(Claim<K>, F::D)>
        requires { 0 < account.old.parts }
        ensures account { MatchOption result (account.new ≡ account.old)
            (λ next. account.new ≡ one_taken account.old) }
        ensures desk { IfSome result (λ next.
            IsGiven K.coming K.gives K.given next.0.number next.1) }
        // The front of a closed run isn't asked.
        ensures closed { is_closed ≡ true → (result ≡ None) × (self.new ≡ self.old) }
        ensures none { result ≡ None → is_closed ≡ false → self.new.left ≢ None }
    {
        if is_closed || self.left.is_some() {
            return None;
        }
        let Some(right) = self.rights.pop() else {
            self.left = Some(Left::Spent);
            return None;
        };
        match self.front.next() {
            Ok(Some(desk)) => {
                account.take(&mut self.taken);
                self.number += 1;
                let claim = Claim::new(self.number, right);
                Some((claim, desk))
            }
            Ok(None) => {
                self.rights.push_reserved(right);
                self.left = Some(Left::Ended);
                None
            }
            Err(_) => {
                self.rights.push_reserved(right);
                self.left = Some(Left::Lost);
                None
            }
        }
    }

    /// The front, why it can't be asked any more, the book and the rights that are left.
    pub(crate) fn into_parts(self) -> (F, Option<Left>, Book<Taken<K>>, Vec<Blank>)
        ensures { IsGate F.coming F.faults F.given F.over F.gives K.coming K.gives
            K.faults K.given K.rights (record {
              front = result.0;
              left = result.1;
              taken = result.2.total;
              rights = result.3.items;
            }) }
    {
        let Gate {
            front,
            left,
            number: _,
            taken,
            rights,
            world: _,
        } = self;
        (front, left, taken, rights)
    }
}
