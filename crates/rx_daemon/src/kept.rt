//! What a run of sessions in threads keeps of them, which stands behind a lock: the board, the admissions that
//! nobody has, and each session that ended, in the order in which they published.

ghost use Rattle.std.specs.Prelude.{◌≡◌, ◌<◌, ◌≤◌, ◌||◌, ℕ, Bool};
ghost use Rattle.rx_board.specs.Journal.{HoldsLast, IsKeptBy, count_short};
ghost use Rattle.rx_engine.specs.Meanings.{meanings};
ghost use Rattle.rx_daemon.specs.Accounts.{one_concluded};
ghost use Rattle.rx_daemon.specs.Kept.{IsKept, IsPendingFor};

use crate::accounts::Account;
use crate::admissions::Admission;
use crate::asked::asks_to_end;
use crate::fronts::Log;
use crate::gate::Claim;
use crate::runs::{Admissions, Concluded, Desks, Run};
use crate::served::ServedDesk;
use rx_board::{Board, Entry, JOURNAL_LIMIT};
use rx_engine::{Desk, Parts, Pending, conclude};
use rx_exec_messages::Caller;
use rx_world::{Bench, BenchMaker, Place, Sink, Source, Sources, World};
use std::alloc::Global;
use std::marker::{Model, PhantomData};
use std::sync::ledger::{Book, Share};

/// The board, the sessions that ended, how many admissions are out and how many there are, whether a session
/// was asked to end the run, and whether memory for one more was wanting.
#[derive(Drop)]
pub(crate) struct Kept<W: World, D: Desk<W> + Drop, P: Place, K: Desks<D>> {
    board: Board<P>,
    served: Vec<ServedDesk<D>>,
    concluded: Book<Concluded<K>>,
    spare: Share<Admissions<K>>,
    out: u32,
    most: u32,
    asked: bool,
    starved: bool,
    world: PhantomData<W>,
}

impl<W: World, D: Desk<W> + Drop, P: Place, K: Desks<D>> Model for Kept<W, D, P, K> {
    ghost use Rattle.std.specs.Prelude.{◌≡◌, ◌+◌, ◌≤◌, vec_capacity, vec_len};
    ghost use Rattle.rx_daemon.specs.Kept.{IsKept, Sessions};
    ghost use Rattle.rx_engine.specs.Meanings.{meanings};

    ghost Value = { Sessions D P };

    ghost view = { λ k. record {
      board = k.board;
      served = k.served.items;
      concluded = k.concluded.total;
      out = k.out;
      asked = k.asked;
    } };

    ghost invariant = { λ k. IsKept
        (meanings W.World D.I.Source D.O.Sink D.T.Sources D.L.Sources D.B.BenchMaker D.B.B.Bench
        D.R.Sources D.C.Caller)
        P.Place D.parts K.root K.opening K.coming K.gives K.given K.rights K.most (record {
          board = k.board;
          served = k.served.items;
          concluded = k.concluded.total;
          out = k.out;
          asked = k.asked;
        })
        × (vec_len k.served + k.out ≤ vec_capacity k.served)
        × (k.spare.parts + k.out ≡ K.most)
        × (k.spare.amount ≡ 0)
        × (k.most ≡ K.most) };
}

/// Whether one of both is so.
fn either(one: bool, other: bool) -> bool
    ensures { result ≡ (one || other) }
{
    one || other
}

impl<W: World, D: Desk<W> + Drop, P: Place, K: Desks<D>> Kept<W, D, P, K> {
    /// Nothing is kept yet, and all admissions are here.
    pub(crate) fn new(
        alloc: Global,
        place: P,
        concluded: Book<Concluded<K>>,
        spare: Share<Admissions<K>>,
        most: u32,
    ) -> Kept<W, D, P, K>
        requires concluded { concluded.total ≡ 0 }
        requires contents { P.contents place ≡ P.opening place }
        requires opening { P.opening place ≡ K.opening }
        requires quiet { P.faults place ≡ 0 }
        requires spare { (spare.parts ≡ K.most) × (spare.amount ≡ 0) }
        requires most { most ≡ K.most }
    {
        Kept {
            board: Board::new(alloc, place, JOURNAL_LIMIT),
            served: Vec::new(alloc),
            concluded,
            spare,
            out: 0,
            most,
            asked: false,
            starved: false,
            world: PhantomData,
        }
    }

    /// An admission, and room for what its session leaves. There is none where as many are out as sessions may
    /// run at once, where a session was asked to end the run, or for want of memory.
    pub(crate) fn admit(&mut self) -> Option<Admission<K>> {
        if self.asked || self.out >= self.most {
            return None;
        }
        if self.served.reserve(self.out as usize + 1).is_err() {
            self.starved = true;
            return None;
        }
        let share = self.spare.split_off(1, 0);
        self.out += 1;
        Some(Admission { share })
    }

    /// Takes an admission back that wasn't used.
    pub(crate) fn release(&mut self, admission: Admission<K>) {
        let Admission { share } = admission;
        self.spare.merge(share);
        self.out -= 1;
    }

    /// Publishes and replies for a session that has made its attempts, and keeps what it did. It counts as
    /// concluded by the account.
    pub(crate) fn conclude<L: Log>(
        &mut self,
        alloc: Global,
        log: &L,
        admitted: (Admission<K>, Claim<K>),
        pending: Pending,
        parts: Parts<D::I, D::O, D::T, D::L, D::B, D::R, D::C>,
        account: &mut Account<K>,
    )
        requires pending { IsPendingFor
            (meanings W.World D.I.Source D.O.Sink D.T.Sources D.L.Sources D.B.BenchMaker
            D.B.B.Bench D.R.Sources D.C.Caller)
            D.parts K.root K.coming K.gives K.given admitted.1.number parts pending }
        requires account { 0 < account.old.parts }
        ensures account { account.new ≡ one_concluded account.old }
    {
        account.conclude(&mut self.concluded);
        let (admission, claim) = admitted;
        let Admission { share } = admission;
        self.spare.merge(share);
        self.out -= 1;
        let (number, right) = claim.into_parts();
        let before = self.served.len();
        let mut parts = parts;
        let transcript = conclude::<W, D, P>(alloc, number, pending, &mut parts, &mut self.board);
        log.hear(&transcript);
        self.asked = either(self.asked, asks_to_end(transcript.read.as_slice()));
        self.served.push_reserved(ServedDesk {
            transcript,
            desk: D::unite(parts),
            before,
            right,
        });
    }

    /// Whether memory for one session more was wanting.
    pub(crate) fn is_starved(&self) -> bool {
        self.starved
    }

    /// The place, the journal, the sessions in the order in which they published, and the book.
    pub(crate) fn into_parts(self) -> (P, Vec<Entry>, Vec<ServedDesk<D>>, Book<Concluded<K>>)
        ensures kept { (out : ℕ) × (asked : Bool) × IsKept
            (meanings W.World D.I.Source D.O.Sink D.T.Sources D.L.Sources D.B.BenchMaker
            D.B.B.Bench D.R.Sources D.C.Caller)
            P.Place D.parts K.root K.opening K.coming K.gives K.given K.rights K.most (record {
              board = record { limit = 262144; place = result.0; journal = result.1.items };
              served = result.2.items;
              concluded = result.3.total;
              out = out;
              asked = asked;
            }) }
        ensures place { IsKeptBy K.opening (P.contents result.0) result.1.items }
        ensures last { HoldsLast K.opening (P.contents result.0) result.1.items }
        ensures short { count_short result.1.items ≤ P.faults result.0 }
    {
        let Kept {
            board,
            served,
            concluded,
            spare: _,
            out: _,
            most: _,
            asked: _,
            starved: _,
            world: _,
        } = self;
        let (place, journal) = board.into_parts();
        (place, journal, served, concluded)
    }
}
