//! The close of a run in threads: its sessions are put in the order of their numbers, and the journal is
//! held against them.

ghost use Rattle.std.specs.Prelude.{◌≡◌, ◌≤◌, ◌↔◌, ℕ, List, [], length};
ghost use Rattle.rx_board.specs.Journal.{HoldsLast, IsKeptBy, count_short};
ghost use Rattle.rx_engine.specs.Meanings.{meanings};
ghost use Rattle.rx_world.specs.declared.outcomes.FileOut.{FileOut};
ghost use Rattle.rx_daemon.specs.Accounts.{IsEven};
ghost use Rattle.rx_daemon.specs.Agreeing.{Agrees};
ghost use Rattle.rx_daemon.specs.CoreRuns.{IsCoreRun, rules_of};
ghost use Rattle.rx_daemon.specs.Proxy.{HasServed, HasServingStatus};
ghost use Rattle.rx_daemon.specs.Threads.{HaveRun, is_asked, transcripts_of};

use crate::accounts::Account;
use crate::agreeing::agrees;
use crate::asked::any_asked;
use crate::fronts::Front;
use crate::gate::Gate;
use crate::kept::Kept;
use crate::runs::Desks;
use crate::served::ServedDesk;
use crate::serving::serving_status;
use crate::settling::settle;
use rx_board::{Entry, JOURNAL_LIMIT};
use rx_engine::Desk;
use rx_exec_messages::Caller;
use rx_world::{Bench, BenchMaker, Place, Sink, Source, Sources, World};
use std::alloc::Global;

/// What a run in threads hands back.
#[derive(Drop)]
pub struct RanInThreads<W: World, F: Front<W>, P> {
    /// 0 the front ended, or a session was asked to end the run; 2 the words are none that are known;
    /// 3 the front failed; 4 memory ran out; 7 as many desks were served as there are numbers, which are
    /// 4,194,304; 8 the journal isn't that of the sessions. Of several, the first of 8, 3, 4, 7.
    pub status: u8,
    pub front: F,
    pub place: P,
    pub journal: Vec<Entry>,
    /// The sessions and their desks, in the order of their numbers: that in which desks left the front.
    pub served: Vec<ServedDesk<F::D>>,
}

/// A run that did nothing.
pub(crate) fn nothing_done<W: World, F: Front<W>, P>(
    alloc: Global,
    status: u8,
    front: F,
    place: P,
) -> RanInThreads<W, F, P>
    ensures status { result.status ≡ status }
    ensures front { result.front ≡ front }
    ensures place { result.place ≡ place }
    ensures journal { result.journal.items ≡ [] }
    ensures served { result.served.items ≡ [] }
{
    RanInThreads {
        status,
        front,
        place,
        journal: Vec::new(alloc),
        served: Vec::new(alloc),
    }
}

/// What a run hands back whose threads have ended.
pub(crate) fn close<W: World, F: Front<W> + Drop, P: Place, K: Desks<F::D>>(
    gate: Gate<W, F, K>,
    kept: Kept<W, F::D, P, K>,
    account: Account<K>,
) -> RanInThreads<W, F, P>
    requires account { account.parts ≡ K.most }
    requires even { IsEven account }
    requires back { (n : ℕ) (desk : F.D) → K.gives n desk → F.gives n desk }
    ensures sessions { HaveRun
        (meanings W.World F.D.I.Source F.D.O.Sink F.D.T.Sources F.D.L.Sources F.D.B.BenchMaker
        F.D.B.B.Bench F.D.R.Sources F.D.C.Caller) F.D.parts K.root
        JOURNAL_LIMIT F.gives K.coming (F.coming result.front) K.given K.most
        result.journal.items (P.faults result.place) result.served.items }
    ensures core { (files : List FileOut) → IsCoreRun (rules_of
        (meanings W.World F.D.I.Source F.D.O.Sink F.D.T.Sources F.D.L.Sources F.D.B.BenchMaker
        F.D.B.B.Bench F.D.R.Sources F.D.C.Caller))
        files JOURNAL_LIMIT result.journal.items (transcripts_of result.served.items) }
    ensures place { IsKeptBy K.opening (P.contents result.place) result.journal.items }
    ensures last { HoldsLast K.opening (P.contents result.place) result.journal.items }
    ensures short { count_short result.journal.items ≤ P.faults result.place }
    ensures served { HasServed K.given (F.given result.front)
        result.status (length result.served.items) }
    ensures status { HasServingStatus (F.over result.front)
        K.faults (F.faults result.front)
        result.status (length result.served.items) (is_asked result.served.items) }
    ensures agrees { result.status ≡ 8 ↔
        (Agrees result.journal.items (transcripts_of result.served.items) → ⊥) }
    ensures always { Agrees result.journal.items (transcripts_of result.served.items) }
{
    let mut account = account;
    let starved = kept.is_starved();
    let (front, left, taken, rights) = gate.into_parts();
    let (place, journal, served, concluded) = kept.into_parts();
    let mut taken = taken;
    let mut concluded = concluded;
    account.audit(&mut taken, &mut concluded);
    let served = settle::<F::D, K>(served, rights);
    let agreed = agrees(&journal, &served);
    RanInThreads {
        status: serving_status(left, starved, any_asked(&served), agreed),
        front,
        place,
        journal,
        served,
    }
}
