//! A run of sessions in threads: each takes a desk from the front, makes its attempts beside the
//! others, and publishes and replies while no other does.

ghost use Rattle.std.specs.Prelude.{◌≡◌, ◌<◌, ◌≤◌, ◌↔◌, ◌+◌, ℕ, List, [], IfSome, MatchOption, None, length};
ghost use Rattle.rx_board.specs.Journal.{HoldsLast, IsKeptBy, count_short};
ghost use Rattle.rx_engine.specs.Meanings.{meanings};
ghost use Rattle.rx_engine.specs.Pending.{IsPending};
ghost use Rattle.rx_world.specs.declared.outcomes.FileOut.{FileOut};
ghost use Rattle.rx_daemon.specs.Accounts.{IsEven, one_taken};
ghost use Rattle.rx_daemon.specs.Agreeing.{Agrees};
ghost use Rattle.rx_daemon.specs.CoreRuns.{IsCoreRun, rules_of};
ghost use Rattle.rx_daemon.specs.Fronts.{IsGiven};
ghost use Rattle.rx_daemon.specs.Proxy.{HasServed, HasServingStatus};
ghost use Rattle.rx_daemon.specs.Rights.{AreLeft, most_numbers};
ghost use Rattle.rx_daemon.specs.Threads.{HaveRun, is_asked, transcripts_of};
ghost use Rattle.rx_daemon.specs.Words.{root_in, sessions_in};

use crate::accounts::{Account, Blanks};
use crate::admissions::Admission;
use crate::asked::asks_to_end;
use crate::closing::{RanInThreads, close, nothing_done};
use crate::fronts::{Front, Log};
use crate::gate::{Claim, Gate};
use crate::kept::Kept;
use crate::rights::all_rights;
use crate::runs::{Admissions, Concluded, Desks, Run, Taken};
use crate::words::{at_once, root_in};
use rx_blobs::{PRESENCE_LIMIT, Presence};
use rx_board::JOURNAL_LIMIT;
use rx_digest_cache::{DIGEST_CACHE_LIMIT, DigestCache};
use rx_engine::{Desk, Means, Parts, Pending, undertake};
use rx_inputs::HashedContents;
use rx_local::{Places, Slots, blank_for};
use rx_world::{Place, World};
use std::alloc::Global;
use std::marker::Brand;
use std::sync::ledger::Blank;
use std::sync::{Mutex, Wait};
use std::thread::{Threads, join};

/// What a run serves.
#[derive(Drop)]
struct Service<'a, L> {
    /// The served root, as requests name it.
    root: &'a str,
    /// How many sessions run at once.
    sessions: u16,
    /// How many local attempts run at once.
    slots: u32,
    /// Who hears what each session did.
    log: &'a L,
}

/// What all sessions of a run share, beside the slots for local attempts.
#[derive(Drop)]
struct Common<'a, W: World, F: Front<W> + Drop, P: Place, K: Desks<F::D>, L> {
    service: Service<'a, L>,
    /// Digests of the source trees' files.
    cache: &'a DigestCache<W>,
    /// Contents of these files that needn't be hashed again.
    hashed: &'a HashedContents,
    /// Which blobs the farm is known to have.
    presence: &'a Presence,
    gate: &'a Mutex<Gate<W, F, K>>,
    /// Whether no more desks are asked for. It has a lock of its own, since that of the gate is held as
    /// long as a client is waited for.
    closed: &'a Mutex<bool>,
    kept: &'a Mutex<Kept<W, F::D, P, K>>,
}

/// The ledgers of a run, and the rights to its numbers, before it is known which run it is.
#[derive(Drop)]
struct Unbound {
    blanks: Blanks,
    rights: Vec<Blank>,
}

/// Serves the desks of a front in threads, so many at a time as the words let, and hands everything
/// back in the order in which the desks left the front. The words are those of `serve`.
pub fn run_in_threads<
    W: World + Send,
    F: Front<W> + Send + Drop,
    P: Place + Send + Drop,
    L: Log + Sync,
    R: Threads + Wait + Sync,
>(rt: &R, alloc: Global, words: &[String], front: F, place: P, log: &L) -> RanInThreads<W, F, P>
    requires opening { P.contents place ≡ P.opening place }
    requires quiet { P.faults place ≡ 0 }
    // Nothing is done where the words aren't known.
    ensures usage { result.status ≡ 2 ↔ (root_in words.now ≡ None) }
    ensures unused { root_in words.now ≡ None →
        (result.front ≡ front) × (result.place ≡ place) × (result.served.items ≡ []) }
    // Each desk that left the front has its session, in the front's order: the number is the desk's place,
    // the transcript tells of this very desk, and this desk is handed back. The sessions published one
    // after the other, in an order that they tell. In an honest world a Done is the clean run. Where
    // nothing fails in an honest world, the request is done, unless memory runs out.
    ensures sessions { IfSome (root_in words.now) (λ root. HaveRun
        (meanings W.World F.D.I.Source F.D.O.Sink F.D.T.Sources F.D.L.Sources F.D.B.BenchMaker
        F.D.B.B.Bench F.D.R.Sources F.D.C.Caller) F.D.parts root JOURNAL_LIMIT F.gives
        (F.coming front) (F.coming result.front) (F.given front) (sessions_in words.now)
        result.journal.items (P.faults result.place) result.served.items) }
    // Whatever the order of the threads' steps, there are steps of the core that lead to this journal
    // and to these sessions: to each race, publication and reply.
    ensures core { (files : List FileOut) → IfSome (root_in words.now) (λ root. IsCoreRun (rules_of
        (meanings W.World F.D.I.Source F.D.O.Sink F.D.T.Sources F.D.L.Sources F.D.B.BenchMaker
        F.D.B.B.Bench F.D.R.Sources F.D.C.Caller))
        files JOURNAL_LIMIT result.journal.items (transcripts_of result.served.items)) }
    // The place holds what the journal leaves of its opening contents: at each path the last entry's file.
    ensures place { IsKeptBy (P.opening place) (P.contents result.place) result.journal.items }
    ensures last { HoldsLast (P.opening place) (P.contents result.place) result.journal.items }
    // There are at most as many short entries as the place had faults.
    ensures short { count_short result.journal.items ≤ P.faults result.place }
    // There are as many sessions as desks that left the front, but where the front failed.
    ensures served { HasServed (F.given front) (F.given result.front)
        result.status (length result.served.items) }
    // Each status has its cause: 0 comes only where the front said that it has no more desks, or where
    // a session was asked to end the run.
    ensures status { IfSome (root_in words.now) (λ root. HasServingStatus (F.over result.front)
        (F.faults front) (F.faults result.front)
        result.status (length result.served.items) (is_asked result.served.items)) }
    // 8 comes just where the journal isn't that of the sessions, and that doesn't come.
    ensures agrees { result.status ≡ 8 ↔
        (Agrees result.journal.items (transcripts_of result.served.items) → ⊥) }
    ensures always { Agrees result.journal.items (transcripts_of result.served.items) }
{
    let Some(root) = root_in(words) else {
        return nothing_done(alloc, 2, front, place);
    };
    let Ok(rights) = all_rights(alloc) else {
        return nothing_done(alloc, 4, front, place);
    };
    let (sessions, slots) = at_once(words);
    let service = Service {
        root,
        sessions,
        slots,
        log,
    };
    let blanks = Blanks::for_threads(sessions);
    let unbound = Unbound { blanks, rights };
    serve_front::<W, F, P, Brand, L, R>(rt, alloc, service, unbound, front, place)
}

/// Serves the desks of a front below a root.
fn serve_front<
    W: World + Send,
    F: Front<W> + Send + Drop,
    P: Place + Send + Drop,
    K: Desks<F::D> + Send + Sync,
    L: Log + Sync,
    R: Threads + Wait + Sync,
>(
    rt: &R,
    alloc: Global,
    service: Service<'_, L>,
    unbound: Unbound,
    front: F,
    place: P,
) -> RanInThreads<W, F, P>
    requires contents { P.contents place ≡ P.opening place }
    requires quiet { P.faults place ≡ 0 }
    requires root { service.root.now ≡ K.root }
    requires opening { P.opening place ≡ K.opening }
    requires faults { F.faults front ≡ K.faults }
    requires given { F.given front ≡ K.given }
    requires coming { F.coming front ≡ K.coming }
    requires kinds { (n : ℕ) (desk : F.D) → F.gives n desk → K.gives n desk }
    requires back { (n : ℕ) (desk : F.D) → K.gives n desk → F.gives n desk }
    requires taken { (unbound.blanks.taken.name ≡ K.taken)
        × (unbound.blanks.taken.parts ≡ K.most) }
    requires concluded { (unbound.blanks.concluded.name ≡ K.concluded)
        × (unbound.blanks.concluded.parts ≡ K.most) }
    requires admissions { (unbound.blanks.admissions.name ≡ K.admissions)
        × (unbound.blanks.admissions.parts ≡ K.most) }
    requires rights { unbound.rights.items ≡ K.rights }
    requires one_part { AreLeft K.rights unbound.rights.items }
    requires numbers { length K.rights ≡ most_numbers }
    requires most { K.most ≡ service.sessions }
    requires some { 0 < service.sessions }
    ensures sessions { HaveRun
        (meanings W.World F.D.I.Source F.D.O.Sink F.D.T.Sources F.D.L.Sources F.D.B.BenchMaker
        F.D.B.B.Bench F.D.R.Sources F.D.C.Caller) F.D.parts service.entry.root.now
        JOURNAL_LIMIT F.gives (F.coming front) (F.coming result.front) (F.given front)
        service.entry.sessions
        result.journal.items (P.faults result.place) result.served.items }
    ensures core { (files : List FileOut) → IsCoreRun (rules_of
        (meanings W.World F.D.I.Source F.D.O.Sink F.D.T.Sources F.D.L.Sources F.D.B.BenchMaker
        F.D.B.B.Bench F.D.R.Sources F.D.C.Caller))
        files JOURNAL_LIMIT result.journal.items (transcripts_of result.served.items) }
    ensures place { IsKeptBy (P.opening place) (P.contents result.place) result.journal.items }
    ensures last { HoldsLast (P.opening place) (P.contents result.place) result.journal.items }
    ensures short { count_short result.journal.items ≤ P.faults result.place }
    ensures served { HasServed (F.given front) (F.given result.front)
        result.status (length result.served.items) }
    ensures status { HasServingStatus (F.over result.front)
        (F.faults front) (F.faults result.front)
        result.status (length result.served.items) (is_asked result.served.items) }
    ensures agrees { result.status ≡ 8 ↔
        (Agrees result.journal.items (transcripts_of result.served.items) → ⊥) }
    ensures always { Agrees result.journal.items (transcripts_of result.served.items) }
{
    let Unbound { blanks, rights } = unbound;
    let Blanks {
        taken,
        concluded,
        admissions,
    } = blanks;
    let (taken, took) = taken.open::<Taken<K>>();
    let (concluded, ended) = concluded.open::<Concluded<K>>();
    let (_book, spare) = admissions.open::<Admissions<K>>();
    let most = u32::from(service.sessions);
    let gate = Mutex::new(Gate::<W, F, K>::new(front, taken, rights));
    let kept = Mutex::new(Kept::<W, F::D, P, K>::new(alloc, place, concluded, spare, most));
    let account = Account::new(took, ended);
    let account = serve_gate::<W, F, P, K, L, R>(rt, alloc, service, &gate, &kept, account);
    close::<W, F, P, K>(gate.into_inner(), kept.into_inner(), account)
}

/// Serves the desks of a gate with a cache, known contents and known blobs of its own, where there is memory
/// for these.
fn serve_gate<
    W: World + Send,
    F: Front<W> + Send + Drop,
    P: Place + Send + Drop,
    K: Desks<F::D> + Send + Sync,
    L: Log + Sync,
    R: Threads + Wait + Sync,
>(
    rt: &R,
    alloc: Global,
    service: Service<'_, L>,
    gate: &Mutex<Gate<W, F, K>>,
    kept: &Mutex<Kept<W, F::D, P, K>>,
    account: Account<K>,
) -> Account<K>
    requires root { service.root.now ≡ K.root }
    requires account { service.sessions ≡ account.parts }
    requires some { 0 < service.sessions }
    requires even { IsEven account }
    ensures parts { result.parts ≡ account.parts }
    ensures even { IsEven result }
{
    let Ok(cache) = DigestCache::<W>::new(alloc, DIGEST_CACHE_LIMIT) else {
        return account;
    };
    let hashed = HashedContents::new(alloc);
    let presence = Presence::new(alloc, PRESENCE_LIMIT);
    let closed = Mutex::new(false);
    let blank = blank_for(service.slots);
    let common = Common {
        service,
        cache: &cache,
        hashed: &hashed,
        presence: &presence,
        gate,
        closed: &closed,
        kept,
    };
    share_slots::<W, F, P, K, Brand, L, R>(rt, alloc, &common, blank, account)
}

/// Has threads work that share the slots for local attempts.
fn share_slots<
    W: World + Send,
    F: Front<W> + Send + Drop,
    P: Place + Send + Drop,
    K: Desks<F::D> + Send + Sync,
    N: Places + Send + Sync,
    L: Log + Sync,
    R: Threads + Wait + Sync,
>(
    rt: &R,
    alloc: Global,
    common: &Common<'_, W, F, P, K, L>,
    blank: Blank,
    account: Account<K>,
) -> Account<K>
    requires root { common.now.service.root.now ≡ K.root }
    requires name { blank.name ≡ N.name }
    requires parts { (blank.parts ≡ N.parts) × (N.parts ≡ N.most + 1) }
    requires slots { common.now.service.slots ≡ N.most }
    requires account { common.now.service.sessions ≡ account.parts }
    requires some { 0 < common.now.service.sessions }
    requires even { IsEven account }
    ensures parts { result.parts ≡ account.parts }
    ensures even { IsEven result }
{
    let slots = Slots::<N>::new(common.service.slots, blank);
    work_all::<W, F, P, K, N, L, R>(rt, alloc, common, &slots, common.service.sessions, account)
}

/// Has so many threads work until there are no more desks. They are halved at each step, and one half
/// goes to a thread of its own, which halves it further.
#[cycle(workers)]
fn work_all<
    W: World + Send,
    F: Front<W> + Send + Drop,
    P: Place + Send + Drop,
    K: Desks<F::D> + Send + Sync,
    N: Places + Send + Sync,
    L: Log + Sync,
    R: Threads + Wait + Sync,
>(
    rt: &R,
    alloc: Global,
    common: &Common<'_, W, F, P, K, L>,
    slots: &Slots<N>,
    threads: u16,
    account: Account<K>,
) -> Account<K>
    requires root { common.now.service.root.now ≡ K.root }
    requires threads { threads ≤ account.parts }
    requires account { 0 < account.parts }
    requires even { IsEven account }
    ensures parts { result.parts ≡ account.parts }
    ensures even { IsEven result }
{
    if threads < 2 {
        return work::<W, F, P, K, N, L, R>(rt, alloc, common, slots, account);
    }
    let low = threads / 2;
    let high = threads - low;
    let mut rest = account;
    let given = rest.split(u64::from(low));
    let front = move || -> Account<K>
        requires root { common.now.service.root.now ≡ K.root }
        requires account { (low ≤ given.parts) × (0 < low) × IsEven given }
        ensures { (result.parts ≡ given.parts) × IsEven result }
    { work_all::<W, F, P, K, N, L, R>(rt, alloc, common, slots, low, given) };
    let back = move || -> Account<K>
        requires root { common.now.service.root.now ≡ K.root }
        requires account { (high ≤ rest.parts) × (0 < high) × IsEven rest }
        ensures { (result.parts ≡ rest.parts) × IsEven result }
    { work_all::<W, F, P, K, N, L, R>(rt, alloc, common, slots, high, rest) };
    let (given, rest) = join(rt, front, back);
    given.join(rest)
}

/// The next desk with its number, unless no more are asked for.
fn next_desk<W: World, F: Front<W> + Drop, K: Desks<F::D>, R: Wait>(
    rt: &R,
    gate: &Mutex<Gate<W, F, K>>,
    closed: &Mutex<bool>,
    account: &mut Account<K>,
) -> Option<(Claim<K>, F::D)>
    requires { 0 < account.old.parts }
    ensures account { MatchOption result (account.new ≡ account.old)
        (λ next. account.new ≡ one_taken account.old) }
    ensures desk { IfSome result (λ next.
        IsGiven K.coming K.gives K.given next.0.number next.1) }
{
    let mut gate = gate.lock(rt);
    let closed = *closed.lock(rt);
    gate.next(closed, account)
}

/// The first half of a session, which only who was admitted may serve.
fn begin<
    W: World + Send,
    F: Front<W> + Send + Drop,
    P: Place + Send + Drop,
    K: Desks<F::D>,
    N: Places + Send + Sync,
    L: Log,
    R: Threads + Wait + Sync,
>(
    rt: &R,
    alloc: Global,
    common: &Common<'_, W, F, P, K, L>,
    slots: &Slots<N>,
    _admission: &Admission<K>,
    desk: F::D,
) -> (
    Pending,
    Parts<
        <F::D as Desk<W>>::I,
        <F::D as Desk<W>>::O,
        <F::D as Desk<W>>::T,
        <F::D as Desk<W>>::L,
        <F::D as Desk<W>>::B,
        <F::D as Desk<W>>::R,
        <F::D as Desk<W>>::C,
    >,
)
    ensures { IsPending
        (meanings W.World F.D.I.Source F.D.O.Sink F.D.T.Sources F.D.L.Sources F.D.B.BenchMaker
        F.D.B.B.Bench F.D.R.Sources F.D.C.Caller)
        common.now.service.root.now (F.D.parts desk) result.1 result.0 }
{
    let halter = desk.halter();
    let means = Means {
        cache: common.cache,
        hashed: common.hashed,
        presence: common.presence,
        halter: &halter,
        slots,
    };
    undertake::<W, F::D, N, R>(rt, alloc, common.service.root, &means, desk.split())
}

/// Serves one desk after the other, until there are no more. Who asks for the end of the run is told
/// that it comes only where no thread asks for one more desk, but one that waits for it already.
fn work<
    W: World + Send,
    F: Front<W> + Send + Drop,
    P: Place + Send + Drop,
    K: Desks<F::D>,
    N: Places + Send + Sync,
    L: Log,
    R: Threads + Wait + Sync,
>(
    rt: &R,
    alloc: Global,
    common: &Common<'_, W, F, P, K, L>,
    slots: &Slots<N>,
    account: Account<K>,
) -> Account<K>
    requires root { common.now.service.root.now ≡ K.root }
    requires account { 0 < account.parts }
    requires even { IsEven account }
    ensures parts { result.parts ≡ account.parts }
    ensures even { IsEven result }
{
    let mut account = account;
    for _ in 0..u32::MAX {
        // (before a client is waited for, so that none is served whose session can't be kept)
        let Some(admission) = common.kept.lock(rt).admit() else {
            *common.closed.lock(rt) = true;
            break;
        };
        let Some((claim, desk)) = next_desk(rt, common.gate, common.closed, &mut account) else {
            common.kept.lock(rt).release(admission);
            break;
        };
        let (pending, parts) = begin::<W, F, P, K, N, L, R>(
            rt, alloc, common, slots, &admission, desk,
        );
        if asks_to_end(pending.read.as_slice()) {
            *common.closed.lock(rt) = true;
        }
        let mut kept = common.kept.lock(rt);
        let admitted = (admission, claim);
        kept.conclude(
            alloc,
            common.service.log,
            admitted,
            pending,
            parts,
            &mut account,
        );
    }
    account
}
