//! The top call: the desks of a front are served, one after the other.

ghost use Rattle.std.specs.Prelude.{◌≡◌, ◌≤◌, ◌↔◌, List, [], IfSome, None};
ghost use Rattle.std.specs.List.{list_any};
ghost use Rattle.rx_board.specs.Journal.{HoldsLast, IsKeptBy, count_short};
ghost use Rattle.rx_engine.specs.Meanings.{meanings};
ghost use Rattle.rx_world.specs.declared.outcomes.FileOut.{FileOut};
ghost use Rattle.rx_daemon.specs.CoreRuns.{IsCoreRun, rules_of};
ghost use Rattle.rx_daemon.specs.Proxy.{EndsWhereAsked, HasStatus, IsEndedBy, IsLegal, IsStop, Runs, is_sink_lost, is_source_lost, status_of, status_over};
ghost use Rattle.rx_daemon.specs.Serves.{RunsDone, Serves};
ghost use Rattle.rx_daemon.specs.Words.{root_in};

use crate::asked::asks_to_end;
use crate::fronts::Front;
use crate::words::root_in;
use rx_base::Text;
use rx_blobs::{PRESENCE_LIMIT, Presence};
use rx_board::{Board, Entry, JOURNAL_LIMIT};
use rx_digest_cache::{DIGEST_CACHE_LIMIT, DigestCache};
use rx_engine::{Ending, Shared, Transcript, serve_session};
use rx_inputs::HashedContents;
use rx_world::{Place, World};
use std::alloc::Global;
use std::sync::Wait;
use std::thread::Threads;

/// Why no more desks are asked for.
#[derive(Clone, Copy, Debug, PartialEq, Eq)]
enum Stop {
    /// The front has no more.
    Ended,
    /// The front failed.
    FrontLost,
    /// Memory ran out between two sessions.
    NoMemory,
    /// 4,294,967,295 desks were served.
    Spent,
    /// A session was asked to end the run.
    ShutDown,
}

/// What a run hands back.
#[derive(Drop)]
pub struct Ran<W: World, F: Front<W>, P> {
    /// 0 the front ended, or a session was asked to end the run; 2 the words are none that are known;
    /// 3 the front failed; 4 memory ran out between two sessions; of sessions one after the other alone,
    /// 5 a session lost its input and 6 a session lost its output; 7 as many desks were served as
    /// there are numbers. Of several, the first of 3, 4, 5, 6, 7.
    pub status: u8,
    pub front: F,
    pub place: P,
    pub journal: Vec<Entry>,
    pub transcripts: Vec<Transcript>,
    /// The desk of each transcript, as its session handed it back.
    pub desks: Vec<F::D>,
}

/// Serves the desks of a front, one after the other.
fn serve_all<W: World + Send, F: Front<W>, P: Place, R: Threads + Wait + Sync>(
    rt: &R,
    alloc: Global,
    front: &mut F,
    shared: &mut Shared<W, P>,
    transcripts: &mut Vec<Transcript>,
    desks: &mut Vec<F::D>,
) -> Stop
    requires transcripts { transcripts.old.items ≡ [] }
    requires desks { desks.old.items ≡ [] }
    ensures runs { Runs (F.coming front.old) (F.coming front.new) (Serves
        (meanings W.World F.D.I.Source F.D.O.Sink F.D.T.Sources F.D.L.Sources F.D.B.BenchMaker
        F.D.B.B.Bench F.D.R.Sources F.D.C.Caller) F.D.parts shared.old.root shared.old.board.limit)
        shared.old.board.journal shared.new.board.journal
        (P.faults shared.old.board.place) (P.faults shared.new.board.place)
        desks.new.items transcripts.new.items }
    ensures stop { IsStop (F.coming front.old) (F.coming front.new)
        (F.faults front.old) (F.faults front.new) transcripts.new.items result }
    // After a session that was asked to end the run the front isn't asked.
    ensures ended { IsEndedBy result transcripts.new.items }
    ensures opening { P.opening shared.new.board.place ≡ P.opening shared.old.board.place }
{
    for served in 0..u32::MAX {
        if transcripts.reserve(1).is_err() {
            return Stop::NoMemory;
        }
        if desks.reserve(1).is_err() {
            return Stop::NoMemory;
        }
        match front.next() {
            Ok(None) => return Stop::Ended,
            Err(_) => return Stop::FrontLost,
            Ok(Some(desk)) => {
                let (transcript, desk) = serve_session::<W, F::D, P, R>(
                    rt,
                    alloc,
                    served + 1,
                    desk,
                    shared,
                );
                let is_last = asks_to_end(transcript.read.as_slice());
                transcripts.push(transcript).unwrap();
                desks.push(desk).unwrap();
                if is_last {
                    return Stop::ShutDown;
                }
            }
        }
    }
    Stop::Spent
}

/// Whether a session ended so.
fn is_source_lost(ending: Ending) -> bool
    ensures { result ≡ is_source_lost ending }
{
    matches!(ending, Ending::SourceLost)
}

fn is_sink_lost(ending: Ending) -> bool
    ensures { result ≡ is_sink_lost ending }
{
    matches!(ending, Ending::SinkLost)
}

fn any_source_lost(transcripts: &[Transcript]) -> bool
    ensures { result ≡ list_any (λ t. is_source_lost t.ending) transcripts.now }
{
    transcripts.iter().any(|t| is_source_lost(t.ending))
}

fn any_sink_lost(transcripts: &[Transcript]) -> bool
    ensures { result ≡ list_any (λ t. is_sink_lost t.ending) transcripts.now }
{
    transcripts.iter().any(|t| is_sink_lost(t.ending))
}

/// The status where the front was asked as often as it may be.
fn status_over(otherwise: u8, transcripts: &[Transcript]) -> u8
    ensures { result ≡ status_over otherwise transcripts.now }
{
    if any_source_lost(transcripts) {
        return 5;
    }
    if any_sink_lost(transcripts) {
        return 6;
    }
    otherwise
}

fn status_of(stop: Stop, transcripts: &[Transcript]) -> u8
    ensures { result ≡ status_of stop transcripts.now }
{
    match stop {
        Stop::FrontLost => 3,
        Stop::NoMemory => 4,
        Stop::Ended | Stop::ShutDown => status_over(0, transcripts),
        Stop::Spent => status_over(7, transcripts),
    }
}

/// Serves where the words are known, and answers the status.
fn serve_words<W: World + Send, F: Front<W>, P: Place, R: Threads + Wait + Sync>(
    rt: &R,
    alloc: Global,
    root: &str,
    front: &mut F,
    board: Board<P>,
    transcripts: &mut Vec<Transcript>,
    desks: &mut Vec<F::D>,
) -> (u8, Board<P>)
    requires transcripts { transcripts.old.items ≡ [] }
    requires desks { desks.old.items ≡ [] }
    ensures runs { Runs (F.coming front.old) (F.coming front.new) (Serves
        (meanings W.World F.D.I.Source F.D.O.Sink F.D.T.Sources F.D.L.Sources F.D.B.BenchMaker
        F.D.B.B.Bench F.D.R.Sources F.D.C.Caller) F.D.parts root.now board.limit)
        board.journal result.1.journal (P.faults board.place) (P.faults result.1.place)
        desks.new.items transcripts.new.items }
    ensures status { HasStatus (F.coming front.old) (F.coming front.new)
        (F.faults front.old) (F.faults front.new) result.0 transcripts.new.items }
    ensures ended { EndsWhereAsked result.0 transcripts.new.items }
    ensures opening { P.opening result.1.place ≡ P.opening board.place }
{
    let Ok(root) = Text::copy_of(alloc, root) else {
        return (4, board);
    };
    let Ok(cache) = DigestCache::<W>::new(alloc, DIGEST_CACHE_LIMIT) else {
        return (4, board);
    };
    let mut shared = Shared {
        root,
        board,
        cache,
        hashed: HashedContents::new(alloc),
        presence: Presence::new(alloc, PRESENCE_LIMIT),
    };
    let stop = serve_all::<W, F, P, R>(rt, alloc, front, &mut shared, transcripts, desks);
    let status = status_of(stop, transcripts);
    let Shared {
        root: _,
        board,
        cache: _,
        hashed: _,
        presence: _,
    } = shared;
    (status, board)
}

/// Serves the desks of a front, one after the other, and hands everything back. The words are
/// those of `exec` or of `serve`.
pub fn run_proxy<W: World + Send, F: Front<W>, P: Place, R: Threads + Wait + Sync>(
    rt: &R,
    alloc: Global,
    words: &[String],
    front: F,
    place: P,
) -> Ran<W, F, P>
    requires opening { P.contents place ≡ P.opening place }
    requires quiet { P.faults place ≡ 0 }
    // Nothing is done where the words aren't known.
    ensures usage { result.status ≡ 2 ↔ (root_in words.now ≡ None) }
    ensures unused { root_in words.now ≡ None →
        (result.front ≡ front) × (result.place ≡ place) × (result.transcripts.items ≡ []) }
    // Each desk that left the front has its transcript, with its own part and its part of the
    // journal. In an honest world a Done is the clean run of the request that its input tells, on its
    // inputs as the source trees list them. Where nothing fails in an honest world, the request that
    // its input tells is done, unless memory runs out.
    ensures sessions { IfSome (root_in words.now) (λ root. RunsDone
        (F.coming front) (F.coming result.front)
        (meanings W.World F.D.I.Source F.D.O.Sink F.D.T.Sources F.D.L.Sources F.D.B.BenchMaker
        F.D.B.B.Bench F.D.R.Sources F.D.C.Caller) F.D.parts root JOURNAL_LIMIT
        result.journal.items (P.faults result.place) result.desks.items result.transcripts.items) }
    // There are steps of the core that lead to this journal and to these sessions: to each race,
    // publication and reply.
    ensures core { (files : List FileOut) → IfSome (root_in words.now) (λ root. IsCoreRun (rules_of
        (meanings W.World F.D.I.Source F.D.O.Sink F.D.T.Sources F.D.L.Sources F.D.B.BenchMaker
        F.D.B.B.Bench F.D.R.Sources F.D.C.Caller))
        files JOURNAL_LIMIT result.journal.items result.transcripts.items) }
    // The journal is the sessions' entries, in their order.
    ensures legal { IsLegal 1 result.journal.items result.transcripts.items }
    // The place holds what the journal leaves of its opening contents: at each path the last entry's file.
    ensures place { IsKeptBy (P.opening place) (P.contents result.place) result.journal.items }
    ensures last { HoldsLast (P.opening place) (P.contents result.place) result.journal.items }
    // There are at most as many short entries as the place had faults.
    ensures short { count_short result.journal.items ≤ P.faults result.place }
    // Each status has its cause.
    ensures status { IfSome (root_in words.now) (λ root. HasStatus
        (F.coming front) (F.coming result.front) (F.faults front) (F.faults result.front)
        result.status result.transcripts.items) }
    // Where a session was asked to end the run, no desk left the front after its own.
    ensures ended { EndsWhereAsked result.status result.transcripts.items }
{
    let mut front = front;
    let mut transcripts = Vec::new(alloc);
    let mut desks = Vec::new(alloc);
    let Some(root) = root_in(words) else {
        return Ran {
            status: 2,
            front,
            place,
            journal: Vec::new(alloc),
            transcripts,
            desks,
        };
    };
    let board = Board::new(alloc, place, JOURNAL_LIMIT);
    let (status, board) = serve_words::<W, F, P, R>(
        rt,
        alloc,
        root,
        &mut front,
        board,
        &mut transcripts,
        &mut desks,
    );
    let (place, journal) = board.into_parts();
    Ran {
        status,
        front,
        place,
        journal,
        transcripts,
        desks,
    }
}
