//! One session: a request is read, its attempts are made, the winner is published and the reply
//! written.

ghost use Rattle.std.specs.Prelude.{◌≡◌, ◌+◌, ℕ, List};
ghost use Rattle.rx_session.specs.declared.requests.Request.{Request};
ghost use Rattle.rx_world.specs.declared.sources.SourceEntry.{SourceEntry};
ghost use Rattle.rx_engine.specs.Answers.{asked_of};
ghost use Rattle.rx_engine.specs.Honest.{IsCleanIfDone, IsHonest};
ghost use Rattle.rx_engine.specs.Journal.{IsBoardAfter, JournalsBoard};
ghost use Rattle.rx_engine.specs.Meanings.{meanings};
ghost use Rattle.rx_engine.specs.Pending.{IsPending};
ghost use Rattle.rx_engine.specs.Quiet.{HasRoom, IsDoneOr, IsQuiet};
ghost use Rattle.rx_engine.specs.Session.{IsSession};

use crate::attempts::Means;
use crate::concluding::conclude;
use crate::desk::{Desk, Parts};
use crate::pending::{Pending, undertake};
use crate::transcripts::Transcript;
use rx_base::Text;
use rx_blobs::Presence;
use rx_board::Board;
use rx_digest_cache::DigestCache;
use rx_inputs::HashedContents;
use rx_local::{Places, Slots, blank_for};
use rx_world::{Place, World};
use std::alloc::Global;
use std::marker::Brand;
use std::sync::Wait;
use std::sync::ledger::Blank;
use std::thread::Threads;

/// What all sessions of a run share.
#[derive(Drop)]
pub struct Shared<W: World, P: Place> {
    /// The served root, as requests name it.
    pub root: Text,
    pub board: Board<P>,
    /// Digests of the source trees' files.
    pub cache: DigestCache<W>,
    /// Contents of these files that needn't be hashed again.
    pub hashed: HashedContents,
    /// Which blobs the farm is known to have.
    pub presence: Presence,
}

/// Serves one session: takes its desk apart, reads the request, answers it, and hands the desk back
/// with what was done.
pub fn serve_session<W: World + Send, D: Desk<W>, P: Place, R: Threads + Wait + Sync>(
    rt: &R,
    alloc: Global,
    number: u32,
    desk: D,
    shared: &mut Shared<W, P>,
) -> (Transcript, D)
    // The session's own part: what was read, done and written, and the reply with its cause.
    ensures session { IsSession
        (meanings W.World D.I.Source D.O.Sink D.T.Sources D.L.Sources D.B.BenchMaker D.B.B.Bench
        D.R.Sources D.C.Caller)
        shared.old.root (D.parts desk) (D.parts result.1) result.0 }
    ensures number { result.0.number ≡ number }
    // The journal's part: at most one entry, of this session's files.
    ensures journal { JournalsBoard P.Place shared.old.board shared.new.board result.0 }
    // In an honest world a Done is the clean run of the request that the input tells, on its inputs
    // as the source trees list them: so are its texts, the end that is kept and the entry.
    ensures clean { (bytes : List ℕ) (asked : Request) (entries : List SourceEntry) → IsHonest
        (meanings W.World D.I.Source D.O.Sink D.T.Sources D.L.Sources D.B.BenchMaker D.B.B.Bench
        D.R.Sources D.C.Caller)
        shared.old.root (D.parts desk) bytes asked entries → IsCleanIfDone W.tool entries
        (asked_of asked) shared.old.board.journal shared.new.board.journal result.0 }
    // Where nothing fails in an honest world, the request that the input tells is done, unless
    // memory runs out.
    ensures complete { (bytes : List ℕ) (asked : Request) → IsQuiet
        (meanings W.World D.I.Source D.O.Sink D.T.Sources D.L.Sources D.B.BenchMaker D.B.B.Bench
        D.R.Sources D.C.Caller)
        shared.old.root (D.parts desk) (D.parts result.1) bytes asked →
        HasRoom shared.old.board.limit shared.old.board.journal
        (P.faults shared.old.board.place) (P.faults shared.new.board.place) →
        IsDoneOr asked result.0.ending result.0.reply }
    ensures root { shared.new.root ≡ shared.old.root }
    ensures board { IsBoardAfter P.Place shared.old.board shared.new.board }
{
    let (pending, parts) = undertake_alone::<W, D, P, Brand, R>(
        rt,
        alloc,
        desk,
        shared,
        blank_for(1),
    );
    let mut parts = parts;
    let transcript = conclude::<W, D, P>(alloc, number, pending, &mut parts, &mut shared.board);
    (transcript, D::unite(parts))
}

/// Reads the request, and makes the attempts of its plan, with a slot of its own for the local one.
fn undertake_alone<
    W: World + Send,
    D: Desk<W>,
    P: Place,
    N: Places + Send + Sync,
    R: Threads + Wait + Sync,
>(
    rt: &R,
    alloc: Global,
    desk: D,
    shared: &Shared<W, P>,
    blank: Blank,
) -> (Pending, Parts<D::I, D::O, D::T, D::L, D::B, D::R, D::C>)
    requires name { blank.name ≡ N.name }
    requires parts { (blank.parts ≡ N.parts) × (N.parts ≡ N.most + 1) }
    requires slots { 1 ≡ N.most }
    ensures { IsPending
        (meanings W.World D.I.Source D.O.Sink D.T.Sources D.L.Sources D.B.BenchMaker D.B.B.Bench
        D.R.Sources D.C.Caller)
        shared.now.root (D.parts desk) result.1 result.0 }
{
    let halter = desk.halter();
    let slots = Slots::<N>::new(1, blank);
    let means = Means {
        cache: &shared.cache,
        hashed: &shared.hashed,
        presence: &shared.presence,
        halter: &halter,
        slots: &slots,
    };
    undertake::<W, D, N, R>(rt, alloc, shared.root.as_str(), &means, desk.split())
}
