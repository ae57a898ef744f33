//! The attempts of a session: a plan in, the ends of its attempts and the outcome to publish out.
//! Nothing here publishes or replies.

ghost use Rattle.std.specs.Prelude.{◌≡◌, ◌≤◌, [], IfOk, vec_capacity};
ghost use Rattle.rx_engine.specs.Attempts.{HasMade};
ghost use Rattle.rx_engine.specs.Meanings.{meanings};
ghost use Rattle.rx_engine.specs.RemoteAttempts.{FitsFarm};
ghost use Rattle.rx_engine.specs.Watching.{Listens};

use crate::desk::{Desk, Parts};
use crate::racing::{Raced, race};
use crate::transcripts::Tally;
use crate::winners::kept_and_won;
use rx_base::{Items, NoMemory};
use rx_blobs::Presence;
use rx_digest_cache::DigestCache;
use rx_inputs::HashedContents;
use rx_local::{Places, Slots};
use rx_race::{Blanks, Race};
use rx_scan::Gathered;
use rx_session::CancelReason;
use rx_world::{Ended, Origin, Outcome, Plan, World};
use std::alloc::Global;
use std::marker::Brand;
use std::sync::Wait;
use std::thread::Threads;

/// The most attempts of a session: one here, and one on the farm.
pub(crate) const MOST_ATTEMPTS: usize = 2;

/// What a session uses beside the parts of its desk.
#[derive(Drop)]
pub struct Means<'a, W: World, H, N: Places> {
    /// Digests of the source trees' files.
    pub cache: &'a DigestCache<W>,
    /// Contents of these files that needn't be hashed again.
    pub hashed: &'a HashedContents,
    /// Which blobs the farm is known to have.
    pub presence: &'a Presence,
    /// Ends an attempt that lost its race, and the wait for the client.
    pub halter: &'a H,
    /// So many local attempts run at once.
    pub slots: &'a Slots<N>,
}

/// What the attempts of a session are made on.
#[derive(Drop)]
pub(crate) struct Job<'a, H, N: Places> {
    /// Where attempts take memory.
    pub alloc: Global,
    pub gathered: &'a Gathered,
    /// Whether a result of the farm's action cache is taken.
    pub accept_cached: bool,
    /// Whether the client may cancel.
    pub watch: bool,
    /// Contents that needn't be hashed again.
    pub hashed: &'a HashedContents,
    /// Which blobs the farm is known to have.
    pub presence: &'a Presence,
    /// Ends an attempt that lost its race, and the wait for the client.
    pub halter: &'a H,
    /// So many local attempts run at once.
    pub slots: &'a Slots<N>,
}

/// The memory that attempts take whatever their plan. It is taken before the first one starts, so that
/// no end is lost for want of memory.
#[derive(Drop)]
pub(crate) struct Room {
    /// Room for the ends of all attempts.
    pub ends: Vec<Ended>,
    /// Their race.
    pub race: Race,
    ghost empty: { ends.items ≡ [] },
    ghost enough: { 2 ≤ vec_capacity ends },
    ghost fresh: { race.events ≡ [] },
}

/// An outcome that is to be published, and where it comes from.
#[derive(Debug, Drop)]
pub struct Won {
    /// The exit, the texts, and the files that are placed.
    pub outcome: Outcome,
    /// Which attempt made it.
    pub origin: Origin,
}

/// What the client said behind its request while the attempts ran.
#[derive(Debug, Drop)]
pub(crate) struct Heard {
    pub bytes: Vec<u8>,
    /// Why the race was cancelled, where it was.
    pub cancelled: Option<CancelReason>,
}

/// How the attempts of a plan ended.
#[derive(Debug, Drop)]
pub(crate) struct Attempted {
    pub tally: Tally,
    /// What is published of them.
    pub won: Option<Won>,
    pub heard: Heard,
}

impl Room {
    /// That of the attempts of a plan.
    pub(crate) fn new(alloc: Global, plan: Plan) -> Result<Room, NoMemory>
        ensures { IfOk result (λ room. room.race.plan ≡ plan) }
    {
        Ok(Room {
            ends: Vec::with_capacity(alloc, MOST_ATTEMPTS)?,
            race: Race::new(alloc, plan)?,
        })
    }
}

/// Makes the attempts of the plan on what was gathered, in a race of their own.
pub(crate) fn make_attempts<
    W: World + Send,
    D: Desk<W>,
    N: Places + Send + Sync,
    R: Threads + Wait + Sync,
>(
    rt: &R,
    job: &Job<'_, D::H, N>,
    room: Room,
    parts: Parts<D::I, D::O, D::T, D::L, D::B, D::R, D::C>,
) -> (Attempted, Parts<D::I, D::O, D::T, D::L, D::B, D::R, D::C>)
    requires fits { FitsFarm job.now.gathered.now }
    requires plan { room.race.plan ≡ job.now.gathered.now.plan }
    ensures made { HasMade
        (meanings W.World D.I.Source D.O.Sink D.T.Sources D.L.Sources D.B.BenchMaker D.B.B.Bench
        D.R.Sources D.C.Caller)
        job.now.gathered.now job.now.accept_cached parts result.1 result.0 }
    ensures heard { Listens D.I.Source job.now.watch parts.input result.1.input
        result.0.heard result.0.tally.passes.cancel }
    ensures output { result.1.output ≡ parts.output }
    ensures tree { result.1.tree ≡ parts.tree }
{
    let plan = job.gathered.plan;
    let Room { ends, race: own } = room;
    let (raced, parts) = race::<W, Brand, D, N, R>(rt, job, own, Blanks::new(), parts);
    let Raced {
        here,
        there,
        passes,
        heard,
    } = raced;
    (kept_and_won(plan, ends, passes, here, there, heard), parts)
}
