//! From a request to the attempts that are made of it: what its command runs on, and the attempts.
//! Nothing here publishes.

ghost use Rattle.std.specs.Prelude.{◌≡◌, All, IfErr, IfOk, IfSome};
ghost use Rattle.rx_reach.specs.Explored.{HaveDigests};
ghost use Rattle.rx_scan.specs.Digests.{IsAsListed};
ghost use Rattle.rx_scan.specs.Gathering.{Gathers, IsOrderly};
ghost use Rattle.rx_engine.specs.Answers.{HasOutputsBelow, asked_of};
ghost use Rattle.rx_engine.specs.Attempts.{AreLaterThan, HasMade};
ghost use Rattle.rx_engine.specs.Gathers.{HasGatheredFor, HasNotGathered};
ghost use Rattle.rx_engine.specs.Meanings.{meanings};
ghost use Rattle.rx_engine.specs.Pending.{HasAnswered};
ghost use Rattle.rx_engine.specs.RemoteAttempts.{FitsFarm};
ghost use Rattle.rx_engine.specs.Watching.{Listens, ListensIn};

use crate::answered::{or_give_up, refuse_gathering};
use crate::attempts::{Attempted, Job, Means, Room, make_attempts};
use crate::choices::{choice_of, client_runs};
use crate::desk::{Desk, Parts};
use crate::pending::Stage;
use rx_digest_cache::DigestCache;
use rx_local::Places;
use rx_scan::{GatherFault, Gathered, gather};
use rx_session::{Request, command_for, declared_inputs};
use rx_world::{Sources, World};
use std::alloc::Global;
use std::sync::Wait;
use std::thread::Threads;

/// What the command of a request runs on, and the memory that its attempts take.
struct Prepared {
    gathered: Gathered,
    /// Whether a result of the farm's action cache is taken.
    accept_cached: bool,
    /// Whether the client may cancel.
    watch: bool,
    room: Room,
}

/// Gathers what the command of a request runs on from the one source tree, and makes the attempts,
/// each of which reads it from its own.
pub(crate) fn answer<
    W: World + Send,
    D: Desk<W>,
    N: Places + Send + Sync,
    R: Threads + Wait + Sync,
>(
    rt: &R,
    alloc: Global,
    request: &Request,
    parts: Parts<D::I, D::O, D::T, D::L, D::B, D::R, D::C>,
    means: &Means<'_, W, D::H, N>,
) -> (Stage, Parts<D::I, D::O, D::T, D::L, D::B, D::R, D::C>)
    requires { HasOutputsBelow request.now }
    ensures answered { HasAnswered
        (meanings W.World D.I.Source D.O.Sink D.T.Sources D.L.Sources D.B.BenchMaker D.B.B.Bench
        D.R.Sources D.C.Caller)
        request.now parts result.1 result.0 }
    ensures later { AreLaterThan
        (meanings W.World D.I.Source D.O.Sink D.T.Sources D.L.Sources D.B.BenchMaker D.B.B.Bench
        D.R.Sources D.C.Caller)
        parts result.1 }
    ensures heard { ListensIn D.I.Source request.now.watch parts.input result.1.input result.0 }
    ensures output { result.1.output ≡ parts.output }
{
    let mut parts = parts;
    match prepare::<W, D>(rt, alloc, request, &mut parts, means.cache) {
        Ok(prepared) => {
            let (attempted, parts) = run::<W, D, N, R>(rt, alloc, prepared, parts, means);
            (Stage::Attempted { attempted }, parts)
        }
        Err(fault) => {
            let refused = refuse_gathering(alloc, fault, client_runs(request));
            let answered = or_give_up(alloc, refused);
            (Stage::Refused { answered }, parts)
        }
    }
}

/// Gathers what the command of a request runs on.
fn prepare<W: World, D: Desk<W>>(
    rt: &impl Wait,
    alloc: Global,
    request: &Request,
    parts: &mut Parts<D::I, D::O, D::T, D::L, D::B, D::R, D::C>,
    cache: &DigestCache<W>,
) -> Result<Prepared, GatherFault>
    requires { HasOutputsBelow request.now }
    ensures ok { IfOk result (λ p. HasGatheredFor
        (meanings W.World D.I.Source D.O.Sink D.T.Sources D.L.Sources D.B.BenchMaker D.B.B.Bench
        D.R.Sources D.C.Caller)
        request.now parts.old parts.new p.gathered) }
    ensures fits { IfOk result (λ p. FitsFarm p.gathered) }
    ensures accepts { IfOk result (λ p. p.accept_cached ≡ request.now.accept_cached) }
    ensures watches { IfOk result (λ p. p.watch ≡ request.now.watch) }
    ensures plan { IfOk result (λ p. p.room.race.plan ≡ p.gathered.plan) }
    ensures err { IfErr result (HasNotGathered
        (meanings W.World D.I.Source D.O.Sink D.T.Sources D.L.Sources D.B.BenchMaker D.B.B.Bench
        D.R.Sources D.C.Caller)
        request.now parts.old parts.new) }
    ensures input { parts.new.input ≡ parts.old.input }
    ensures output { parts.new.output ≡ parts.old.output }
    ensures tree_local { parts.new.tree_local ≡ parts.old.tree_local }
    ensures benches { parts.new.benches ≡ parts.old.benches }
    ensures tree_remote { parts.new.tree_remote ≡ parts.old.tree_remote }
    ensures farm { parts.new.farm ≡ parts.old.farm }
{
    let gathered = gather_for::<W, D::T>(rt, alloc, request, &mut parts.tree, cache)?;
    let room = Room::new(alloc, gathered.plan)?;
    Ok(Prepared {
        gathered,
        accept_cached: request.accept_cached,
        watch: request.watch,
        room,
    })
}

/// Gathers what the command of a request runs on from a source tree.
fn gather_for<W: World, S: Sources<W>>(
    rt: &impl Wait,
    alloc: Global,
    request: &Request,
    sources: &mut S,
    cache: &DigestCache<W>,
) -> Result<Gathered, GatherFault>
    ensures gathered { Gathers W.World S.Sources sources.old sources.new
        (asked_of request.now) result }
    ensures orderly { IfOk result (IsOrderly (asked_of request.now)) }
    ensures digests { IfOk result (λ gathered. W.stamps_honest →
        HaveDigests W.content gathered.files) }
    ensures listed { IfOk result (λ gathered. W.stamps_honest → S.keeps sources.old →
        IfSome (S.listed sources.old) (λ entries. All (IsAsListed entries) gathered.files)) }
{
    let command = command_for(alloc, request)?;
    let inputs = declared_inputs(alloc, request)?;
    gather::<W, S>(
        rt,
        alloc,
        &command,
        request.kind,
        inputs.as_slice(),
        choice_of(request),
        sources,
        cache,
    )
}

/// Makes the attempts on what was gathered.
fn run<W: World + Send, D: Desk<W>, N: Places + Send + Sync, R: Threads + Wait + Sync>(
    rt: &R,
    alloc: Global,
    prepared: Prepared,
    parts: Parts<D::I, D::O, D::T, D::L, D::B, D::R, D::C>,
    means: &Means<'_, W, D::H, N>,
) -> (Attempted, Parts<D::I, D::O, D::T, D::L, D::B, D::R, D::C>)
    requires fits { FitsFarm prepared.gathered }
    requires plan { prepared.room.race.plan ≡ prepared.gathered.plan }
    ensures made { HasMade
        (meanings W.World D.I.Source D.O.Sink D.T.Sources D.L.Sources D.B.BenchMaker D.B.B.Bench
        D.R.Sources D.C.Caller)
        prepared.gathered prepared.accept_cached parts result.1 result.0 }
    ensures later { AreLaterThan
        (meanings W.World D.I.Source D.O.Sink D.T.Sources D.L.Sources D.B.BenchMaker D.B.B.Bench
        D.R.Sources D.C.Caller)
        parts result.1 }
    ensures heard { Listens D.I.Source prepared.watch parts.input result.1.input
        result.0.heard result.0.tally.passes.cancel }
    ensures output { result.1.output ≡ parts.output }
    ensures tree { result.1.tree ≡ parts.tree }
{
    let Prepared {
        gathered,
        accept_cached,
        watch,
        room,
    } = prepared;
    let job = Job {
        alloc,
        gathered: &gathered,
        accept_cached,
        watch,
        hashed: means.hashed,
        presence: means.presence,
        halter: means.halter,
        slots: means.slots,
    };
    make_attempts::<W, D, N, R>(rt, &job, room, parts)
}
