//! A session until something is published: its request is read, and the attempts of its plan are
//! made, while a client that may cancel is heard. Nothing here publishes or writes.

ghost use Rattle.std.specs.Prelude.{◌≡◌, ◌≤◌, [], Err, IfOk, IsErrOf, None, Ok, OnOk, length};
ghost use Rattle.std.specs.Io.KnownBytes.{Consumes};
ghost use Rattle.rx_session.specs.declared.bad.SessionFault.TheVariants.{ReadFault as read_fault};
ghost use Rattle.rx_session.specs.Bad.{Decodes};
ghost use Rattle.rx_session.specs.Frames.{EndsRead, behind, incoming_of, reach_of};
ghost use Rattle.rx_world.specs.Causes.{Rose};
ghost use Rattle.rx_engine.specs.Meanings.{meanings};
ghost use Rattle.rx_engine.specs.Pending.{HasOutputsIfAsked, IsEndOfRun, IsPending, IsRefusalOf, IsStarved};
ghost use Rattle.rx_engine.specs.Watching.{heard_in};

use crate::answered::{Answered, or_give_up, refuse};
use crate::answers::answer;
use crate::attempts::{Attempted, Means};
use crate::desk::{Desk, Parts};
use rx_base::Bytes;
use rx_local::Places;
use rx_session::{CANCEL, Incoming, Request, SHUTDOWN_DONE, SessionFault, read_incoming};
use rx_world::{Source, World};
use std::alloc::{AllocError, Global};
use std::sync::Wait;
use std::thread::Threads;

/// What a session came to before anything is published: what its first half hands to the second one.
#[derive(Drop)]
pub struct Pending {
    /// The bytes that were read from the input.
    pub read: Bytes,
    /// The request, where the bytes are one.
    pub(crate) request: Option<Request>,
    pub(crate) stage: Stage,
}

/// What was made of what was read.
#[derive(Drop)]
pub(crate) enum Stage {
    /// The input was lost.
    Lost,
    /// The end of the run was asked for, and this is the frame that says that it comes.
    ShutDown { frame: Vec<u8> },
    /// No attempt was made, and this is the answer. Without one, memory ran out even for that.
    Refused { answered: Option<Answered> },
    /// The attempts were made.
    Attempted { attempted: Attempted },
}

/// The first half of a session: reads what comes in, and makes the attempts of the plan of a request below
/// the served root. It may run beside the first halves of other sessions, with the same means.
pub fn undertake<W: World + Send, D: Desk<W>, N: Places + Send + Sync, R: Threads + Wait + Sync>(
    rt: &R,
    alloc: Global,
    root: &str,
    means: &Means<'_, W, D::H, N>,
    parts: Parts<D::I, D::O, D::T, D::L, D::B, D::R, D::C>,
) -> (Pending, Parts<D::I, D::O, D::T, D::L, D::B, D::R, D::C>)
    ensures { IsPending
        (meanings W.World D.I.Source D.O.Sink D.T.Sources D.L.Sources D.B.BenchMaker D.B.B.Bench
        D.R.Sources D.C.Caller)
        root.now parts result.1 result.0 }
{
    let mut parts = parts;
    let mut read = Vec::new(alloc);
    match read_asked(alloc, &mut parts.input, root, &mut read) {
        Ok(Incoming::Request(request)) => {
            if read.reserve(CANCEL.len()).is_err() {
                return (starved(alloc, read, request), parts);
            }
            let (stage, parts) = answer::<W, D, N, R>(rt, alloc, &request, parts, means);
            read.extend_from_slice(heard_in(&stage)).unwrap();
            let pending = Pending {
                read: Bytes::from_vec(read),
                request: Some(request),
                stage,
            };
            (pending, parts)
        }
        Ok(Incoming::Shutdown) => (unasked(read, end_of_run(alloc)), parts),
        Err(fault) => (unasked(read, refusal(alloc, fault)), parts),
    }
}

/// A session without memory for what its client may say behind the request.
fn starved(alloc: Global, read: Vec<u8>, request: Request) -> Pending
    ensures { IsStarved read.items request result }
{
    Pending {
        read: Bytes::from_vec(read),
        request: Some(request),
        stage: Stage::Refused {
            answered: or_give_up(alloc, Err(AllocError)),
        },
    }
}

/// What was heard while a session came to this.
fn heard_in(stage: &Stage) -> &[u8]
    ensures { result.now ≡ heard_in stage.now }
{
    match stage {
        Stage::Attempted { attempted } => attempted.heard.bytes.as_slice(),
        _ => &[],
    }
}

/// A session whose bytes are no request.
fn unasked(read: Vec<u8>, stage: Stage) -> Pending
    ensures { result ≡ record { read = read.items; request = None; stage = stage } }
{
    Pending {
        read: Bytes::from_vec(read),
        request: None,
        stage,
    }
}

/// Reads what comes in. Of a request that the bytes are, the outputs stand below its working directory.
fn read_asked<S: Source>(
    alloc: Global,
    source: &mut S,
    root: &str,
    read: &mut Vec<u8>,
) -> Result<Incoming, SessionFault>
    ensures read { Consumes (S.left source.old) (S.left source.new) read.new.items }
    ensures reach { length read.new.items ≤ reach_of read.new.items }
    ensures incoming { Decodes (λ incoming. incoming) result (incoming_of root.now read.new.items) }
    ensures outputs { IfOk result HasOutputsIfAsked }
    ensures end { EndsRead (S.left source.new) result }
    ensures bare { OnOk result (behind read.new.items ≡ []) }
    ensures later { S.faults source.old ≤ S.faults source.new }
    ensures failed { IsErrOf result read_fault → Rose (S.faults source.old) (S.faults source.new) }
{
    read_incoming(alloc, source, root, read)
}

/// The stage of a session that is asked to end the run. Its answer takes memory, which may be wanting.
fn end_of_run(alloc: Global) -> Stage
    ensures { IsEndOfRun result }
{
    match Vec::from_slice(alloc, &SHUTDOWN_DONE) {
        Ok(frame) => Stage::ShutDown { frame },
        Err(_) => Stage::Refused { answered: None },
    }
}

/// The stage of a session whose bytes are no request.
fn refusal(alloc: Global, fault: SessionFault) -> Stage
    ensures { IsRefusalOf fault result }
{
    match fault {
        SessionFault::Bad(bad) => Stage::Refused {
            answered: or_give_up(alloc, refuse(alloc, bad)),
        },
        SessionFault::NoMemory => Stage::Refused {
            answered: or_give_up(alloc, Err(AllocError)),
        },
        SessionFault::ReadFault => Stage::Lost,
    }
}
