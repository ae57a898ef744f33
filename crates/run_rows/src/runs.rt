//! Runs of plans: of the whole proxy, and of one session on a board with a limit.

ghost use Rattle.std.specs.Prelude.{◌≡◌, IfOk};

use crate::desks::{ListFront, MeetingDesk, MemoryDesk, ScriptedDesk, Unheard};
use crate::meetings::Hall;
use crate::plans::{DeskPlan, FailingCall, Part, script_for};
use crate::seats::Hands;
use crate::trees::{crowd_of, desk_of};
use crate::worlds::RowWorld;
use rx_base::{Items, NoMemory, Text};
use rx_blobs::Presence;
use rx_board::{Board, Entry};
use rx_daemon::{Ran, RanInThreads, ServedDesk, run_in_threads, run_proxy};
use rx_digest_cache::DigestCache;
use rx_engine::{Shared, Transcript, serve_session};
use rx_exec_messages::Caller;
use rx_fakes::MemoryPlace;
use rx_inputs::HashedContents;
use std::alloc::Global;
use std::sync::Arc;
use std::thread::Threads;

/// The root of all requests in rows.
const ROOT: &str = "/r";

/// How many digests of a farm's blobs are kept for one session.
const PRESENCE: usize = 1000;

/// What is left behind a run.
#[derive(Drop)]
pub(crate) struct Finished {
    /// The status of a run of the whole proxy.
    pub status: Option<u8>,
    pub place: MemoryPlace,
    pub journal: Vec<Entry>,
    pub transcripts: Vec<Transcript>,
    pub desks: Vec<MemoryDesk>,
    /// Of each session how many had published before it.
    pub order: Vec<u64>,
}

/// The desks of plans, in their order. Their meetings are in one hall.
fn desks_of<H: Hands>(
    rt: &H,
    alloc: Global,
    plans: Vec<DeskPlan>,
) -> Result<Vec<ScriptedDesk<H>>, NoMemory> {
    let hall = Arc::new(alloc, Hall::new(alloc))?;
    let mut desks = Vec::new(alloc);
    for plan in plans {
        match plan.meeting.crowd {
            Some(crowd) => desks.append(&mut crowd_of(*rt, alloc, &hall, plan, crowd.missing)?)?,
            None => desks.push(desk_of(*rt, alloc, &hall, plan)?)?,
        }
    }
    Ok(desks)
}

/// The desk of a plan, alone in its hall.
fn desk_alone<H: Hands>(
    rt: &H,
    alloc: Global,
    plan: DeskPlan,
) -> Result<ScriptedDesk<H>, NoMemory> {
    let hall = Arc::new(alloc, Hall::new(alloc))?;
    desk_of(*rt, alloc, &hall, plan)
}

/// The front that gives desks of these plans.
fn front_of<H: Hands>(
    rt: &H,
    alloc: Global,
    plans: Vec<DeskPlan>,
    failing: &[FailingCall],
) -> Result<ListFront<ScriptedDesk<H>>, NoMemory> {
    let desks = desks_of(rt, alloc, plans)?;
    Ok(ListFront {
        all: desks.len(),
        desks,
        script: script_for(alloc, failing, Part::Front)?,
    })
}

/// An empty place.
fn place_of(alloc: Global, failing: &[FailingCall]) -> Result<MemoryPlace, NoMemory>
    ensures opening { IfOk result (λ place. place.files ≡ place.opening) }
    ensures quiet { IfOk result (λ place. place.script.faults ≡ 0) }
{
    let script = script_for(alloc, failing, Part::Place)?;
    MemoryPlace::new(alloc, Items::new(alloc), script)
}

/// What is left behind a run of the whole proxy.
fn left_behind<H: Hands + Send + Sync>(
    alloc: Global,
    ran: Ran<RowWorld, ListFront<ScriptedDesk<H>>, MemoryPlace>,
) -> Result<Finished, NoMemory> {
    let mut desks = Vec::new(alloc);
    let mut order = Vec::new(alloc);
    for desk in ran.desks {
        order.push(desks.len() as u64)?;
        desks.push(desk.apart())?;
    }
    Ok(Finished {
        status: Some(ran.status),
        place: ran.place,
        journal: ran.journal,
        transcripts: ran.transcripts,
        desks,
        order,
    })
}

/// What is left behind a run with the sessions in threads.
fn left_behind_threads<H: Hands + Send + Sync>(
    alloc: Global,
    ran: RanInThreads<RowWorld, ListFront<ScriptedDesk<H>>, MemoryPlace>,
) -> Result<Finished, NoMemory> {
    let mut transcripts = Vec::new(alloc);
    let mut desks = Vec::new(alloc);
    let mut order = Vec::new(alloc);
    for served in ran.served {
        let ServedDesk {
            transcript,
            desk,
            before,
            ..
        } = served;
        order.push(before as u64)?;
        transcripts.push(transcript)?;
        desks.push(desk.apart())?;
    }
    Ok(Finished {
        status: Some(ran.status),
        place: ran.place,
        journal: ran.journal,
        transcripts,
        desks,
        order,
    })
}

/// Runs the proxy over these desks, one after the other, with these words of the command line.
pub(crate) fn run<H: Hands + Threads + Send + Sync>(
    rt: &H,
    alloc: Global,
    words: &[String],
    plans: Vec<DeskPlan>,
    failing: &[FailingCall],
) -> Result<Finished, NoMemory> {
    let front = front_of(rt, alloc, plans, failing)?;
    let place = place_of(alloc, failing)?;
    let ran = run_front(rt, alloc, words, front, place);
    left_behind(alloc, ran)
}

/// Runs the proxy over a front, one session after the other. It takes desks with any client of a farm:
/// that a desk may go to another thread follows from the same of its client.
fn run_front<C: Caller<RowWorld> + Send + Drop, H: Hands + Threads + Send + Sync>(
    rt: &H,
    alloc: Global,
    words: &[String],
    front: ListFront<MeetingDesk<C, H>>,
    place: MemoryPlace,
) -> Ran<RowWorld, ListFront<MeetingDesk<C, H>>, MemoryPlace>
    requires opening { place.files ≡ place.opening }
    requires quiet { place.script.faults ≡ 0 }
{
    run_proxy::<RowWorld, _, _, _>(rt, alloc, words, front, place)
}

/// The same with the sessions in threads.
pub(crate) fn run_threads<H: Hands + Threads + Send + Sync>(
    rt: &H,
    alloc: Global,
    words: &[String],
    plans: Vec<DeskPlan>,
    failing: &[FailingCall],
) -> Result<Finished, NoMemory> {
    let front = front_of(rt, alloc, plans, failing)?;
    let place = place_of(alloc, failing)?;
    let ran = run_front_in_threads(rt, alloc, words, front, place);
    left_behind_threads(alloc, ran)
}

/// The same over a front, with the sessions in threads.
fn run_front_in_threads<C: Caller<RowWorld> + Send + Drop, H: Hands + Threads + Send + Sync>(
    rt: &H,
    alloc: Global,
    words: &[String],
    front: ListFront<MeetingDesk<C, H>>,
    place: MemoryPlace,
) -> RanInThreads<RowWorld, ListFront<MeetingDesk<C, H>>, MemoryPlace>
    requires opening { place.files ≡ place.opening }
    requires quiet { place.script.faults ≡ 0 }
{
    run_in_threads::<RowWorld, _, _, _, _>(rt, alloc, words, front, place, &Unheard)
}

/// Serves one desk as session 1, on a board whose journal takes so many entries.
pub(crate) fn serve<H: Hands + Threads + Send + Sync>(
    rt: &H,
    alloc: Global,
    limit: usize,
    plan: DeskPlan,
    failing: &[FailingCall],
) -> Result<Finished, NoMemory> {
    let mut shared = Shared {
        root: Text::copy_of(alloc, ROOT)?,
        board: Board::new(alloc, place_of(alloc, failing)?, limit),
        cache: DigestCache::new(alloc, 1)?,
        hashed: HashedContents::new(alloc),
        presence: Presence::new(alloc, PRESENCE),
    };
    let desk = desk_alone(rt, alloc, plan)?;
    let (transcript, desk) = serve_desk(rt, alloc, desk, &mut shared);
    let (place, journal) = shared.board.into_parts();
    Ok(Finished {
        status: None,
        place,
        journal,
        transcripts: vec![in alloc; transcript]?,
        desks: vec![in alloc; desk.apart()]?,
        order: vec![in alloc; 0]?,
    })
}

/// Serves a desk as session 1.
fn serve_desk<C: Caller<RowWorld> + Send + Drop, H: Hands + Threads + Send + Sync>(
    rt: &H,
    alloc: Global,
    desk: MeetingDesk<C, H>,
    shared: &mut Shared<RowWorld, MemoryPlace>,
) -> (Transcript, MeetingDesk<C, H>) {
    serve_session::<RowWorld, _, _, _>(rt, alloc, 1, desk, shared)
}
