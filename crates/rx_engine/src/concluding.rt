//! A session from its attempts to its transcript: the winner is published, and the reply written.
//! Nothing here reads or runs.

ghost use Rattle.std.specs.Prelude.{◌≡◌, ◌≤◌, IfSome};
ghost use Rattle.std.specs.Io.KnownBytes.{Appends};
ghost use Rattle.rx_world.specs.Causes.{Rose};
ghost use Rattle.rx_engine.specs.Gathers.{AnswersMade};
ghost use Rattle.rx_engine.specs.Journal.{IsBoardAfter};
ghost use Rattle.rx_engine.specs.Meanings.{meanings};
ghost use Rattle.rx_engine.specs.Pending.{IsConcluded, IsFirstWon};
ghost use Rattle.rx_engine.specs.Ready.{EntersHandled, Finishes, IsLost, WroteEnd};

use crate::answered::{Answered, answer_unpublished, or_give_up};
use crate::attempts::Attempted;
use crate::desk::{Desk, Parts};
use crate::pending::{Pending, Stage};
use crate::publishing::publish;
use crate::transcripts::{Ending, Passes, Tally, Transcript};
use rx_base::{Bytes, Items};
use rx_board::Board;
use rx_session::{Request, write_frame};
use rx_world::{Place, Sink, World};
use std::alloc::Global;

/// What was done of a request: how its attempts ended, and the answer. Without an answer, memory ran
/// out even for the one which says so.
#[derive(Drop)]
pub(crate) struct Handled {
    pub tally: Tally,
    pub answered: Option<Answered>,
}

/// The request, and what was done of it.
#[derive(Drop)]
pub(crate) struct Ready {
    pub request: Option<Request>,
    pub handled: Handled,
}

/// The second half of a session: publishes what won, if anything did, writes the reply, and keeps what was
/// done under the session's number.
pub fn conclude<W: World, D: Desk<W>, P: Place>(
    alloc: Global,
    number: u32,
    pending: Pending,
    parts: &mut Parts<D::I, D::O, D::T, D::L, D::B, D::R, D::C>,
    board: &mut Board<P>,
) -> Transcript
    ensures concluded { IsConcluded
        (meanings W.World D.I.Source D.O.Sink D.T.Sources D.L.Sources D.B.BenchMaker D.B.B.Bench
        D.R.Sources D.C.Caller)
        P.Place pending parts.old parts.new board.old board.new result }
    ensures number { result.number ≡ number }
    ensures board { IsBoardAfter P.Place board.old board.new }
{
    let Pending {
        read,
        request,
        stage,
    } = pending;
    match stage {
        Stage::Lost => lost(alloc, number, read),
        Stage::ShutDown { frame } => end_run(alloc, number, read, frame, &mut parts.output),
        Stage::Refused { answered } => {
            let tally = Tally::none(alloc);
            let handled = Handled { tally, answered };
            let ready = Ready { request, handled };
            finish(alloc, number, read, ready, &mut parts.output)
        }
        Stage::Attempted { attempted } => {
            let handled = publish_or_fail(alloc, number, attempted, board);
            let ready = Ready { request, handled };
            finish(alloc, number, read, ready, &mut parts.output)
        }
    }
}

/// Publishes the outcome that won, and makes the answer ready.
fn publish_or_fail<P: Place>(
    alloc: Global,
    session: u32,
    attempted: Attempted,
    board: &mut Board<P>,
) -> Handled
    ensures tally { result.tally ≡ attempted.tally }
    ensures answered { IfSome result.answered
        (AnswersMade attempted.won attempted.heard.cancelled attempted.tally.ends) }
    ensures journal { IsFirstWon attempted →
        EntersHandled P.Place board.old board.new session result }
    ensures board { IsBoardAfter P.Place board.old board.new }
{
    let Attempted { tally, won, heard } = attempted;
    let answered = match won {
        Some(won) => publish(alloc, session, won, board),
        None => answer_unpublished(alloc, heard.cancelled, tally.ends.as_slice()),
    };
    Handled {
        answered: or_give_up(alloc, answered),
        tally,
    }
}

/// Writes the answer that was made ready, if there is one, and keeps what the session did.
fn finish<O: Sink>(
    alloc: Global,
    number: u32,
    read: Bytes,
    ready: Ready,
    output: &mut O,
) -> Transcript
    ensures written { Appends (O.taken output.old) (O.taken output.new) result.written }
    ensures finished { Finishes number read ready result }
    ensures later { O.faults output.old ≤ O.faults output.new }
    ensures sink { result.ending ≡ Ending.SinkLost →
        Rose (O.faults output.old) (O.faults output.new) }
{
    let Ready { request, handled } = ready;
    let Handled { tally, answered } = handled;
    let Tally { ends, passes } = tally;
    match answered {
        None => Transcript {
            number,
            ending: Ending::NoMemory,
            read,
            written: Bytes::new(alloc),
            request,
            reply: None,
            receipt: None,
            ends,
            passes,
        },
        Some(answered) => {
            let Answered {
                reply,
                frame,
                receipt,
            } = answered;
            let mut frame = frame;
            let (count, outcome) = write_frame(output, &frame);
            frame.truncate(count);
            Transcript {
                number,
                ending: match outcome {
                    Ok(()) => Ending::Replied,
                    Err(_) => Ending::SinkLost,
                },
                read,
                written: Bytes::from_vec(frame),
                request,
                reply: Some(reply),
                receipt,
                ends,
                passes,
            }
        }
    }
}

/// Writes the frame which says that the run ends, and keeps that.
fn end_run<O: Sink>(
    alloc: Global,
    number: u32,
    read: Bytes,
    frame: Vec<u8>,
    output: &mut O,
) -> Transcript
    ensures written { Appends (O.taken output.old) (O.taken output.new) result.written }
    ensures finished { WroteEnd number read frame.items result }
    ensures later { O.faults output.old ≤ O.faults output.new }
    ensures sink { result.ending ≡ Ending.SinkLost →
        Rose (O.faults output.old) (O.faults output.new) }
{
    let mut frame = frame;
    let (count, outcome) = write_frame(output, &frame);
    frame.truncate(count);
    Transcript {
        number,
        ending: match outcome {
            Ok(()) => Ending::ShutDown,
            Err(_) => Ending::SinkLost,
        },
        read,
        written: Bytes::from_vec(frame),
        request: None,
        reply: None,
        receipt: None,
        ends: Items::new(alloc),
        passes: Passes::unused(),
    }
}

/// The transcript of a session whose input was lost.
fn lost(alloc: Global, number: u32, read: Bytes) -> Transcript
    ensures { IsLost number read result }
{
    Transcript {
        number,
        ending: Ending::SourceLost,
        read,
        written: Bytes::new(alloc),
        request: None,
        reply: None,
        receipt: None,
        ends: Items::new(alloc),
        passes: Passes::unused(),
    }
}
