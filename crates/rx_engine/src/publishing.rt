//! The publication of an outcome, and the reply that tells how it went.

ghost use Rattle.std.specs.Prelude.{◌≡◌, IfOk, OnErr, Some};
ghost use Rattle.rx_world.specs.Outcomes.{listing};
ghost use Rattle.rx_engine.specs.Answered.{IsPublication};
ghost use Rattle.rx_engine.specs.Journal.{EntersBoard, IsBoardAfter};

use crate::answered::{Answered, plain};
use crate::attempts::Won;
use rx_base::NoMemory;
use rx_board::{Board, PublishFault};
use rx_session::{Reply, Room, encode};
use rx_world::{Outcome, Place};
use std::alloc::{AllocError, Global};

/// Publishes an outcome. All that needs memory comes before the first file is placed.
pub(crate) fn publish<P: Place>(
    alloc: Global,
    session: u32,
    won: Won,
    board: &mut Board<P>,
) -> Result<Answered, NoMemory>
    ensures ok { IfOk result (IsPublication won) }
    ensures journal { IfOk result (λ a. EntersBoard P.Place board.old board.new session a.receipt
        (listing won.outcome.files) (Some a.reply)) }
    ensures err { OnErr result (board.new.journal ≡ board.old.journal) }
    ensures board { IsBoardAfter P.Place board.old board.new }
{
    let room = Room::new(alloc)?;
    let Won { outcome, origin } = won;
    let Outcome { exit, files } = outcome;
    let reply = Reply::Done {
        exit: exit.code,
        stdout: exit.stdout,
        stderr: exit.stderr,
        origin,
        receipt: board.next_number(),
        placed: files.len() as u64,
    };
    let frame = encode(alloc, &reply)?;
    match board.publish(alloc, session, files.as_slice()) {
        Ok(receipt) => Ok(Answered {
            reply,
            frame,
            receipt: Some(receipt),
        }),
        Err(PublishFault::PlaceFault { receipt, placed }) => Ok(Answered {
            reply: Reply::PlaceFault {
                receipt: receipt.number,
                placed,
            },
            frame: room.encode_place_fault(receipt.number, placed),
            receipt: Some(receipt),
        }),
        Err(PublishFault::JournalFull { limit: _ }) => plain(alloc, Reply::JournalFull),
        Err(PublishFault::NoMemory) => Err(AllocError),
    }
}
