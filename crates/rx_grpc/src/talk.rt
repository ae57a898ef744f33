//! Turns of a call until its bytes show an answer, or an item of a streamed one.

ghost use Rattle.std.specs.Prelude.{◌≡◌, ◌<◌, false, true, [], None, IfErr, IfOk, OnOk};
ghost use Rattle.rx_world.specs.Causes.{HasCauseOf};
ghost use Rattle.rx_world.specs.Links.{SameRule};
ghost use Rattle.rx_grpc.specs.Answer.{unary};
ghost use Rattle.rx_grpc.specs.Came.{is_piece};
ghost use Rattle.rx_grpc.specs.Conversation.{IsOpen, alive_of};
ghost use Rattle.rx_grpc.specs.Faults.{FaultIs};
ghost use Rattle.rx_grpc.specs.Heard.{nothing};
ghost use Rattle.rx_grpc.specs.Moves.{Carries};
ghost use Rattle.rx_grpc.specs.Sent.{Concludes, Handing};
ghost use Rattle.rx_grpc.specs.Shown.{IsOver};
ghost use Rattle.rx_grpc.specs.StatusText.{HasText};
ghost use Rattle.rx_grpc.specs.Item.{item, item_behind};
ghost use Rattle.rx_grpc.specs.Streamed.{Hands, NextFault};
ghost use Rattle.rx_grpc.specs.Transport.{opened_by};
ghost use Rattle.rx_grpc.specs.declared.transfer_fault.TransferFault.TheVariants.{Link as lost};

use crate::answer::Answer;
use crate::body::{Body, NoBody};
use crate::came::answer_or_fault;
use crate::open_call::OpenCall;
use crate::stream_item::StreamItem;
use crate::transfer_fault::TransferFault;
use crate::turn::take_turn;
use rx_h2conn::Conn;
use rx_world::Link;
use std::alloc::Global;

/// ENHANCE_YOUR_CALM (RFC 9113 7).
const CALM: u32 = 11;

/// The most messages of an answer: as many as 268,435,456 bytes can hold, since each has five bytes at least.
const MOST_MESSAGES: usize = 53_687_091;

/// Takes turns until the bytes show the answer of a call of one message, or as many have come as it may take.
pub fn answer_of<L: Link, B: Body>(
    alloc: Global,
    link: &mut L,
    conn: &mut Conn,
    opened: &mut OpenCall,
    body: &mut B,
) -> Result<Answer, TransferFault>
    requires opened { IsOpen (L.wire link.old) (L.rule link.old) (L.ended link.old) conn.old
        opened.old }
    requires piece { is_piece opened.old.came ≡ true }
    requires new { opened.old.call.answers ≡ nothing }
    requires place { opened.old.call.place ≡ 0 }
    ensures over { IfOk result (IsOver unary (L.wire link.new) (L.rule link.new)
        (L.ended link.new) conn.new opened.old.call.id (alive_of opened.new)) }
    ensures asked { IfOk result (Concludes unary (L.wire link.old) (L.wire link.new)
        (L.rule link.old) (L.rule link.new) (L.ended link.new) conn.old conn.new opened.old
        (B.messages body.old)) }
    ensures id { OnOk result (opened.new.call.id ≡ opened.old.call.id) }
    ensures carries { OnOk result (Carries (L.wire link.old) (L.wire link.new) conn.old
        conn.new opened.old.room opened.new.room) }
    ensures text { OnOk result (HasText (L.wire link.new) (L.rule link.new) conn.new
        opened.new.call.id opened.new.call.answers.status_text
        opened.new.call.answers.details) }
    ensures fault { IfErr result (λ fault. FaultIs unary opened.old.room fault (L.wire link.old)
        (L.wire link.new) (L.rule link.new) conn.new opened.old.call.id) }
    ensures rule { SameRule (L.rule link.old) (L.rule link.new) }
    ensures cause { HasCauseOf lost (L.faults link.old) (L.faults link.new) result }
{
    while opened.room > 0 {
        take_turn(alloc, link, conn, opened, body)?;
        let shown = opened.call.answers.unary(opened.came.is_end());
        if let Some(done) = answer_or_fault(shown, opened.came) {
            return done;
        }
    }
    Err(TransferFault::Protocol(CALM))
}

/// Takes turns until the bytes show the next item, or as many have come as the call may take.
fn item_behind_turns<L: Link>(
    alloc: Global,
    link: &mut L,
    conn: &mut Conn,
    opened: &mut OpenCall,
) -> Result<StreamItem, TransferFault>
    requires opened { IsOpen (L.wire link.old) (L.rule link.old) (L.ended link.old) conn.old
        opened.old }
    requires piece { is_piece opened.old.came ≡ true }
    requires none { item false opened.old.call.answers ≡ None }
    requires few { opened.old.call.place < 53687091 }
    ensures next { IfOk result (Hands (L.wire link.old) (L.wire link.new) (L.rule link.new)
        (L.ended link.new) conn.old conn.new opened.old opened.new) }
    ensures asked { IfOk result (Concludes (item_behind opened.old.call.place) (L.wire link.old)
        (L.wire link.new) (L.rule link.old) (L.rule link.new) (L.ended link.new) conn.old conn.new
        opened.old []) }
    ensures asks { IfOk result (Handing (L.wire link.old) (L.wire link.new) (L.rule link.old)
        (L.rule link.new) conn.old conn.new opened.old opened.new) }
    ensures text { OnOk result (HasText (L.wire link.new) (L.rule link.new) conn.new
        opened.new.call.id opened.new.call.answers.status_text
        opened.new.call.answers.details) }
    ensures fault { IfErr result (λ fault. FaultIs (item_behind opened.old.call.place)
        opened.old.room fault (L.wire link.old) (L.wire link.new) (L.rule link.new) conn.new
        opened.old.call.id) }
    ensures rule { SameRule (L.rule link.old) (L.rule link.new) }
    ensures cause { HasCauseOf lost (L.faults link.old) (L.faults link.new) result }
{
    while opened.room > 0 {
        take_turn(alloc, link, conn, opened, &mut NoBody {})?;
        let shown = opened.call.next_item(opened.came.is_end());
        if let Some(done) = answer_or_fault(shown, opened.came) {
            return done;
        }
    }
    Err(TransferFault::Protocol(CALM))
}

/// Hands out the next item: one that was heard already, or else what turns show.
pub fn item_of<L: Link>(
    alloc: Global,
    link: &mut L,
    conn: &mut Conn,
    opened: &mut OpenCall,
) -> Result<StreamItem, TransferFault>
    requires { IsOpen (L.wire link.old) (L.rule link.old) (L.ended link.old) conn.old opened.old }
    ensures next { IfOk result (Hands (L.wire link.old) (L.wire link.new) (L.rule link.new)
        (L.ended link.new) conn.old conn.new opened.old opened.new) }
    ensures asked { IfOk result (Concludes (item_behind opened.old.call.place) (L.wire link.old)
        (L.wire link.new) (L.rule link.old) (L.rule link.new) (L.ended link.new) conn.old conn.new
        opened.old []) }
    ensures asks { IfOk result (Handing (L.wire link.old) (L.wire link.new) (L.rule link.old)
        (L.rule link.new) conn.old conn.new opened.old opened.new) }
    ensures text { OnOk result (HasText (L.wire link.new) (L.rule link.new) conn.new
        opened.new.call.id opened.new.call.answers.status_text
        opened.new.call.answers.details) }
    ensures fault { IfErr result (λ fault. NextFault (opened_by opened.old) fault (L.wire link.old)
        (L.wire link.new) (L.rule link.new) conn.new) }
    ensures rule { SameRule (L.rule link.old) (L.rule link.new) }
    ensures cause { HasCauseOf lost (L.faults link.old) (L.faults link.new) result }
{
    if opened.call.place >= MOST_MESSAGES {
        return Err(TransferFault::Protocol(CALM));
    }
    let shown = opened.call.next_item(opened.came.is_end());
    if let Some(done) = answer_or_fault(shown, opened.came) {
        return done;
    }
    item_behind_turns(alloc, link, conn, opened)
}
