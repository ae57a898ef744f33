//! A turn of a call: what is due is sent, a piece is taken in, and its events are heard. That order keeps to the windows that
//! were told, however the bytes of the link are cut.

ghost use Rattle.std.specs.Prelude.{◌≡◌, ◌<◌, true, List, ℕ, IfErr, OnOk};
ghost use Rattle.rx_world.specs.Causes.{HasCauseOf};
ghost use Rattle.rx_world.specs.Links.{SameRule};
ghost use Rattle.rx_grpc.specs.Came.{is_piece};
ghost use Rattle.rx_grpc.specs.Conversation.{Gives, IsOpen};
ghost use Rattle.rx_grpc.specs.Faults.{IsOther};
ghost use Rattle.rx_grpc.specs.Moves.{Carries, IsDrained};
ghost use Rattle.rx_grpc.specs.Sent.{StillAsks};
ghost use Rattle.rx_grpc.specs.declared.transfer_fault.TransferFault.TheVariants.{Link as lost};

use crate::body::Body;
use crate::open_call::OpenCall;
use crate::transfer::{flush, take_in};
use crate::transfer_fault::TransferFault;
use rx_h2conn::Conn;
use rx_world::Link;
use std::alloc::Global;

/// Gives the connection what the windows allow of the request, and sends all that it has to send.
fn give<L: Link>(link: &mut L, conn: &mut Conn, opened: &mut OpenCall) -> Result<(), TransferFault>
    requires opened { IsOpen (L.wire link.old) (L.rule link.old) (L.ended link.old) conn.old
        opened.old }
    requires piece { is_piece opened.old.came ≡ true }
    ensures opened { OnOk result (IsOpen (L.wire link.new) (L.rule link.new) (L.ended link.new)
        conn.new opened.new) }
    ensures drained { OnOk result (IsDrained conn.new.state) }
    ensures gives { OnOk result (Gives opened.old opened.new) }
    ensures last { OnOk result (opened.new.request.last ≡ opened.old.request.last) }
    ensures asks { OnOk result ((coming : List (List ℕ)) →
        StillAsks (L.wire link.old) (L.wire link.new) (L.rule link.old) (L.rule link.new) conn.old
        conn.new opened.old opened.new coming coming) }
    ensures carries { OnOk result
        (Carries (L.wire link.old) (L.wire link.new) conn.old conn.new opened.old.room
        opened.new.room) }
    ensures other { IfErr result IsOther }
    ensures rule { SameRule (L.rule link.old) (L.rule link.new) }
    ensures cause { HasCauseOf lost (L.faults link.old) (L.faults link.new) result }
{
    opened.request.push(conn, opened.call.id)?;
    flush(link, conn)?;
    Ok(())
}

/// Gives message after message of the body, as far as the windows allow. Each is sent before the next one is taken, so that no
/// more than one of them waits, however large the windows are.
fn give_body<L: Link, B: Body>(
    alloc: Global,
    link: &mut L,
    conn: &mut Conn,
    opened: &mut OpenCall,
    body: &mut B,
) -> Result<(), TransferFault>
    requires opened { IsOpen (L.wire link.old) (L.rule link.old) (L.ended link.old) conn.old
        opened.old }
    requires piece { is_piece opened.old.came ≡ true }
    ensures opened { OnOk result (IsOpen (L.wire link.new) (L.rule link.new) (L.ended link.new)
        conn.new opened.new) }
    ensures drained { OnOk result (IsDrained conn.new.state) }
    ensures gives { OnOk result (Gives opened.old opened.new) }
    ensures asks { OnOk result
        (StillAsks (L.wire link.old) (L.wire link.new) (L.rule link.old) (L.rule link.new) conn.old
        conn.new opened.old opened.new (B.messages body.old) (B.messages body.new)) }
    ensures carries { OnOk result
        (Carries (L.wire link.old) (L.wire link.new) conn.old conn.new opened.old.room
        opened.new.room) }
    ensures other { IfErr result IsOther }
    ensures rule { SameRule (L.rule link.old) (L.rule link.new) }
    ensures cause { HasCauseOf lost (L.faults link.old) (L.faults link.new) result }
{
    give(link, conn, opened)?;
    while opened.request.is_idle() {
        opened.request.refill(alloc, body)?;
        give(link, conn, opened)?;
    }
    Ok(())
}

/// Takes in one piece, and hears its events.
fn hear<L: Link>(link: &mut L, conn: &mut Conn, opened: &mut OpenCall) -> Result<(), TransferFault>
    requires opened { IsOpen (L.wire link.old) (L.rule link.old) (L.ended link.old) conn.old
        opened.old }
    requires piece { is_piece opened.old.came ≡ true }
    requires drained { IsDrained conn.old.state }
    requires room { 0 < opened.old.room }
    ensures opened { OnOk result (IsOpen (L.wire link.new) (L.rule link.new) (L.ended link.new)
        conn.new opened.new) }
    ensures less { OnOk result (is_piece opened.new.came ≡ true
        → opened.new.room < opened.old.room) }
    ensures carries { OnOk result
        (Carries (L.wire link.old) (L.wire link.new) conn.old conn.new opened.old.room
        opened.new.room) }
    ensures id { OnOk result (opened.new.call.id ≡ opened.old.call.id) }
    ensures place { OnOk result (opened.new.call.place ≡ opened.old.call.place) }
    ensures asks { OnOk result ((coming : List (List ℕ)) →
        StillAsks (L.wire link.old) (L.wire link.new) (L.rule link.old) (L.rule link.new) conn.old
        conn.new opened.old opened.new coming coming) }
    ensures other { IfErr result IsOther }
    ensures rule { SameRule (L.rule link.old) (L.rule link.new) }
    ensures cause { HasCauseOf lost (L.faults link.old) (L.faults link.new) result }
{
    let came = take_in(link, conn, &mut opened.room)?;
    opened.came = came;
    opened.call.drain(conn)?;
    Ok(())
}

/// Sends what is due of the request and of its body, takes in one piece, and hears its events.
pub fn take_turn<L: Link, B: Body>(
    alloc: Global,
    link: &mut L,
    conn: &mut Conn,
    opened: &mut OpenCall,
    body: &mut B,
) -> Result<(), TransferFault>
    requires opened { IsOpen (L.wire link.old) (L.rule link.old) (L.ended link.old) conn.old
        opened.old }
    requires piece { is_piece opened.old.came ≡ true }
    requires room { 0 < opened.old.room }
    ensures opened { OnOk result (IsOpen (L.wire link.new) (L.rule link.new) (L.ended link.new)
        conn.new opened.new) }
    ensures less { OnOk result (is_piece opened.new.came ≡ true
        → opened.new.room < opened.old.room) }
    ensures carries { OnOk result
        (Carries (L.wire link.old) (L.wire link.new) conn.old conn.new opened.old.room
        opened.new.room) }
    ensures id { OnOk result (opened.new.call.id ≡ opened.old.call.id) }
    ensures place { OnOk result (opened.new.call.place ≡ opened.old.call.place) }
    ensures asks { OnOk result
        (StillAsks (L.wire link.old) (L.wire link.new) (L.rule link.old) (L.rule link.new) conn.old
        conn.new opened.old opened.new (B.messages body.old) (B.messages body.new)) }
    ensures other { IfErr result IsOther }
    ensures rule { SameRule (L.rule link.old) (L.rule link.new) }
    ensures cause { HasCauseOf lost (L.faults link.old) (L.faults link.new) result }
{
    give_body(alloc, link, conn, opened, body)?;
    hear(link, conn, opened)?;
    Ok(())
}
