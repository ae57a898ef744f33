//! Bytes between a connection and its link: what the connection has to send, and pieces that come in. What was received is
//! kept nowhere but in the connection.

ghost use Rattle.std.specs.Prelude.{◌≡◌, ◌<◌, true, [], None, IfErr, IfOk, OnOk};
ghost use Rattle.rx_world.specs.Causes.{HasCause, HasCauseOf};
ghost use Rattle.rx_world.specs.Links.{Goes, Meets, SameRule};
ghost use Rattle.rx_h2conn.specs.Streams.{KeepsHeld};
ghost use Rattle.rx_grpc.specs.Came.{CameBy, is_piece};
ghost use Rattle.rx_grpc.specs.Faults.{IsOther};
ghost use Rattle.rx_grpc.specs.Moves.{Exchange, IsDrained, carried};
ghost use Rattle.rx_grpc.specs.declared.transfer_fault.TransferFault.TheVariants.{Link as lost};

use crate::came::Came;
use crate::transfer_fault::TransferFault;
use rx_h2conn::{Conn, ConnFault};
use rx_world::{Failed, Link};

/// The most bytes that are taken in at once. With more the credit that was told could be used up before it is given again.
const PIECE_SIZE: usize = 8_192;

/// Sends all of some bytes.
fn send_all<L: Link>(link: &mut L, bytes: &[u8]) -> Result<(), Failed>
    ensures wire { OnOk result (Goes (L.wire link.old) (L.wire link.new) (carried bytes.now [])) }
    ensures rule { SameRule (L.rule link.old) (L.rule link.new) }
    ensures meets { Meets (L.wire link.old) (L.rule link.old)
        → Meets (L.wire link.new) (L.rule link.new) }
    ensures ended { L.ended link.new ≡ L.ended link.old }
    ensures cause { HasCause (L.faults link.old) (L.faults link.new) result }
{
    let mut left = bytes;
    while !left.is_empty() {
        let count = link.send(left)?;
        let (_sent, rest) = left.split_at(count);
        left = rest;
    }
    Ok(())
}

/// Sends all that the connection has to send.
pub fn flush<L: Link>(link: &mut L, conn: &mut Conn) -> Result<(), TransferFault>
    ensures other { IfErr result IsOther }
    ensures exchange { OnOk result
        (Exchange (L.wire link.old) (L.wire link.new) conn.old conn.new 0 0) }
    ensures drained { OnOk result (conn.old.state.events ≡ [] → IsDrained conn.new.state) }
    ensures fault { OnOk result (conn.new.state.fault ≡ conn.old.state.fault) }
    ensures held { OnOk result (KeepsHeld conn.old.state conn.new.state) }
    ensures rule { SameRule (L.rule link.old) (L.rule link.new) }
    ensures meets { Meets (L.wire link.old) (L.rule link.old)
        → Meets (L.wire link.new) (L.rule link.new) }
    ensures ended { L.ended link.new ≡ L.ended link.old }
    ensures cause { HasCauseOf lost (L.faults link.old) (L.faults link.new) result }
{
    let output = conn.take_output()?;
    send_all(link, &output)?;
    Ok(())
}

/// Takes in what comes next: at most 8,192 bytes, and no more than there is room for.
pub fn take_in<L: Link>(
    link: &mut L,
    conn: &mut Conn,
    room: &mut usize,
) -> Result<Came, TransferFault>
    requires fault { conn.old.state.fault ≡ None }
    requires drained { IsDrained conn.old.state }
    requires room { 0 < room.old }
    ensures other { IfErr result IsOther }
    ensures came { IfOk result (λ came.
        CameBy came (L.ended link.old) (L.ended link.new) conn.new) }
    ensures exchange { OnOk result
        (Exchange (L.wire link.old) (L.wire link.new) conn.old conn.new room.old room.new) }
    ensures less { IfOk result (λ came. is_piece came ≡ true → room.new < room.old) }
    ensures held { OnOk result (KeepsHeld conn.old.state conn.new.state) }
    ensures rule { SameRule (L.rule link.old) (L.rule link.new) }
    ensures meets { Meets (L.wire link.new) (L.rule link.new) }
    ensures cause { HasCauseOf lost (L.faults link.old) (L.faults link.new) result }
{
    let mut buffer = [0u8; PIECE_SIZE];
    let most = PIECE_SIZE.min(*room);
    let (space, _past) = buffer.split_at_mut(most);
    let count = link.receive(space)?;
    if count == 0 {
        return Ok(Came::End);
    }
    *room -= count;
    let (piece, _empty) = space.split_at(count);
    match conn.feed(piece) {
        Ok(()) => Ok(Came::Piece),
        Err(ConnFault::Protocol(code)) => Ok(Came::Broken(code)),
        Err(_) => Err(TransferFault::NoMemory),
    }
}
