//! The farm's end of one connection.

ghost use Rattle.std.specs.Prelude.{◌≡◌, IfOk, OnOk, true};
ghost use Rattle.rx_world.specs.Causes.{HasCause, HasCauseOf};
ghost use Rattle.rx_world.specs.Links.{SameRule};
ghost use Rattle.rx_toyfarm.specs.declared.farm_fault.FarmFault.TheVariants.{LinkFault as lost};

use crate::farm::ToyFarm;
use crate::farm_fault::FarmFault;
use crate::server::Server;
use rx_world::{Failed, Link};
use std::alloc::Global;

/// The most bytes that are received at once.
const PIECE_SIZE: usize = 8_192;

/// Serves the calls that come over one link, which are those of a farm over gRPC (RFC 9113; `remote_execution.proto`;
/// `bytestream.proto`), until the client ends it. At most so many pieces are received.
///
/// Errors: `LinkFault` only where the link's count of faults rose; `BadCall` where the bytes are no call, or end amid
/// one; `TurnsSpent` where `turns` pieces were received and none of these came; `NoMemory`.
pub fn answer<L: Link>(
    alloc: Global,
    farm: &mut ToyFarm,
    link: &mut L,
    turns: u64,
) -> Result<(), FarmFault>
    ensures ended { OnOk result (L.ended link.new ≡ true) }
    ensures cause { HasCauseOf lost (L.faults link.old) (L.faults link.new) result }
    ensures rule { SameRule (L.rule link.old) (L.rule link.new) }
{
    let mut server = Server::new(alloc)?;
    send_all(link, &server.take_output())?;
    for _ in 0..turns {
        if take_turn(farm, link, &mut server)? {
            return Ok(());
        }
    }
    Err(FarmFault::TurnsSpent)
}

/// Receives a piece, and sends what it is answered. Whether the client has ended the link between two calls.
fn take_turn<L: Link>(
    farm: &mut ToyFarm,
    link: &mut L,
    server: &mut Server,
) -> Result<bool, FarmFault>
    ensures ended { IfOk result (λ is_over. is_over ≡ true → L.ended link.new ≡ true) }
    ensures cause { HasCauseOf lost (L.faults link.old) (L.faults link.new) result }
    ensures rule { SameRule (L.rule link.old) (L.rule link.new) }
{
    let mut buffer = [0u8; PIECE_SIZE];
    let count = link.receive(&mut buffer)?;
    if count == 0 {
        server.end()?;
        return Ok(true);
    }
    let (piece, _) = buffer.split_at(count);
    server.feed(farm, piece)?;
    send_all(link, &server.take_output())?;
    Ok(false)
}

/// Sends all of some bytes.
fn send_all<L: Link>(link: &mut L, bytes: &[u8]) -> Result<(), Failed>
    ensures ended { L.ended link.new ≡ L.ended link.old }
    ensures cause { HasCause (L.faults link.old) (L.faults link.new) result }
    ensures rule { SameRule (L.rule link.old) (L.rule link.new) }
{
    let mut left = bytes;
    while !left.is_empty() {
        let count = link.send(left)?;
        let (_sent, behind) = left.split_at(count);
        left = behind;
    }
    Ok(())
}
