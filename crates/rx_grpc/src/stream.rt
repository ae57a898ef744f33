//! Streams that are opened for calls, and those that are given up.

ghost use Rattle.std.specs.Prelude.{◌≡◌, ◌≢◌, [], MatchOption, None, IfErr, IfOk, OnOk};
ghost use Rattle.std.specs.List.{All};
ghost use Rattle.rx_h2conn.specs.Open.{refusal};
ghost use Rattle.rx_hpack.specs.Encoder.{IsWritable};
ghost use Rattle.rx_hpack.specs.Header.{views};
ghost use Rattle.rx_grpc.specs.Shown.{IsOpenAt};
ghost use Rattle.rx_grpc.specs.Transport.{GivesUp, OpensStream};
ghost use Rattle.rx_grpc.specs.declared.transfer_fault.TransferFault.TheVariants.{NoMemory as starved};

use crate::transfer_fault::TransferFault;
use rx_h2conn::{Conn, ConnFault};
use rx_hpack::Header;

/// CANCEL (RFC 9113 7).
const CANCEL: u32 = 8;

/// Gives up a stream that is open yet, so that the server sends nothing more on it.
fn give_up(conn: &mut Conn, unfinished: Option<u32>) -> Result<(), TransferFault>
    requires fault { conn.old.state.fault ≡ None }
    requires unfinished { IsOpenAt unfinished conn.old.state }
    ensures memory { IfErr result (λ fault. fault ≡ starved) }
    ensures given { OnOk result (GivesUp conn.old conn.new) }
{
    let Some(id) = unfinished else {
        return Ok(());
    };
    match conn.reset(id, CANCEL) {
        Ok(()) => Ok(()),
        Err(_) => Err(TransferFault::NoMemory),
    }
}

/// Opens the stream of the next call, after the last one's was given up. `None` where the connection takes no stream.
pub fn next_stream(
    conn: &mut Conn,
    unfinished: Option<u32>,
    headers: &[Header],
) -> Result<Option<u32>, TransferFault>
    requires writable { All IsWritable headers.now }
    requires fault { conn.old.state.fault ≡ None }
    requires unfinished { IsOpenAt unfinished conn.old.state }
    ensures memory { IfErr result (λ fault. fault ≡ starved) }
    ensures refused { IfOk result (λ id. MatchOption id (refusal conn.old.state ≢ None)
        (λ id. refusal conn.old.state ≡ None)) }
    ensures opened { IfOk result (λ id. MatchOption id (Unit {0})
        (OpensStream conn.old conn.new (views headers.now))) }
{
    give_up(conn, unfinished)?;
    match conn.open_stream(headers, false) {
        Ok(id) => Ok(Some(id)),
        Err(ConnFault::NoMemory) => Err(TransferFault::NoMemory),
        Err(ConnFault::Protocol(_)) => Ok(None),
        Err(ConnFault::GoneAway(_)) => Ok(None),
        Err(ConnFault::StreamsSpent) => Ok(None),
    }
}
