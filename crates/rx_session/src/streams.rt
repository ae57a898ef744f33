//! Bytes from a source and into a sink, over as many calls as it takes.

ghost use Rattle.std.specs.Prelude.{◌≡◌, ◌≤◌, ◌<◌, ◌+◌, ◌++◌, max, length, take, vec_len, IfErr, IfOk, OnOk, OnErr, IsErrOf};
ghost use Rattle.std.specs.Io.KnownBytes.{Appends, IsAtEnd};
ghost use Rattle.rx_world.specs.Causes.{Rose};
ghost use Rattle.rx_session.specs.Streams.{IsNoBad, ReadsOn};

use crate::bad::SessionFault;
use rx_world::{Failed, Sink, Source};

/// The most bytes that one call of a source is asked for.
const PIECE_LEN: usize = 4096;

/// Reads until so many bytes are there, or the input ends.
pub(crate) fn read_up_to<S: Source>(
    source: &mut S,
    read: &mut Vec<u8>,
    want: usize,
) -> Result<(), SessionFault>
    ensures read { ReadsOn (S.left source.old) (S.left source.new) read.old.items read.new.items }
    ensures most { vec_len read.new ≤ max (vec_len read.old) want }
    ensures end { OnOk result (vec_len read.new < want → IsAtEnd (S.left source.new)) }
    ensures later { S.faults source.old ≤ S.faults source.new }
    ensures failed { IsErrOf result SessionFault.ReadFault
        → Rose (S.faults source.old) (S.faults source.new) }
    ensures only { IfErr result IsNoBad }
{
    let mut piece = [0u8; PIECE_LEN];
    'pieces: while read.len() < want {
        let room = (want - read.len()).min(PIECE_LEN);
        let count = read_piece(source, &mut piece[..room], read)?;
        if count == 0 {
            return Ok(());
        }
    }
    Ok(())
}

/// Reads once into a piece, and puts what came at the end.
fn read_piece<S: Source>(
    source: &mut S,
    piece: &mut [u8],
    read: &mut Vec<u8>,
) -> Result<usize, SessionFault>
    requires { 0 < length piece.old }
    ensures read { ReadsOn (S.left source.old) (S.left source.new) read.old.items read.new.items }
    ensures count { IfOk result
        (λ count. (vec_len read.new ≡ vec_len read.old + count) × (count ≤ length piece.old)) }
    ensures none { OnErr result (vec_len read.new ≡ vec_len read.old) }
    ensures end { IfOk result (λ count. count ≡ 0 → IsAtEnd (S.left source.new)) }
    ensures later { S.faults source.old ≤ S.faults source.new }
    ensures failed { IsErrOf result SessionFault.ReadFault
        → Rose (S.faults source.old) (S.faults source.new) }
    ensures only { IfErr result IsNoBad }
{
    read.reserve(piece.len())?;
    let count = source.read(piece)?;
    read.extend_from_slice(&piece[..count]).unwrap();
    Ok(count)
}

/// Writes a frame, and answers how many of its bytes were taken.
pub fn write_frame<K: Sink>(sink: &mut K, frame: &[u8]) -> (usize, Result<(), Failed>)
    ensures bound { result.0 ≤ length frame.now }
    ensures whole { OnOk result.1 (result.0 ≡ length frame.now) }
    ensures cut { OnErr result.1 (result.0 < length frame.now) }
    ensures written { Appends (K.taken sink.old) (K.taken sink.new) (take result.0 frame.now) }
    ensures later { K.faults sink.old ≤ K.faults sink.new }
    ensures failed { OnErr result.1 (Rose (K.faults sink.old) (K.faults sink.new)) }
{
    let mut sent = 0;
    'pieces: while sent < frame.len() {
        match sink.write(&frame[sent..]) {
            Ok(count) => sent += count,
            Err(fault) => return (sent, Err(fault)),
        }
    }
    (sent, Ok(()))
}
