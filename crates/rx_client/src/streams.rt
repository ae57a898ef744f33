//! Bytes from a source, over as many calls as it takes.

ghost use Rattle.std.specs.Prelude.{◌≡◌, ◌≤◌, ◌<◌, ◌+◌, max, length, vec_len, IfOk, OnOk, OnErr};
ghost use Rattle.std.specs.Io.KnownBytes.{IsAtEnd};
ghost use Rattle.rx_world.specs.declared.failures.Refused.TheVariants.{Failed as failed};
ghost use Rattle.rx_world.specs.Causes.{HasCauseOf};
ghost use Rattle.rx_session.specs.Streams.{ReadsOn};

use rx_world::{Refused, Source};

/// The most bytes that one call of a source is asked for.
const PIECE_LEN: usize = 4096;

/// Reads until so many bytes are there, or the input ends. Memory is taken as the bytes come.
pub(crate) fn read_up_to<S: Source>(
    source: &mut S,
    read: &mut Vec<u8>,
    want: usize,
) -> Result<(), Refused>
    ensures read { ReadsOn (S.left source.old) (S.left source.new) read.old.items read.new.items }
    ensures most { vec_len read.new ≤ max (vec_len read.old) want }
    ensures end { OnOk result (vec_len read.new < want → IsAtEnd (S.left source.new)) }
    ensures cause { HasCauseOf failed (S.faults source.old) (S.faults source.new) result }
{
    let mut piece = [0u8; PIECE_LEN];
    'pieces: while read.len() < want {
        let room = (want - read.len()).min(PIECE_LEN);
        let count = read_piece(source, &mut piece[..room], read)?;
        if count == 0 {
            return Ok(());
        }
    }
    Ok(())
}

/// Reads once into a piece, and puts what came at the end.
fn read_piece<S: Source>(
    source: &mut S,
    piece: &mut [u8],
    read: &mut Vec<u8>,
) -> Result<usize, Refused>
    requires { 0 < length piece.old }
    ensures read { ReadsOn (S.left source.old) (S.left source.new) read.old.items read.new.items }
    ensures count { IfOk result
        (λ count. (vec_len read.new ≡ vec_len read.old + count) × (count ≤ length piece.old)) }
    ensures none { OnErr result (vec_len read.new ≡ vec_len read.old) }
    ensures end { IfOk result (λ count. count ≡ 0 → IsAtEnd (S.left source.new)) }
    ensures cause { HasCauseOf failed (S.faults source.old) (S.faults source.new) result }
{
    read.reserve(piece.len())?;
    let count = source.read(piece)?;
    read.extend_from_slice(&piece[..count]).unwrap();
    Ok(count)
}
