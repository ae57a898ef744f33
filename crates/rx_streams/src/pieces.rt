//! Reads and writes of some bytes, which a signal doesn't end.

ghost use Rattle.std.specs.Prelude.{◌≡◌, IfOk, []};
ghost use Rattle.std.specs.Io.{ReadsAtMost, WritesAtMost};
ghost use Rattle.std.specs.Io.KnownBytes.{ReadConsumes};

use std::io;
use std::io::{Error, ErrorKind, Print, Read, Write};

/// How often a call is tried again that a signal interrupted.
const TRIES: u32 = 4096;

/// One read.
pub fn read_some<I: Read>(input: &mut I, into: &mut [u8]) -> io::Result<usize>
    ensures bound { ReadsAtMost result into.new }
    ensures bytes { ReadConsumes (I.remaining input.old) (I.remaining input.new) result into.new }
{
    for _ in 0..TRIES {
        match input.read(into) {
            Ok(count) => return Ok(count),
            Err(error) if error.kind() == ErrorKind::Interrupted => {}
            Err(error) => return Err(error),
        }
    }
    Err(Error::from(ErrorKind::Interrupted))
}

/// One write of a printer, which takes something of a piece that has something.
pub fn print_some(output: &impl Print, piece: &[u8]) -> io::Result<usize>
    ensures bound { WritesAtMost result piece.now }
    ensures some { IfOk result (λ count. count ≡ 0 → piece.now ≡ []) }
{
    if piece.is_empty() {
        return Ok(0);
    }
    for _ in 0..TRIES {
        match output.write_some(piece) {
            Ok(0) => return Err(Error::from(ErrorKind::WriteZero)),
            Ok(count) => return Ok(count),
            Err(error) if error.kind() == ErrorKind::Interrupted => {}
            Err(error) => return Err(error),
        }
    }
    Err(Error::from(ErrorKind::Interrupted))
}

/// One write of a writer, which takes something of a piece that has something.
pub fn write_some<W: Write>(output: &mut W, piece: &[u8]) -> io::Result<usize>
    ensures bound { WritesAtMost result piece.now }
    ensures some { IfOk result (λ count. count ≡ 0 → piece.now ≡ []) }
{
    if piece.is_empty() {
        return Ok(0);
    }
    for _ in 0..TRIES {
        match output.write(piece) {
            Ok(0) => return Err(Error::from(ErrorKind::WriteZero)),
            Ok(count) => return Ok(count),
            Err(error) if error.kind() == ErrorKind::Interrupted => {}
            Err(error) => return Err(error),
        }
    }
    Err(Error::from(ErrorKind::Interrupted))
}
