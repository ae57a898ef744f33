//! Files are placed one after the other.

ghost use Rattle.std.specs.Prelude.{◌≡◌, ◌≤◌, ◌<◌, length, take};
ghost use Rattle.rx_board.specs.Placing.{PlacesAll};
ghost use Rattle.rx_world.specs.Causes.{Rose};

use rx_world::{FileOut, Place};

/// Places the files in order until one fails. Answers how many were placed.
pub(crate) fn place_files<P: Place>(place: &mut P, files: &[FileOut]) -> usize
    ensures bound { result ≤ length files.now }
    ensures placed { PlacesAll
        (P.contents place.old) (P.contents place.new) (take result files.now) }
    ensures opening { P.opening place.new ≡ P.opening place.old }
    ensures later { P.faults place.old ≤ P.faults place.new }
    ensures failed { result < length files.now → Rose (P.faults place.old) (P.faults place.new) }
{
    for (placed, file) in files.iter().enumerate() {
        match place.place(&file.path, file.bytes.as_slice(), file.executable) {
            Ok(()) => {}
            Err(_) => return placed,
        }
    }
    files.len()
}
