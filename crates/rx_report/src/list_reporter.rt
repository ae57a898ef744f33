//! A reporter for rows and tests: it keeps what it is told, and refuses from a note on.

ghost use Rattle.std.specs.Prelude.{◌≡◌, [], Some};

use crate::notes::Note;
use crate::reporters::Reporter;
use rx_world::Refused;
use std::alloc::Global;

/// Keeps the notes, and after so many refuses each.
#[derive(Drop)]
pub struct ListReporter {
    pub notes: Vec<Note>,
    left: u32,
}

impl ListReporter {
    /// One that was told nothing yet, and takes so many notes.
    pub fn new(alloc: Global, most: u32) -> ListReporter
        ensures { result.notes.items ≡ [] }
    {
        ListReporter {
            notes: Vec::new(alloc),
            left: most,
        }
    }
}

impl Reporter for ListReporter {
    ghost use Rattle.std.specs.Prelude.{Some};

    ghost seen = { λ reporter. Some reporter.notes.items };

    fn note(&mut self, told: &Note) -> Result<(), Refused> {
        if self.left == 0 {
            return Err(Refused::Failed);
        }
        self.left -= 1;
        match self.notes.push(*told) {
            Ok(()) => Ok(()),
            Err(_) => Err(Refused::NoMemory),
        }
    }
}
