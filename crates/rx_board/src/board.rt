//! A place with its journal.

ghost use Rattle.std.specs.Prelude.{◌≡◌, ◌≤◌, ◌+◌, ◌==◌, ◌↔◌, [], length, IfOk, IfErr, IsErrOf};
ghost use Rattle.rx_board.specs.declared.publish_fault.PublishFault.TheVariants.{JournalFull as journal_full};
ghost use Rattle.rx_board.specs.Board.{IsWhole, HasPublishCause};
ghost use Rattle.rx_board.specs.Journal.{AreNumberedFrom, HoldsLast, IsKeptBy, count_short};

use crate::placing::place_files;
use crate::{Entry, PublishFault, Receipt};
use rx_world::{FileOut, Place, list_files};
use std::alloc::Global;
use std::marker::Model;

/// A place, and the journal of all that was published there.
#[derive(Drop)]
pub struct Board<P: Place> {
    place: P,
    journal: Vec<Entry>,
    limit: usize,
}

impl<P: Place> Model for Board<P> {
    ghost use Rattle.rx_board.specs.Board.{State, IsKept};

    ghost Value = { State P };

    ghost view = { λ b. record { place = b.place; journal = b.journal.items; limit = b.limit } };

    ghost invariant = { λ b. IsKept
        (P.opening b.place) (P.contents b.place) (P.faults b.place) b.journal.items b.limit };
}

impl<P: Place> Board<P> {
    /// A board whose journal is empty and takes `limit` entries.
    pub fn new(alloc: Global, place: P, limit: usize) -> Board<P>
        requires { P.contents place ≡ P.opening place }
        ensures { result ≡ record { place = place; journal = []; limit = limit } }
    {
        Board {
            place,
            journal: Vec::new(alloc),
            limit,
        }
    }

    /// The number of the next entry.
    pub fn next_number(&self) -> u64
        ensures { result ≡ length self.now.journal + 1 }
    {
        self.journal.len() as u64 + 1
    }

    /// Whether the journal takes no more entries.
    pub fn is_full(&self) -> bool
        ensures { result ≡ (length self.now.journal == self.now.limit) }
    {
        self.journal.len() == self.limit
    }

    /// Places the files in their order, each whole before the next one, and adds one entry to the
    /// journal, also for no files.
    pub fn publish(
        &mut self,
        alloc: Global,
        session: u32,
        files: &[FileOut],
    ) -> Result<Receipt, PublishFault>
        ensures whole { IfOk result (IsWhole P.contents self.old self.new session files.now) }
        ensures cause { IfErr result
            (HasPublishCause P.contents P.faults self.old self.new session files.now) }
        ensures full { IsErrOf result (journal_full self.old.limit)
            ↔ (length self.old.journal ≡ self.old.limit) }
        ensures limit { self.new.limit ≡ self.old.limit }
        ensures opening { P.opening self.new.place ≡ P.opening self.old.place }
        ensures later { P.faults self.old.place ≤ P.faults self.new.place }
    {
        if self.is_full() {
            let limit = self.limit as u64;
            return Err(PublishFault::JournalFull { limit });
        }
        let listing = list_files(alloc, files)?;
        self.journal.reserve(1)?;
        let number = self.next_number();
        let receipt = Receipt { number };
        let placed = place_files(&mut self.place, files);
        let entry = Entry {
            number,
            session,
            files: listing,
            placed: placed as u64,
        };
        self.journal.push(entry).unwrap();
        if placed < files.len() {
            let placed = placed as u64;
            return Err(PublishFault::PlaceFault { receipt, placed });
        }
        Ok(receipt)
    }

    /// The place and the journal, and what they have to do with each other.
    pub fn into_parts(self) -> (P, Vec<Entry>)
        ensures place { result.0 ≡ self.place }
        ensures journal { result.1.items ≡ self.journal }
        // What the place holds is what its first contents and each entry's files leave.
        ensures kept { IsKeptBy (P.opening self.place) (P.contents self.place) self.journal }
        // At each path that is the file of the last entry which placed one there.
        ensures last { HoldsLast (P.opening self.place) (P.contents self.place) self.journal }
        ensures numbered { AreNumberedFrom 1 self.journal }
        ensures within { length self.journal ≤ self.limit }
        // A short entry comes only of a fault.
        ensures short { count_short self.journal ≤ P.faults self.place }
    {
        let Board {
            place,
            journal,
            limit: _,
        } = self;
        (place, journal)
    }
}
