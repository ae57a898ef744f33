//! Publications on a board over a place in memory.

use crate::arguments::{mark_of, read_mark, read_path};
use crate::streams::read_script;
use rx_base::{Bytes, Items};
use rx_board::{Board, Entry, PublishFault, Receipt};
use rx_fakes::MemoryPlace;
use rx_rows::{RowFault, Turn};
use rx_world::{FileOut, Listed};

/// The board that was opened last, or the parts of one that was closed.
#[derive(Drop)]
enum Opened {
    No,
    Board(Board<MemoryPlace>),
    Closed {
        place: MemoryPlace,
        journal: Vec<Entry>,
    },
}

/// A board from row to row.
#[derive(Drop)]
pub(crate) struct Publications {
    opened: Opened,
}

impl Publications {
    /// No board yet.
    pub(crate) fn new() -> Publications {
        Publications { opened: Opened::No }
    }

    /// `board FAILS LIMIT`: a new board, whose place is empty.
    pub(crate) fn open(&mut self, turn: &mut Turn<'_, '_>) {
        let alloc = turn.alloc();
        let script = read_script(turn);
        let limit = turn.read_u32() as usize;
        match MemoryPlace::new(alloc, Items::new(alloc), script) {
            Ok(place) => self.opened = Opened::Board(Board::new(alloc, place, limit)),
            Err(_) => turn.refuse(RowFault::NoMemory),
        }
        turn.write_word("ok");
    }

    /// `next`: the number of the next entry.
    pub(crate) fn answer_next(&self, turn: &mut Turn<'_, '_>) {
        match &self.opened {
            Opened::Board(board) => turn.write_number(board.next_number()),
            _ => turn.refuse(RowFault::BadCall),
        }
    }

    /// `full`: whether the journal takes no more.
    pub(crate) fn answer_full(&self, turn: &mut Turn<'_, '_>) {
        match &self.opened {
            Opened::Board(board) => turn.write_value(&board.is_full()),
            _ => turn.refuse(RowFault::BadCall),
        }
    }

    /// `publish SESSION FILE ..`: the receipt or the fault.
    pub(crate) fn answer_publish(&mut self, turn: &mut Turn<'_, '_>) {
        match &mut self.opened {
            Opened::Board(board) => publish(board, turn),
            _ => turn.refuse(RowFault::BadCall),
        }
    }

    /// `close`: how often the place was called and failed, and how many entries there are.
    pub(crate) fn close(&mut self, turn: &mut Turn<'_, '_>) {
        match std::mem::replace(&mut self.opened, Opened::No) {
            Opened::Board(board) => self.opened = closed(board, turn),
            _ => turn.refuse(RowFault::BadCall),
        }
    }

    /// `entry INDEX`: an entry of the journal of a closed board, the first one at 0.
    pub(crate) fn answer_entry(&self, turn: &mut Turn<'_, '_>) {
        match &self.opened {
            Opened::Closed { place: _, journal } => write_entry_at(journal, turn),
            _ => turn.refuse(RowFault::BadCall),
        }
    }

    /// `held`: what the place of a closed board holds.
    pub(crate) fn answer_held(&self, turn: &mut Turn<'_, '_>) {
        match &self.opened {
            Opened::Closed { place, journal: _ } => write_files(place.files.as_slice(), turn),
            _ => turn.refuse(RowFault::BadCall),
        }
    }
}

/// Publishes the files that the next words tell.
fn publish(board: &mut Board<MemoryPlace>, turn: &mut Turn<'_, '_>) {
    let session = turn.read_u32();
    let files = read_files(turn);
    match board.publish(turn.alloc(), session, &files) {
        Ok(receipt) => write_receipt(receipt, turn),
        Err(fault) => write_fault(fault, turn),
    }
}

/// The parts of a board, and what is told of them.
fn closed(board: Board<MemoryPlace>, turn: &mut Turn<'_, '_>) -> Opened {
    let (place, journal) = board.into_parts();
    turn.write_named("calls", place.script.calls);
    turn.write_named("faults", place.script.faults);
    turn.write_named("entries", journal.len() as u64);
    Opened::Closed { place, journal }
}

/// All files that are left: `PATH TEXT MARK`.
fn read_files(turn: &mut Turn<'_, '_>) -> Vec<FileOut> {
    let mut files = Vec::new(turn.alloc());
    for _ in 0..u64::MAX {
        if turn.is_done() {
            break;
        }
        if files.push(read_file(turn)).is_err() {
            turn.refuse(RowFault::NoMemory);
        }
    }
    files
}

fn read_file(turn: &mut Turn<'_, '_>) -> FileOut {
    FileOut {
        path: read_path(turn),
        bytes: Bytes::from_vec(turn.read_text()),
        executable: read_mark(turn),
    }
}

fn write_files(files: &[FileOut], turn: &mut Turn<'_, '_>) {
    if files.is_empty() {
        turn.write_word("nothing");
    }
    for file in files {
        turn.write_text(file.path.as_str().as_bytes());
        turn.write_text(file.bytes.as_slice());
        turn.write_word(mark_of(file.executable));
    }
}

fn write_receipt(receipt: Receipt, turn: &mut Turn<'_, '_>) {
    turn.write_named("receipt", receipt.number);
}

fn write_fault(fault: PublishFault, turn: &mut Turn<'_, '_>) {
    match fault {
        PublishFault::PlaceFault { receipt, placed } => {
            turn.write_word("PlaceFault");
            write_receipt(receipt, turn);
            turn.write_named("placed", placed);
        }
        PublishFault::JournalFull { limit } => turn.write_named("JournalFull", limit),
        PublishFault::NoMemory => turn.write_word("NoMemory"),
    }
}

/// The entry at the index of the next word.
fn write_entry_at(journal: &[Entry], turn: &mut Turn<'_, '_>) {
    let index = turn.read_u32() as usize;
    match journal.get(index) {
        Some(entry) => write_entry(entry, turn),
        None => turn.refuse(RowFault::BadCall),
    }
}

/// The entry's number, its session, how many files were placed, and all files.
fn write_entry(entry: &Entry, turn: &mut Turn<'_, '_>) {
    turn.write_named("number", entry.number);
    turn.write_named("session", u64::from(entry.session));
    turn.write_named("placed", entry.placed);
    for file in entry.files.as_slice() {
        write_listed(file, turn);
    }
}

/// A file's path, the hash of its bytes, how many they are, and its mark.
fn write_listed(file: &Listed, turn: &mut Turn<'_, '_>) {
    turn.write_text(file.path.as_str().as_bytes());
    match file.digest.hash_text(turn.alloc()) {
        Ok(hash) => turn.write_word(hash.as_str()),
        Err(_) => turn.refuse(RowFault::NoMemory),
    }
    turn.write_number(file.digest.size);
    turn.write_word(mark_of(file.executable));
}
