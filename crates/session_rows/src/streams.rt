//! Frames that are written.

use crate::arguments::read_frame;
use rx_fakes::{MemorySink, Script};
use rx_rows::{RowFault, Turn};
use rx_session::write_frame;

/// The calls that fail: the one of this number, or none for 0.
pub(crate) fn read_script(turn: &mut Turn<'_, '_>) -> Script {
    let mut fails = Vec::new(turn.alloc());
    let number = turn.read_number();
    if number > 0 && fails.push(number).is_err() {
        turn.refuse(RowFault::NoMemory);
    }
    Script::new(fails)
}

/// `write FAILS FRAME`: how many bytes were taken, whether all were, and the bytes. A call takes
/// one byte.
pub(crate) fn answer_write(turn: &mut Turn<'_, '_>) {
    let script = read_script(turn);
    let frame = read_frame(turn);
    let mut sink = MemorySink::new(turn.alloc(), script);
    sink.most = 1;
    let (taken, written) = write_frame(&mut sink, &frame);
    turn.write_number(taken as u64);
    match written {
        Ok(()) => turn.write_word("whole"),
        Err(fault) => turn.write_value(&fault),
    }
    turn.write_bytes(&sink.bytes);
}
