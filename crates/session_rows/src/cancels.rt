//! What comes behind a request that watches.

use crate::arguments::read_frame;
use crate::streams::read_script;
use rx_fakes::MemorySource;
use rx_rows::{RowFault, Turn};
use rx_session::{CANCEL, read_cancel};

/// `cancel_frame`: the frame by which a client cancels.
pub(crate) fn answer_cancel_frame(turn: &mut Turn<'_, '_>) {
    turn.write_bytes(&CANCEL);
}

/// `cancel FAILS BYTES`: the bytes that were read, and what the cancel was. The source gives one
/// byte a call.
pub(crate) fn answer_cancel(turn: &mut Turn<'_, '_>) {
    let script = read_script(turn);
    let bytes = read_frame(turn);
    let mut source = MemorySource::new(bytes, script);
    source.most = 1;
    let done = write_cancel(&mut source, turn);
    turn.keep(done);
}

/// Reads a cancel behind other bytes.
fn write_cancel(source: &mut MemorySource, turn: &mut Turn<'_, '_>) -> Result<(), RowFault> {
    let mut all = Vec::from_slice(turn.alloc(), b"before")?;
    let reason = read_cancel(source, &mut all)?;
    turn.write_bytes(&all);
    turn.write_value(&reason);
    Ok(())
}
