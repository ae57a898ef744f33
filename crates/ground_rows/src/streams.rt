//! Bytes in memory that are read, of `rx_fakes`.

use rx_fakes::{MemorySource, Script};
use rx_rows::{Answer, Row, RowFault};
use rx_world::Source;
use std::alloc::Global;

/// A source: `MOST FAILS TEXT`.
fn read_source(alloc: Global, row: &mut Row<'_>) -> Result<MemorySource, RowFault> {
    let most = row.number()? as usize;
    let fails = vec![in alloc; row.number()?]?;
    let mut source = MemorySource::new(row.text(alloc)?, Script::new(fails));
    source.most = most;
    Ok(source)
}

/// `source MOST FAILS TEXT BUFFER ..`: a source that has this text, gives so many bytes a call at most and
/// fails at the call of this number. It is read over each of the buffers: how many bytes came, and what the
/// buffer holds then.
pub(crate) fn answer_source(
    alloc: Global,
    row: &mut Row<'_>,
    answer: &mut Answer,
) -> Result<(), RowFault> {
    let mut source = read_source(alloc, row)?;
    for _ in 0..u64::MAX {
        if row.is_done() {
            return Ok(());
        }
        let mut buffer = row.text(alloc)?;
        match source.read(&mut buffer) {
            Ok(count) => answer.number(count as u64)?,
            Err(fault) => answer.value(&fault)?,
        }
        answer.text(&buffer)?;
    }
    Ok(())
}
