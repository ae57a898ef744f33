//! Streams, and seeds of generators.

use crate::answers::write_count;
use rx_host::{HostSink, HostSource, draw_seed};
use rx_rows::{Answer, Row, RowFault};
use rx_world::{Sink, Source};

/// How many bytes a call reads at most.
const MOST_READ: usize = 4;

/// `source TEXT`: two reads of this input: how many bytes the first one gave, the buffer then, which was zero, and how
/// many the second one gave.
pub(crate) fn answer_source(
    rt: HostRuntime,
    row: &mut Row<'_>,
    answer: &mut Answer,
) -> Result<(), RowFault> {
    let text = row.text(rt.alloc())?;
    let mut source = HostSource::new(text.as_slice());
    let mut into = [0u8; MOST_READ];
    write_count(source.read(&mut into), answer)?;
    answer.text(&into)?;
    write_count(source.read(&mut into), answer)?;
    Ok(())
}

/// `sink TEXT`: how many bytes standard error took.
pub(crate) fn answer_sink(
    rt: HostRuntime,
    row: &mut Row<'_>,
    answer: &mut Answer,
) -> Result<(), RowFault> {
    let text = row.text(rt.alloc())?;
    let mut sink = HostSink::new(rt.stderr());
    write_count(sink.write(&text), answer)?;
    Ok(())
}

/// `seeds`: whether two of them differ.
pub(crate) fn answer_seeds(rt: HostRuntime, answer: &mut Answer) -> Result<(), RowFault> {
    let (Ok(first), Ok(second)) = (draw_seed(&rt), draw_seed(&rt)) else {
        return Err(RowFault::BadCall);
    };
    answer.word(if first == second { "same" } else { "differ" })?;
    Ok(())
}
