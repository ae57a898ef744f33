//! What the words of a command line ask for, as rows tell it.

use crate::arguments::words_in;
use rx_daemon::options_in;
use rx_rows::{Answer, Row, RowFault};
use std::alloc::Global;

/// `options WORDS`: what the words of a command line ask for, or `none`.
pub(crate) fn show_options(
    alloc: Global,
    row: &mut Row<'_>,
    answer: &mut Answer,
) -> Result<(), RowFault> {
    let words = words_in(alloc, row)?;
    let Some(options) = options_in(&words) else {
        answer.word("none")?;
        return Ok(());
    };
    answer.text(options.root.as_bytes())?;
    match options.remote {
        Some(remote) => answer.text(remote.as_bytes())?,
        None => answer.word("none")?,
    }
    answer.text(options.instance.as_bytes())?;
    answer.text(options.scratch.as_bytes())?;
    answer.number(u64::from(options.sessions))?;
    answer.number(u64::from(options.slots))?;
    answer.number(u64::from(options.call_timeout))?;
    answer.number(u64::from(options.farm_silence))?;
    if let Some(listen) = options.listen {
        answer.text(listen.as_bytes())?;
    }
    Ok(())
}
