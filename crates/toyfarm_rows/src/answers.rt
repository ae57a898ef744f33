//! Faults and results in answers.

use rx_base::Digest;
use rx_exec_messages::StateFault;
use rx_messages::ActionResult;
use rx_row_values::write_digest;
use rx_rows::{Answer, RowFault};
use rx_world::CallFault;
use std::alloc::Global;

/// Writes `ok`, or the fault of a call.
pub(crate) fn write_done(
    alloc: Global,
    done: Result<(), CallFault>,
    answer: &mut Answer,
) -> Result<(), RowFault> {
    match done {
        Ok(()) => answer.word("ok")?,
        Err(fault) => write_fault(alloc, fault, answer)?,
    }
    Ok(())
}

/// Writes the fault of a call. That of a blob has its digest and then the status.
pub(crate) fn write_fault(
    alloc: Global,
    fault: CallFault,
    answer: &mut Answer,
) -> Result<(), RowFault> {
    match fault {
        CallFault::NoMemory => return Err(RowFault::NoMemory),
        CallFault::BlobRefused(digest, code) => {
            answer.word("BlobRefused")?;
            write_digest(alloc, answer, &digest)?;
            answer.value(&code)?;
        }
        fault => answer.value(&fault)?,
    }
    Ok(())
}

/// Writes the fault of a state: that of a call, or `over` with the status of the execution.
pub(crate) fn write_state_fault(
    alloc: Global,
    fault: StateFault,
    answer: &mut Answer,
) -> Result<(), RowFault> {
    match fault {
        StateFault::Stream(fault) => write_fault(alloc, fault, answer),
        StateFault::Over(code) => {
            answer.word("over")?;
            answer.value(&code)?;
            Ok(())
        }
    }
}

/// Writes the code of a result, the digests of both texts, and each file.
pub(crate) fn write_result(
    alloc: Global,
    found: &ActionResult,
    answer: &mut Answer,
) -> Result<(), RowFault> {
    answer.value(&found.exit_code)?;
    write_text(alloc, found.stdout_digest, answer)?;
    write_text(alloc, found.stderr_digest, answer)?;
    for file in found.output_files.as_slice() {
        answer.text(file.path.as_str().as_bytes())?;
        write_text(alloc, file.digest, answer)?;
    }
    Ok(())
}

/// Writes a digest, or `none`.
fn write_text(alloc: Global, digest: Option<Digest>, answer: &mut Answer) -> Result<(), RowFault> {
    match digest {
        None => answer.word("none")?,
        Some(digest) => write_digest(alloc, answer, &digest)?,
    }
    Ok(())
}
