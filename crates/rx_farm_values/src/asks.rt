//! The calls that were made on a farm's client in memory, in answers.

use rx_base::{Digest, Items};
use rx_exec_messages::Ask;
use rx_row_values::write_digest;
use rx_rows::Answer;
use std::alloc::{AllocError, Global};

/// Writes the calls that were made on a farm's client, in order.
pub fn write_asks(alloc: Global, asks: &[Ask], answer: &mut Answer) -> Result<(), AllocError> {
    answer.word("calls")?;
    for ask in asks {
        write_ask(alloc, ask, answer)?;
    }
    Ok(())
}

/// Writes a call by its name, with the digests or the name that it was about.
fn write_ask(alloc: Global, ask: &Ask, answer: &mut Answer) -> Result<(), AllocError> {
    match ask {
        Ask::Capabilities => answer.word("capabilities"),
        Ask::GetResult(action) => write_named(alloc, "get_result", action, answer),
        Ask::FindMissing(digests) => write_list(alloc, "find_missing", digests, answer),
        Ask::Update(digests) => write_list(alloc, "update", digests, answer),
        Ask::Read(digests) => write_list(alloc, "read", digests, answer),
        Ask::WriteStream(digest) => write_named(alloc, "write_stream", digest, answer),
        Ask::ReadStream(digest) => write_named(alloc, "read_stream", digest, answer),
        Ask::Execute {
            action,
            skip_cache: false,
        } => write_named(alloc, "execute", action, answer),
        Ask::Execute {
            action,
            skip_cache: true,
        } => write_named(alloc, "execute skip_cache", action, answer),
        Ask::Wait(name) => {
            answer.word("wait")?;
            answer.text(name.as_str().as_bytes())
        }
        Ask::NextOperation => answer.word("next_operation"),
    }
}

/// Writes a word and a digest.
fn write_named(
    alloc: Global,
    word: &str,
    digest: &Digest,
    answer: &mut Answer,
) -> Result<(), AllocError> {
    answer.word(word)?;
    write_digest(alloc, answer, digest)
}

/// Writes a word and digests.
fn write_list(
    alloc: Global,
    word: &str,
    digests: &Items<Digest>,
    answer: &mut Answer,
) -> Result<(), AllocError> {
    answer.word(word)?;
    for digest in digests.as_slice() {
        write_digest(alloc, answer, digest)?;
    }
    Ok(())
}
