//! Digests, looks and inputs that changed, in answers.

use rx_base::{Digest, NoMemory};
use rx_rows::Answer;
use rx_world::{ChangedInput, Look, Seen};
use std::alloc::Global;

/// Writes a digest.
pub fn write_digest(alloc: Global, answer: &mut Answer, digest: &Digest) -> Result<(), NoMemory> {
    let hash = digest.hash_text(alloc)?;
    let text = format!(in alloc; "{}/{}", hash.as_str(), digest.size)?;
    answer.word(text.as_str())
}

/// Writes a look.
pub fn write_look(alloc: Global, answer: &mut Answer, look: Look) -> Result<(), NoMemory> {
    match look {
        Look::Absent => answer.word("absent"),
        Look::Dir => answer.word("dir"),
        Look::Other => answer.word("other"),
        Look::File { stamp, executable } => {
            let text = format!(in alloc; "file:{}:{}", stamp.size, stamp.mark)?;
            answer.word(text.as_str())?;
            if executable {
                return answer.word("executable");
            }
            Ok(())
        }
    }
}

/// Writes what was seen: the look and, where it has one, the digest.
fn write_seen(alloc: Global, answer: &mut Answer, seen: &Seen) -> Result<(), NoMemory> {
    write_look(alloc, answer, seen.look)?;
    match &seen.digest {
        None => Ok(()),
        Some(digest) => write_digest(alloc, answer, digest),
    }
}

/// Writes what was seen of an input first, and then.
pub fn write_changed(
    alloc: Global,
    answer: &mut Answer,
    input: &ChangedInput,
) -> Result<(), NoMemory> {
    write_seen(alloc, answer, &input.first)?;
    answer.word("then")?;
    write_seen(alloc, answer, &input.second)
}
