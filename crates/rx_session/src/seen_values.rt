//! What was seen at a path, and its message.

ghost use Rattle.std.specs.Prelude.{◌≡◌, ◌&&◌, Bool, Ok};
ghost use Rattle.rx_base.specs.Results.{Gives};
ghost use Rattle.rx_session.specs.Seen.{DigestsFit, changed_of, digests_fit, file_of, is_no_file, look_message, look_of, nothing_seen, same_look, seen_message, seen_of};
ghost use Rattle.rx_session.specs.declared.reply_fault.ReplyFault.TheVariants.{NoMemory};

use crate::path_texts::read_path;
use crate::reply_fault::ReplyFault;
use crate::seen_message::SeenMessage;
use rx_base::Text;
use rx_world::{ChangedInput, Look, Seen, Stamp};
use std::alloc::Global;

/// One more than the greatest half of a mark.
const HALF_MARK: u128 = 1 << 64;

/// The number of each look; nothing is 0.
const FILE: u64 = 1;

const DIRECTORY: u64 = 2;

const OTHER: u64 = 3;

/// Nothing, and no digest.
pub(crate) fn nothing_seen() -> SeenMessage
    ensures { result ≡ nothing_seen }
{
    SeenMessage {
        kind: 0,
        size: 0,
        mark_high: 0,
        mark_low: 0,
        digest: None,
        executable: 0,
    }
}

/// A look alone.
fn look_message(look: Look) -> SeenMessage
    ensures { result ≡ look_message look }
{
    match look {
        Look::Absent => nothing_seen(),
        Look::File { stamp, executable } => SeenMessage {
            kind: FILE,
            size: stamp.size,
            mark_high: (stamp.mark / HALF_MARK) as u64,
            mark_low: (stamp.mark % HALF_MARK) as u64,
            digest: None,
            executable: u64::from(executable),
        },
        Look::Dir => SeenMessage {
            kind: DIRECTORY,
            ..nothing_seen()
        },
        Look::Other => SeenMessage {
            kind: OTHER,
            ..nothing_seen()
        },
    }
}

/// The message of what was seen.
pub(crate) fn seen_message(seen: &Seen) -> SeenMessage
    ensures { result ≡ seen_message seen.now }
{
    SeenMessage {
        digest: seen.digest,
        ..look_message(seen.look)
    }
}

/// Whether no field of a file is set.
#[tactic(auto, unfolding(crate::specs::Seen::is_no_file))]
pub(crate) fn is_no_file(message: &SeenMessage) -> bool
    ensures { result ≡ is_no_file message.now }
{
    message.size == 0 && message.mark_high == 0 && message.mark_low == 0 && message.executable == 0
}

/// The file of a message, where executable is 0 or 1.
#[tactic(auto, unfolding(crate::specs::Seen::file_of))]
fn file_of(message: &SeenMessage) -> Result<Look, ReplyFault>
    ensures { result ≡ file_of message.now }
{
    if message.executable > 1 {
        return Err(ReplyFault::BadReply);
    }
    let stamp = Stamp {
        size: message.size,
        mark: u128::from(message.mark_high) * HALF_MARK + u128::from(message.mark_low),
    };
    Ok(Look::File {
        stamp,
        executable: message.executable == 1,
    })
}

/// The look of a message. Only a file has a size, a mark and a bit to be executed.
#[tactic(auto, unfolding(crate::specs::Seen::look_of))]
fn look_of(message: &SeenMessage) -> Result<Look, ReplyFault>
    ensures { result ≡ look_of message.now }
{
    if message.kind == FILE {
        return file_of(message);
    }
    if !is_no_file(message) {
        return Err(ReplyFault::BadReply);
    }
    match message.kind {
        0 => Ok(Look::Absent),
        DIRECTORY => Ok(Look::Dir),
        OTHER => Ok(Look::Other),
        _ => Err(ReplyFault::BadReply),
    }
}

/// What a message tells as seen.
#[tactic(auto, unfolding(crate::specs::Seen::seen_of))]
fn seen_of(message: &SeenMessage) -> Result<Seen, ReplyFault>
    ensures { result ≡ seen_of message.now }
{
    let look = look_of(message)?;
    Ok(Seen {
        look,
        digest: message.digest,
    })
}

/// Whether the looks of two messages are equal.
#[tactic(auto, unfolding(crate::specs::Seen::same_look))]
fn same_look(first: &SeenMessage, second: &SeenMessage) -> bool
    ensures { result ≡ same_look first.now second.now }
{
    first.kind == second.kind
        && first.size == second.size
        && first.mark_high == second.mark_high
        && first.mark_low == second.mark_low
        && first.executable == second.executable
}

/// Whether both have digests where their looks are equal, and neither where they differ.
#[tactic(auto, unfolding(crate::specs::Seen::digests_fit))]
fn digests_fit(first: &SeenMessage, second: &SeenMessage) -> bool
    ensures { result ≡ digests_fit first.now second.now }
{
    if same_look(first, second) {
        first.digest.is_some() && second.digest.is_some()
    } else {
        first.digest.is_none() && second.digest.is_none()
    }
}

/// The input of a path and of two messages, each of which has to be there.
#[tactic(auto, unfolding(crate::specs::Seen::changed_of))]
pub(crate) fn read_changed(
    alloc: Global,
    path: &Text,
    first: &Option<SeenMessage>,
    second: &Option<SeenMessage>,
) -> Result<ChangedInput, ReplyFault>
    ensures { Gives NoMemory (λ input. input) result
        (changed_of path.now first.now second.now) }
{
    let (Some(first), Some(second)) = (first, second) else {
        return Err(ReplyFault::BadReply);
    };
    let path = read_path(alloc, path)?;
    let first_seen = seen_of(first)?;
    let second_seen = seen_of(second)?;
    if !digests_fit(first, second) {
        return Err(ReplyFault::BadReply);
    }
    Ok(ChangedInput {
        path,
        first: first_seen,
        second: second_seen,
    })
}
