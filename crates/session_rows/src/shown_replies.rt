//! Payloads, and the replies that they are, shown in the words of `replies`.

use crate::arguments::read_frame;
use crate::shown_ends::show_failures;
use crate::shown_values::{show_changed, show_path, show_value};
use rx_base::{Bytes, RelPath};
use rx_rows::Turn;
use rx_session::{Bad, InPlaceCause, Reply, ReplyFault};
use rx_world::{Limit, LocalCause, Origin};

/// `decode PAYLOAD`: the reply, or why it is none.
pub(crate) fn answer_decode(turn: &mut Turn<'_, '_>) {
    let payload = read_frame(turn);
    let decoded = Reply::decode(turn.alloc(), &payload);
    show_decoded(&decoded, turn);
}

fn show_decoded(decoded: &Result<Reply, ReplyFault>, turn: &mut Turn<'_, '_>) {
    match decoded {
        Ok(reply) => show_reply(reply, turn),
        Err(fault) => show_fault(fault, turn),
    }
}

fn show_fault(fault: &ReplyFault, turn: &mut Turn<'_, '_>) {
    match fault {
        ReplyFault::Wire(fault) => turn.write_value(fault),
        ReplyFault::BadReply | ReplyFault::NoMemory => turn.write_value(fault),
    }
}

fn show_reply(reply: &Reply, turn: &mut Turn<'_, '_>) {
    match reply {
        Reply::Done {
            exit,
            stdout,
            stderr,
            origin,
            receipt,
            placed,
        } => {
            show_done(*exit, stdout, stderr, *origin, turn);
            show_receipt(*receipt, *placed, turn);
        }
        Reply::BadRequest { bad } => show_bad(bad, turn),
        Reply::NotRemotable { cause } => show_local_cause("not_remotable", cause, turn),
        Reply::InputMissing { path } => show_path("input_missing", path, turn),
        Reply::InputChanged(input) => show_changed(input, turn),
        Reply::SourceFault { path } => show_path("source_fault", path, turn),
        Reply::TooLarge { limit, n, path } => show_too_large(*limit, *n, path, turn),
        Reply::AllFailed { failures } => {
            turn.write_word("all_failed");
            show_failures(failures.as_slice(), turn);
        }
        Reply::Cancelled { reason } => show_value("cancelled", reason, turn),
        Reply::PlaceFault { receipt, placed } => {
            turn.write_word("place_fault");
            show_receipt(*receipt, *placed, turn);
        }
        Reply::JournalFull => turn.write_word("journal_full"),
        Reply::NoMemory => turn.write_word("no_memory"),
        Reply::Blocked { path } => show_path("blocked", path, turn),
        Reply::InPlace { cause } => show_in_place(cause, turn),
    }
}

fn show_done(exit: i32, stdout: &Bytes, stderr: &Bytes, origin: Origin, turn: &mut Turn<'_, '_>) {
    show_value("done", &exit, turn);
    turn.write_text(stdout.as_slice());
    turn.write_text(stderr.as_slice());
    turn.write_value(&origin);
}

fn show_receipt(receipt: u64, placed: u64, turn: &mut Turn<'_, '_>) {
    turn.write_number(receipt);
    turn.write_number(placed);
}

fn show_bad(bad: &Bad, turn: &mut Turn<'_, '_>) {
    show_value("bad_request", &bad.reason, turn);
    turn.write_number(bad.value);
}

/// A word, and what keeps a command.
fn show_local_cause(word: &str, cause: &LocalCause, turn: &mut Turn<'_, '_>) {
    turn.write_word(word);
    match cause {
        LocalCause::Word { word } => {
            turn.write_word("word");
            turn.write_text(word.as_str().as_bytes());
        }
        LocalCause::Path { path } => show_path("path", path, turn),
    }
}

fn show_in_place(cause: &InPlaceCause, turn: &mut Turn<'_, '_>) {
    turn.write_word("in_place");
    match cause {
        InPlaceCause::Kept { cause } => show_local_cause("kept", cause, turn),
        InPlaceCause::TooLarge { limit } => show_value("too_large", limit, turn),
    }
}

fn show_too_large(limit: Limit, n: u64, path: &Option<RelPath>, turn: &mut Turn<'_, '_>) {
    show_value("too_large", &limit, turn);
    turn.write_number(n);
    if let Some(path) = path {
        turn.write_text(path.as_str().as_bytes());
    }
}
