//! Replies in words, and their frames.

use crate::arguments::read_path;
use crate::ends::read_failures;
use crate::seen::read_changed;
use rx_base::{Bytes, Text};
use rx_rows::{RowFault, Turn};
use rx_session::{Bad, BadReason, CancelReason, InPlaceCause, Reply, Room, encode};
use rx_world::{Limit, LocalCause, Origin};

/// `reply REPLY`: its frame.
pub(crate) fn answer_reply(turn: &mut Turn<'_, '_>) {
    let reply = read_reply(turn);
    write_frame(&reply, turn);
}

fn write_frame(reply: &Reply, turn: &mut Turn<'_, '_>) {
    match encode(turn.alloc(), reply) {
        Ok(frame) => write_parts(&frame, turn),
        Err(_) => turn.refuse(RowFault::NoMemory),
    }
}

/// `room RECEIPT PLACED`: the frame of a place fault, which takes no memory.
pub(crate) fn answer_room(turn: &mut Turn<'_, '_>) {
    let receipt = turn.read_number();
    let placed = turn.read_number();
    match Room::new(turn.alloc()) {
        Ok(room) => write_parts(&room.encode_place_fault(receipt, placed), turn),
        Err(_) => turn.refuse(RowFault::NoMemory),
    }
}

/// The kind, the length and the payload of a frame.
fn write_parts(frame: &[u8], turn: &mut Turn<'_, '_>) {
    let [kind, len_1, len_2, len_3, len_4, payload @ ..] = frame else {
        return turn.refuse(RowFault::BadCall);
    };
    turn.write_bytes(&[*kind]);
    turn.write_bytes(&[*len_1, *len_2, *len_3, *len_4]);
    turn.write_bytes(payload);
}

fn read_reply(turn: &mut Turn<'_, '_>) -> Reply {
    match turn.read_word() {
        "done" => read_done(turn),
        "bad_request" => Reply::BadRequest {
            bad: read_bad(turn),
        },
        "not_remotable" => Reply::NotRemotable {
            cause: read_local_cause(turn),
        },
        "input_missing" => Reply::InputMissing {
            path: read_path(turn),
        },
        "input_changed" => Reply::InputChanged(read_changed(turn)),
        "source_fault" => Reply::SourceFault {
            path: read_path(turn),
        },
        "too_large" => read_too_large(turn),
        "all_failed" => Reply::AllFailed {
            failures: read_failures(turn),
        },
        "cancelled" => Reply::Cancelled {
            reason: read_cancel_reason(turn),
        },
        "place_fault" => Reply::PlaceFault {
            receipt: turn.read_number(),
            placed: turn.read_number(),
        },
        "journal_full" => Reply::JournalFull,
        "no_memory" => Reply::NoMemory,
        "blocked" => Reply::Blocked {
            path: read_path(turn),
        },
        "in_place" => Reply::InPlace {
            cause: read_in_place(turn),
        },
        _ => {
            turn.refuse(RowFault::BadCall);
            Reply::NoMemory
        }
    }
}

fn read_bad(turn: &mut Turn<'_, '_>) -> Bad {
    Bad {
        reason: read_reason(turn),
        value: turn.read_number(),
    }
}

/// `kept word TEXT`, `kept path PATH` or `too_large LIMIT`.
fn read_in_place(turn: &mut Turn<'_, '_>) -> InPlaceCause {
    match turn.read_word() {
        "kept" => InPlaceCause::Kept {
            cause: read_local_cause(turn),
        },
        "too_large" => InPlaceCause::TooLarge {
            limit: read_limit(turn),
        },
        _ => {
            turn.refuse(RowFault::BadCall);
            InPlaceCause::TooLarge {
                limit: Limit::ScanFiles,
            }
        }
    }
}

/// `done EXIT STDOUT STDERR ORIGIN RECEIPT PLACED`.
fn read_done(turn: &mut Turn<'_, '_>) -> Reply {
    Reply::Done {
        exit: turn.read_i32(),
        stdout: Bytes::from_vec(turn.read_text()),
        stderr: Bytes::from_vec(turn.read_text()),
        origin: read_origin(turn),
        receipt: turn.read_number(),
        placed: turn.read_number(),
    }
}

fn read_origin(turn: &mut Turn<'_, '_>) -> Origin {
    match turn.read_word() {
        "Local" => Origin::Local,
        "Remote" => Origin::Remote,
        "Cache" => Origin::Cache,
        _ => {
            turn.refuse(RowFault::BadCall);
            Origin::Local
        }
    }
}

fn read_reason(turn: &mut Turn<'_, '_>) -> BadReason {
    match turn.read_word() {
        "CutShort" => BadReason::CutShort,
        "TooLong" => BadReason::TooLong,
        "BadKind" => BadReason::BadKind,
        "BadMessage" => BadReason::BadMessage,
        "UnknownVersion" => BadReason::UnknownVersion,
        "WrongRoot" => BadReason::WrongRoot,
        "BadField" => BadReason::BadField,
        "Trailing" => BadReason::Trailing,
        "NotBuilt" => BadReason::NotBuilt,
        _ => {
            turn.refuse(RowFault::BadCall);
            BadReason::CutShort
        }
    }
}

fn read_cancel_reason(turn: &mut Turn<'_, '_>) -> CancelReason {
    match turn.read_word() {
        "Asked" => CancelReason::Asked,
        "Ended" => CancelReason::Ended,
        "OtherBytes" => CancelReason::OtherBytes,
        "Lost" => CancelReason::Lost,
        _ => {
            turn.refuse(RowFault::BadCall);
            CancelReason::Asked
        }
    }
}

/// `word TEXT` or `path PATH`.
fn read_local_cause(turn: &mut Turn<'_, '_>) -> LocalCause {
    match turn.read_word() {
        "word" => LocalCause::Word {
            word: Text::from_string(turn.read_string()),
        },
        "path" => LocalCause::Path {
            path: read_path(turn),
        },
        _ => {
            turn.refuse(RowFault::BadCall);
            LocalCause::Word {
                word: Text::new(turn.alloc()),
            }
        }
    }
}

/// `LIMIT N`, and the path of the file where one file passes the limit.
fn read_too_large(turn: &mut Turn<'_, '_>) -> Reply {
    let limit = read_limit(turn);
    let n = turn.read_number();
    let path = if turn.is_done() {
        None
    } else {
        Some(read_path(turn))
    };
    Reply::TooLarge { limit, n, path }
}

fn read_limit(turn: &mut Turn<'_, '_>) -> Limit {
    match turn.read_word() {
        "ScanFiles" => Limit::ScanFiles,
        "FileBytes" => Limit::FileBytes,
        "ScanBytes" => Limit::ScanBytes,
        "ListFiles" => Limit::ListFiles,
        "ListBytes" => Limit::ListBytes,
        _ => {
            turn.refuse(RowFault::BadCall);
            Limit::ScanFiles
        }
    }
}
