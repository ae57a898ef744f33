//! How attempts ended, in words.

use crate::arguments::read_path;
use crate::seen::{read_changed, read_digest};
use rx_base::Items;
use rx_rows::{RowFault, Turn};
use rx_world::{
    Attempt, BenchStep, CallFault, Cause, Decision, Failure, OutputLimit, RemoteCause, ResultFault,
    SemVer,
};

/// All ends that are left: `local CAUSE`, `remote CAUSE` or `non_zero EXIT`.
pub(crate) fn read_failures(turn: &mut Turn<'_, '_>) -> Items<Failure> {
    let mut failures = Items::new(turn.alloc());
    for _ in 0..u64::MAX {
        if turn.is_done() {
            break;
        }
        if failures.push(read_failure(turn)).is_err() {
            turn.refuse(RowFault::NoMemory);
        }
    }
    failures
}

fn read_failure(turn: &mut Turn<'_, '_>) -> Failure {
    match turn.read_word() {
        "local" => Failure::Local {
            cause: read_cause(turn),
        },
        "remote" => Failure::Remote {
            cause: read_remote_cause(turn),
        },
        "non_zero" => Failure::NonZero {
            exit: turn.read_i32(),
        },
        _ => {
            turn.refuse(RowFault::BadCall);
            Failure::NonZero { exit: 0 }
        }
    }
}

/// The cause of a local attempt.
fn read_cause(turn: &mut Turn<'_, '_>) -> Cause {
    match turn.read_word() {
        "bench_fault" => Cause::BenchFault {
            step: read_step(turn),
        },
        "output_missing" => Cause::OutputMissing {
            path: read_path(turn),
        },
        "input_changed" => Cause::InputChanged(read_changed(turn)),
        "output_too_large" => Cause::OutputTooLarge {
            limit: read_output_limit(turn),
            n: turn.read_number(),
        },
        "source_fault" => Cause::SourceFault {
            path: read_path(turn),
        },
        "stopped" => Cause::Stopped {
            decision: read_decision(turn),
        },
        "no_memory" => Cause::NoMemory,
        _ => {
            turn.refuse(RowFault::BadCall);
            Cause::NoMemory
        }
    }
}

/// The cause of a remote attempt.
fn read_remote_cause(turn: &mut Turn<'_, '_>) -> RemoteCause {
    match turn.read_word() {
        "call_failed" => RemoteCause::CallFailed {
            faults: read_call_faults(turn),
        },
        "bad_blob" => RemoteCause::BadBlob {
            expected: read_digest(turn),
            got: read_digest(turn),
        },
        "bad_result" => RemoteCause::BadResult {
            fault: read_result_fault(turn),
        },
        "operations_spent" => RemoteCause::OperationsSpent,
        "stopped" => RemoteCause::Stopped {
            decision: read_decision(turn),
        },
        "input_changed" => RemoteCause::InputChanged(read_changed(turn)),
        "wrong_version" => RemoteCause::WrongVersion {
            low: read_version(turn),
            high: read_version(turn),
        },
        "source_fault" => RemoteCause::SourceFault {
            path: read_path(turn),
        },
        "no_memory" => RemoteCause::NoMemory,
        _ => {
            turn.refuse(RowFault::BadCall);
            RemoteCause::NoMemory
        }
    }
}

/// `COUNT FAULT ..`: so many faults.
fn read_call_faults(turn: &mut Turn<'_, '_>) -> Items<CallFault> {
    let mut faults = Items::new(turn.alloc());
    for _ in 0..turn.read_number() {
        if faults.push(read_call_fault(turn)).is_err() {
            turn.refuse(RowFault::NoMemory);
        }
    }
    faults
}

fn read_call_fault(turn: &mut Turn<'_, '_>) -> CallFault {
    match turn.read_word() {
        "status" => CallFault::Status(turn.read_u32()),
        "link" => CallFault::Link,
        "protocol" => CallFault::Protocol(turn.read_u32()),
        "compressed" => CallFault::Compressed,
        "too_large" => CallFault::TooLarge,
        "no_status" => CallFault::NoStatus,
        "bad_message" => CallFault::BadMessage(turn.read_u32() as usize),
        "cut" => CallFault::Cut,
        "blob_refused" => {
            let digest = read_digest(turn);
            CallFault::BlobRefused(digest, turn.read_u32())
        }
        "no_memory" => CallFault::NoMemory,
        _ => {
            turn.refuse(RowFault::BadCall);
            CallFault::NoMemory
        }
    }
}

fn read_step(turn: &mut Turn<'_, '_>) -> BenchStep {
    match turn.read_word() {
        "Make" => BenchStep::Make,
        "MakeDir" => BenchStep::MakeDir,
        "Put" => BenchStep::Put,
        "Run" => BenchStep::Run,
        "Take" => BenchStep::Take,
        _ => {
            turn.refuse(RowFault::BadCall);
            BenchStep::Make
        }
    }
}

fn read_output_limit(turn: &mut Turn<'_, '_>) -> OutputLimit {
    match turn.read_word() {
        "FileBytes" => OutputLimit::FileBytes,
        "FilesBytes" => OutputLimit::FilesBytes,
        "TextBytes" => OutputLimit::TextBytes,
        _ => {
            turn.refuse(RowFault::BadCall);
            OutputLimit::FileBytes
        }
    }
}

fn read_result_fault(turn: &mut Turn<'_, '_>) -> ResultFault {
    match turn.read_word() {
        "NoResult" => ResultFault::NoResult,
        "PathTwice" => ResultFault::PathTwice,
        "OutputAbsent" => ResultFault::OutputAbsent,
        "NoDigest" => ResultFault::NoDigest,
        "TooLarge" => ResultFault::TooLarge,
        _ => {
            turn.refuse(RowFault::BadCall);
            ResultFault::NoResult
        }
    }
}

fn read_decision(turn: &mut Turn<'_, '_>) -> Decision {
    match turn.read_word() {
        "by_local" => Decision::By(Attempt::Local),
        "by_remote" => Decision::By(Attempt::Remote),
        "cancelled" => Decision::Cancelled,
        _ => {
            turn.refuse(RowFault::BadCall);
            Decision::Cancelled
        }
    }
}

/// `MAJOR MINOR PATCH`.
fn read_version(turn: &mut Turn<'_, '_>) -> SemVer {
    SemVer {
        major: turn.read_i32(),
        minor: turn.read_i32(),
        patch: turn.read_i32(),
    }
}
