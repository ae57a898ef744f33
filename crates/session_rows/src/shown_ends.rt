//! How attempts ended, shown in the words of `ends`.

use crate::shown_values::{show_changed, show_digest, show_path, show_value};
use rx_base::Digest;
use rx_rows::Turn;
use rx_world::{CallFault, Cause, Failure, RemoteCause, SemVer};

/// `local CAUSE`, `remote CAUSE` or `non_zero EXIT`, of each end.
pub(crate) fn show_failures(failures: &[Failure], turn: &mut Turn<'_, '_>) {
    for failure in failures {
        show_failure(failure, turn);
    }
}

fn show_failure(failure: &Failure, turn: &mut Turn<'_, '_>) {
    match failure {
        Failure::Local { cause } => {
            turn.write_word("local");
            show_cause(cause, turn);
        }
        Failure::Remote { cause } => {
            turn.write_word("remote");
            show_remote_cause(cause, turn);
        }
        Failure::NonZero { exit } => show_value("non_zero", exit, turn),
    }
}

fn show_cause(cause: &Cause, turn: &mut Turn<'_, '_>) {
    match cause {
        Cause::BenchFault { step } => show_value("bench_fault", step, turn),
        Cause::OutputMissing { path } => show_path("output_missing", path, turn),
        Cause::InputChanged(input) => show_changed(input, turn),
        Cause::OutputTooLarge { limit, n } => {
            show_value("output_too_large", limit, turn);
            turn.write_number(*n);
        }
        Cause::SourceFault { path } => show_path("source_fault", path, turn),
        Cause::Stopped { decision } => show_value("stopped", decision, turn),
        Cause::NoMemory => turn.write_word("no_memory"),
    }
}

fn show_remote_cause(cause: &RemoteCause, turn: &mut Turn<'_, '_>) {
    match cause {
        RemoteCause::CallFailed { faults } => show_call_faults(faults.as_slice(), turn),
        RemoteCause::BadBlob { expected, got } => show_bad_blob(expected, got, turn),
        RemoteCause::BadResult { fault } => show_value("bad_result", fault, turn),
        RemoteCause::OperationsSpent => turn.write_word("operations_spent"),
        RemoteCause::Stopped { decision } => show_value("stopped", decision, turn),
        RemoteCause::InputChanged(input) => show_changed(input, turn),
        RemoteCause::WrongVersion { low, high } => show_versions(low, high, turn),
        RemoteCause::SourceFault { path } => show_path("source_fault", path, turn),
        RemoteCause::NoMemory => turn.write_word("no_memory"),
    }
}

fn show_bad_blob(expected: &Digest, got: &Digest, turn: &mut Turn<'_, '_>) {
    turn.write_word("bad_blob");
    show_digest(expected, turn);
    show_digest(got, turn);
}

fn show_versions(low: &SemVer, high: &SemVer, turn: &mut Turn<'_, '_>) {
    turn.write_word("wrong_version");
    show_version(low, turn);
    show_version(high, turn);
}

/// `COUNT FAULT ..`: so many faults.
fn show_call_faults(faults: &[CallFault], turn: &mut Turn<'_, '_>) {
    turn.write_named("call_failed", faults.len() as u64);
    for fault in faults {
        show_call_fault(fault, turn);
    }
}

fn show_call_fault(fault: &CallFault, turn: &mut Turn<'_, '_>) {
    match fault {
        CallFault::Status(code) => turn.write_named("status", u64::from(*code)),
        CallFault::Link => turn.write_word("link"),
        CallFault::Protocol(code) => turn.write_named("protocol", u64::from(*code)),
        CallFault::Compressed => turn.write_word("compressed"),
        CallFault::TooLarge => turn.write_word("too_large"),
        CallFault::NoStatus => turn.write_word("no_status"),
        CallFault::BadMessage(at) => turn.write_named("bad_message", *at as u64),
        CallFault::Cut => turn.write_word("cut"),
        CallFault::BlobRefused(digest, code) => show_refused(digest, *code, turn),
        CallFault::NoMemory => turn.write_word("no_memory"),
    }
}

fn show_refused(digest: &Digest, code: u32, turn: &mut Turn<'_, '_>) {
    turn.write_word("blob_refused");
    show_digest(digest, turn);
    turn.write_number(u64::from(code));
}

/// `MAJOR MINOR PATCH`.
fn show_version(version: &SemVer, turn: &mut Turn<'_, '_>) {
    turn.write_value(&version.major);
    turn.write_value(&version.minor);
    turn.write_value(&version.patch);
}
