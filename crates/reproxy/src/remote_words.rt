//! Why a remote attempt failed, in words for standard error.

use rx_world::{CallFault, RemoteCause, ResultFault};
use std::alloc::{AllocError, Global};

/// Why a remote attempt has no outcome.
pub(crate) fn remote_in_words(alloc: Global, cause: &RemoteCause) -> Result<String, AllocError> {
    match cause {
        RemoteCause::CallFailed { faults } => faults_in_words(alloc, faults.as_slice()),
        RemoteCause::BadBlob {
            expected: _,
            got: _,
        } => String::from_str(alloc, "the farm gave other bytes than it was asked for"),
        RemoteCause::BadResult { fault } => String::from_str(alloc, fault_in_words(*fault)),
        RemoteCause::OperationsSpent => {
            String::from_str(alloc, "the farm told 10,000 states and wasn't done")
        }
        RemoteCause::Stopped { decision: _ } => String::from_str(alloc, "it was stopped"),
        RemoteCause::InputChanged(input) => {
            let path = input.path.as_str();
            Ok(format!(in alloc; "the input {path} changed")?)
        }
        RemoteCause::WrongVersion { low, high } => {
            let (low, high) = (low.major, high.major);
            Ok(format!(in alloc; "the farm serves versions {low} to {high} of the API, and not 2")?)
        }
        RemoteCause::SourceFault { path } => {
            let path = path.as_str();
            Ok(format!(in alloc; "the input {path} couldn't be read")?)
        }
        RemoteCause::NoMemory => String::from_str(alloc, "memory ran out"),
    }
}

/// How many calls on the farm failed, and why the last of them did.
fn faults_in_words(alloc: Global, faults: &[CallFault]) -> Result<String, AllocError> {
    let count = faults.len();
    match faults.last() {
        Some(CallFault::Link) => Ok(format!(in alloc;
            "the farm couldn't be asked, {count} calls failed: no connection"
        )?),
        Some(fault) => Ok(format!(in alloc;
            "the farm couldn't be asked, {count} calls failed, the last: {fault}"
        )?),
        None => String::from_str(alloc, "the farm couldn't be asked"),
    }
}

/// What is wrong with a farm's result.
fn fault_in_words(fault: ResultFault) -> &'static str {
    match fault {
        ResultFault::NoResult => "the farm's response has no result",
        ResultFault::PathTwice => "the farm's result has an output twice",
        ResultFault::OutputAbsent => "the farm's result lacks an output",
        ResultFault::NoDigest => "the farm's result has an output without a digest",
        ResultFault::TooLarge => "the farm's result is too large",
    }
}
