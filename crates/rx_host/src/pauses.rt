//! The pauses of an attempt between its calls on a farm, so that a farm that restarts isn't asked four times within a
//! millisecond.

use rx_world::CallFault;
use std::time::Duration;

/// How long an attempt waits before the call behind its first fault, in milliseconds, unless the farm asks for another time.
const FIRST_MILLIS: u64 = 100;

/// The same behind its second fault.
const SECOND_MILLIS: u64 = 500;

/// The same behind each later one.
const LATER_MILLIS: u64 = 2000;

/// The longest pause that a farm may ask for, in milliseconds.
const MOST_MILLIS: u64 = 10_000;

/// So many faults end an attempt.
const LAST: u32 = 4;

/// The statuses of `google/rpc/code.proto` that are asked again: CANCELLED, UNKNOWN, DEADLINE_EXCEEDED,
/// RESOURCE_EXHAUSTED, ABORTED, INTERNAL, UNAVAILABLE.
const RETRIED_CODES: [u32; 7] = [1, 2, 4, 8, 10, 13, 14];

/// The faults of an attempt that are asked again. A call that goes well leaves their count as it is.
#[derive(Debug, Drop)]
pub(crate) struct Pauses {
    faults: u32,
    /// Whether the last call was one of them.
    is_due: bool,
    /// For how many milliseconds the farm asked to be left alone behind it, if it did.
    asked: Option<u64>,
}

impl Pauses {
    /// No fault yet.
    pub(crate) fn new() -> Pauses {
        Pauses {
            faults: 0,
            is_due: false,
            asked: None,
        }
    }

    /// Counts the fault of a call, if it is asked again. With a status the farm may have asked to be left alone for so many
    /// milliseconds.
    pub(crate) fn heed<T>(&mut self, answer: &Result<T, CallFault>, asked: Option<u64>) {
        if let Err(fault) = answer {
            if is_retried(*fault) {
                self.faults = self.faults.saturating_add(1);
                self.is_due = true;
                self.asked = match fault {
                    CallFault::Status(_) => asked,
                    _ => None,
                };
            }
        }
    }

    /// Whether the last call was a fault that ends the attempt.
    pub(crate) fn is_over(&self) -> bool {
        self.is_due && self.faults >= LAST
    }

    /// The pause before the next call, where there is to be one.
    pub(crate) fn take(&mut self) -> Option<Duration> {
        if !self.is_due {
            return None;
        }
        self.is_due = false;
        let millis = match (self.asked, self.faults) {
            (Some(asked), _) => asked.min(MOST_MILLIS),
            (None, 1) => FIRST_MILLIS,
            (None, 2) => SECOND_MILLIS,
            (None, _) => LATER_MILLIS,
        };
        Some(Duration::from_millis(millis))
    }
}

/// Whether a call with this fault is asked again, whatever was asked.
fn is_retried(fault: CallFault) -> bool {
    match fault {
        CallFault::Status(code) => RETRIED_CODES.contains(&code),
        CallFault::Link | CallFault::Cut | CallFault::NoStatus => true,
        _ => false,
    }
}
