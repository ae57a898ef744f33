//! Calls of the system that a thread of their own makes, so that whoever waits for one can leave it. Only the wait asks
//! for a handle, so that the thread needs none.

use crate::patience::{Patience, tick};
use std::sync::atomic::{AtomicU64, Ordering};
use std::sync::{Mutex, Wait};
use std::time::Duration;

/// How far a call is: it goes on, it has ended, or nobody waits for it any more.
const GOING: u64 = 0;

const ENDED: u64 = 1;

const LEFT: u64 = 2;

/// A call that another thread makes.
#[derive(Drop)]
pub(crate) struct Call<T> {
    progress: AtomicU64,
    /// What it ended with, which is there before it has ended.
    value: Mutex<Option<T>>,
}

impl<T: Drop> Call<T> {
    /// A call that goes on.
    pub(crate) fn new() -> Call<T> {
        Call {
            progress: AtomicU64::new(GOING),
            value: Mutex::new(None),
        }
    }

    /// A call that goes on ends or is left; any other stays as it is.
    fn stop_at(&self, progress: u64) {
        let _ = self
            .progress
            .compare_exchange(GOING, progress, Ordering::SeqCst, Ordering::SeqCst);
        self.progress.wake_all();
    }

    /// The call ended with this. Nobody else takes the lock before it has.
    pub(crate) fn end(&self, value: T) {
        if let Some(mut slot) = self.value.try_lock() {
            *slot = Some(value);
        }
        self.stop_at(ENDED);
    }

    /// Nobody is to wait for it any longer.
    pub(crate) fn leave(&self) {
        self.stop_at(LEFT);
    }

    /// Waits until the call has ended, and takes what it ended with: nothing, where it was left.
    pub(crate) fn wait(&self, hands: &impl Wait) -> Option<T> {
        for _ in hands.forever() {
            match self.progress.load(Ordering::SeqCst) {
                GOING => self.progress.park(hands, GOING as u32),
                ENDED => return self.value.lock(hands).take(),
                _ => return None,
            }
        }
        unreachable!()
    }

    /// The same, where somebody has the patience for it. Else it is nothing, and the call goes on.
    pub(crate) fn wait_patiently(&self, hands: &impl Wait, patience: &impl Patience) -> Option<T> {
        let mut silence = Duration::ZERO;
        for _ in hands.forever() {
            match self.progress.load(Ordering::SeqCst) {
                GOING => {
                    let borne = patience.bear(silence)?;
                    self.progress.park_timeout(hands, GOING as u32, tick());
                    silence = borne.saturating_add(tick());
                }
                ENDED => return self.value.lock(hands).take(),
                _ => return None,
            }
        }
        unreachable!()
    }
}
