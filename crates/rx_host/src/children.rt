//! How many programs run that were started here, and how many replies are being written.

use std::alloc::{AllocError, Global};
use std::sync::atomic::{AtomicU64, Ordering};
use std::sync::{Arc, Wait};

/// The programs of all sessions of a process that run, and the replies that threads of their own write. Programs of halted
/// attempts run on, and each one's directory is removed at its end: so whoever ends the process waits for all.
#[derive(Drop)]
pub struct Children {
    count: Arc<AtomicU64, Global>,
}

impl Children {
    /// None yet.
    pub fn new(alloc: Global) -> Result<Children, AllocError> {
        Ok(Children {
            count: Arc::new(alloc, AtomicU64::new(0))?,
        })
    }

    /// Another handle of the same.
    pub fn share(&self) -> Result<Children, AllocError> {
        Ok(Children {
            count: Arc::try_clone(&self.count)?,
        })
    }

    /// Waits until none runs any more.
    pub fn wait_for_all(&self, hands: &impl Wait) {
        for _ in hands.forever() {
            let count = self.count.load(Ordering::SeqCst);
            if count == 0 {
                return;
            }
            self.count.park(hands, (count & 0xffff_ffff) as u32);
        }
    }

    pub(crate) fn begin(&self) {
        self.count.fetch_add(1, Ordering::SeqCst);
    }

    pub(crate) fn end(&self) {
        self.count.fetch_sub(1, Ordering::SeqCst);
        self.count.wake_all();
    }
}
