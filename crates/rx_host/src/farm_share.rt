//! What the sessions of one run share of their farm.

use crate::closing::Closing;
use crate::keeping::Keeping;
use crate::outage::Outage;
use std::alloc::{AllocError, Global};
use std::time::Clock;

/// Whether the farm is away, the connections that no session uses, and whether the run is to end. All sessions that share it call one
/// farm, of one instance.
#[derive(Drop)]
pub struct FarmShare {
    pub(crate) outage: Outage,
    pub(crate) keeping: Keeping,
    pub(crate) closing: Closing,
}

impl FarmShare {
    /// Nothing is known or kept yet, as a run begins.
    pub fn new(rt: &impl Clock, alloc: Global) -> Result<FarmShare, AllocError> {
        Ok(FarmShare {
            outage: Outage::new(rt, alloc)?,
            keeping: Keeping::new(alloc)?,
            closing: Closing::new(alloc)?,
        })
    }

    /// Another handle of the same.
    pub fn share(&self) -> Result<FarmShare, AllocError> {
        Ok(FarmShare {
            outage: self.outage.share()?,
            keeping: self.keeping.share()?,
            closing: self.closing.share()?,
        })
    }

    /// The run is to end. A session that waits for the farm waits on where that answers, and for a second where it says nothing.
    pub fn close(&self) {
        self.closing.begin();
    }
}
