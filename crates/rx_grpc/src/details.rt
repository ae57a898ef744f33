//! The details that came with a status, as they were sent, and how long they ask to wait.

ghost use Rattle.std.specs.Prelude.{◌≡◌, IfOk, None};
ghost use Rattle.rx_grpc.specs.RetryDelay.{retry_delay_of};

use crate::retry_delay::retry_delay_of;
use rx_base::{Bytes, NoMemory};
use std::alloc::Global;
use std::marker::Model;

/// The details that came with a status, or none.
#[derive(Drop)]
pub struct Details {
    sent: Option<Bytes>,
    /// How many milliseconds they ask to wait.
    delay: Option<u64>,
}

impl Model for Details {
    ghost use Rattle.std.specs.Prelude.{List, Option, ℕ};

    ghost Value = { Option (List ℕ) };

    ghost use Rattle.std.specs.Prelude.{◌≡◌};
    ghost use Rattle.rx_grpc.specs.RetryDelay.{retry_delay_of};

    ghost view = { λ d. d.sent };

    ghost invariant = { λ d. d.delay ≡ retry_delay_of d.sent };
}

impl Details {
    /// None came.
    pub fn none() -> Details
        ensures { result ≡ None }
    {
        Details {
            sent: None,
            delay: None,
        }
    }

    /// Those that were sent.
    pub fn read(alloc: Global, sent: &Option<Bytes>) -> Result<Details, NoMemory>
        ensures { IfOk result (λ details. details ≡ sent.now) }
    {
        match sent {
            None => Ok(Details::none()),
            Some(sent) => {
                let delay = retry_delay_of(alloc, sent.as_slice())?;
                let copy = Bytes::copy_of(alloc, sent.as_slice())?;
                Ok(Details {
                    sent: Some(copy),
                    delay,
                })
            }
        }
    }

    /// How many milliseconds they ask to wait.
    pub fn retry_delay(&self) -> Option<u64>
        ensures { result ≡ retry_delay_of self.now }
    {
        self.delay
    }
}
