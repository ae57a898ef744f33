//! What the adapters that wait ask for, beside the machine itself.

use std::sync::Wait;
use std::thread::Threads;
use std::time::Clock;

/// A handle of threads, of waiting, and of the clock by which a wait ends.
pub trait Hands: Threads + Wait + Clock + Copy + Drop {}

impl<H: Threads + Wait + Clock + Copy + Drop> Hands for H {}
