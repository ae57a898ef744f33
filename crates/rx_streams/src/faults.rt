//! Counts of faults. Each adapter has one, and raises it where a call of the system failed.

ghost use Rattle.std.specs.Prelude.{◌≡◌, ◌≤◌};
ghost use Rattle.rx_world.specs.declared.failures.Refused.TheVariants.{Failed as failed};
ghost use Rattle.rx_world.specs.Causes.{Rose};

use rx_world::{Failed, Refused};
use std::io;
use std::io::ErrorKind;

/// How often a call failed. It stops at its end.
#[derive(Debug, Drop)]
pub struct Faults {
    pub count: u64,
}

impl Faults {
    /// No fault yet.
    pub fn new() -> Faults
        ensures { result.count ≡ 0 }
    {
        Faults { count: 0 }
    }

    /// Counts a fault.
    pub fn raise(&mut self)
        ensures later { self.old.count ≤ self.new.count }
        ensures rose { Rose self.old.count self.new.count }
    {
        if self.count < u64::MAX {
            self.count += 1;
        }
    }

    /// Counts a fault, whatever the error was.
    pub fn failed(&mut self, _error: io::Error) -> Failed
        ensures later { self.old.count ≤ self.new.count }
        ensures rose { Rose self.old.count self.new.count }
    {
        self.raise();
        Failed
    }

    /// Counts a fault, unless the error is want of memory.
    pub fn refused(&mut self, error: io::Error) -> Refused
        ensures later { self.old.count ≤ self.new.count }
        ensures counted { result ≡ failed → Rose self.old.count self.new.count }
    {
        if error.kind() == ErrorKind::OutOfMemory {
            return Refused::NoMemory;
        }
        Refused::from(self.failed(error))
    }
}
