//! Which calls of an object in memory fail.

ghost use Rattle.std.specs.Prelude.{◌≡◌, ◌+◌, ◌-◌, ◌^◌, ◌≤◌, ◌↔◌, [], Contains, IsErr, OnOk, min};
ghost use Rattle.rx_world.specs.Causes.{HasCause, Rose};

use rx_world::Failed;
use std::alloc::Global;

/// The calls of an object that are to fail, and how many calls and faults there were. Both counts
/// stop at the end of 64 bits.
#[derive(Debug, Drop)]
pub struct Script {
    /// The numbers of the calls that fail, from 1 on.
    pub fails: Vec<u64>,
    pub calls: u64,
    pub faults: u64,
}

impl Script {
    /// The calls of these numbers are to fail.
    pub fn new(fails: Vec<u64>) -> Script
        ensures { result ≡ record { fails = fails; calls = 0; faults = 0 } }
    {
        Script {
            fails,
            calls: 0,
            faults: 0,
        }
    }

    /// No call is to fail.
    pub fn empty(alloc: Global) -> Script
        ensures fails { result.fails.items ≡ [] }
        ensures calls { result.calls ≡ 0 }
        ensures faults { result.faults ≡ 0 }
    {
        Script::new(Vec::new(alloc))
    }

    /// Counts a call. It fails where its number is one of those that are to fail.
    pub fn call(&mut self) -> Result<(), Failed>
        ensures calls { self.new.calls ≡ min (self.old.calls + 1) (2 ^ 64 - 1) }
        ensures fails { self.new.fails ≡ self.old.fails }
        ensures scripted { IsErr result ↔ Contains self.old.fails.items self.new.calls }
        ensures quiet { OnOk result (self.new.faults ≡ self.old.faults) }
        ensures cause { HasCause self.old.faults self.new.faults result }
    {
        self.calls = self.calls.saturating_add(1);
        if self.fails.contains(&self.calls) {
            return Err(self.fault());
        }
        Ok(())
    }

    /// Counts a fault.
    pub fn fault(&mut self) -> Failed
        ensures calls { self.new.calls ≡ self.old.calls }
        ensures fails { self.new.fails ≡ self.old.fails }
        ensures later { self.old.faults ≤ self.new.faults }
        ensures rose { Rose self.old.faults self.new.faults }
    {
        self.faults = self.faults.saturating_add(1);
        Failed
    }
}
