//! Bytes in memory that are read.

ghost use Rattle.std.specs.Prelude.{◌≡◌, ◌≤◌, ◌<◌, ◌+◌, ◌++◌, [], Some, drop, length, min, take};

use crate::Script;
use rx_world::{Failed, Source};

/// Bytes that are left from an offset on.
#[derive(Debug, Drop)]
pub struct MemorySource {
    pub bytes: Vec<u8>,
    pub at: usize,
    /// How many bytes a call gives at most. A zero counts as one.
    pub most: usize,
    pub script: Script,
    ghost within: { at ≤ length bytes.items },
}

/// The same, but that no call fails.
#[derive(Debug, Drop)]
pub struct QuietSource {
    pub bytes: Vec<u8>,
    pub at: usize,
    ghost within: { at ≤ length bytes.items },
}

impl MemorySource {
    /// All these bytes are left, and a call gives as many as there is room for.
    pub fn new(bytes: Vec<u8>, script: Script) -> MemorySource
        ensures bytes { result.bytes ≡ bytes }
        ensures at { result.at ≡ 0 }
        ensures script { result.script ≡ script }
    {
        MemorySource {
            bytes,
            at: 0,
            most: usize::MAX,
            script,
        }
    }
}

impl QuietSource {
    /// All these bytes are left.
    pub fn new(bytes: Vec<u8>) -> QuietSource
        ensures bytes { result.bytes ≡ bytes }
        ensures at { result.at ≡ 0 }
    {
        QuietSource { bytes, at: 0 }
    }
}

impl Source for MemorySource {
    ghost left = { λ s. Some (drop s.at s.bytes.items) };

    ghost faults = { λ s. s.script.faults };

    fn read(&mut self, into: &mut [u8]) -> Result<usize, Failed> {
        self.script.call()?;
        let count = read_from(&self.bytes, self.at, self.most, into);
        self.at += count;
        Ok(count)
    }
}

impl Source for QuietSource {
    ghost left = { λ s. Some (drop s.at s.bytes.items) };

    ghost faults = { λ s. 0 };

    fn read(&mut self, into: &mut [u8]) -> Result<usize, Failed> {
        let count = read_from(&self.bytes, self.at, usize::MAX, into);
        self.at += count;
        Ok(count)
    }
}

/// Reads bytes from an offset on: as many as are left, as there is room for and as may come at most.
pub fn read_from(bytes: &[u8], at: usize, most: usize, into: &mut [u8]) -> usize
    requires { at ≤ length bytes.now }
    ensures within { at + result ≤ length bytes.now }
    ensures len { length into.new ≡ length into.old }
    ensures bound { result ≤ length into.old }
    ensures copied { take result into.new ≡ take result (drop at bytes.now) }
    ensures left { drop at bytes.now ≡ take result into.new ++ drop (at + result) bytes.now }
    ensures end { result ≡ 0 → 0 < length into.old → drop (at + result) bytes.now ≡ [] }
{
    let (_, left) = bytes.split_at(at);
    copy_front(left, most.max(1), into)
}

/// Copies as many bytes as both have, but so many at most, and answers how many.
fn copy_front(from: &[u8], most: usize, into: &mut [u8]) -> usize
    ensures count { result ≡ min (min (length from.now) (length into.old)) most }
    ensures len { length into.new ≡ length into.old }
    ensures copied { take result into.new ≡ take result from.now }
{
    let count = from.len().min(into.len()).min(most);
    let (front, _) = from.split_at(count);
    into[..count].copy_from_slice(front);
    count
}
