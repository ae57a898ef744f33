//! Reporters that write a line for each note.

ghost use Rattle.std.specs.Prelude.{◌≡◌, ◌≤◌, None, OnOk, length, take};
ghost use Rattle.std.specs.Io.KnownBytes.{Appends};

use crate::json_lines::json_line;
use crate::text_lines::text_line;
use rx_report::{Note, Reporter};
use rx_world::{Failed, Refused, Sink};
use std::alloc::{AllocError, Global};

/// Writes bytes, and answers how many of them were taken.
fn write_all<K: Sink>(sink: &mut K, bytes: &[u8]) -> (usize, Result<(), Failed>)
    ensures bound { result.0 ≤ length bytes.now }
    ensures whole { OnOk result.1 (result.0 ≡ length bytes.now) }
    ensures written { Appends (K.taken sink.old) (K.taken sink.new) (take result.0 bytes.now) }
    ensures later { K.faults sink.old ≤ K.faults sink.new }
{
    let mut sent = 0;
    'pieces: while sent < bytes.len() {
        match sink.write(&bytes[sent..]) {
            Ok(count) => sent += count,
            Err(fault) => return (sent, Err(fault)),
        }
    }
    (sent, Ok(()))
}

/// Writes a line, where memory sufficed for it.
fn write_line<K: Sink>(sink: &mut K, line: Result<String, AllocError>) -> Result<(), Refused> {
    let Ok(line) = line else {
        return Err(Refused::NoMemory);
    };
    match write_all(sink, line.as_bytes()) {
        (_, Ok(())) => Ok(()),
        (_, Err(_)) => Err(Refused::Failed),
    }
}

/// Writes each note as a line of text.
#[derive(Drop)]
pub struct TextReporter<S: Sink> {
    alloc: Global,
    sink: S,
}

impl<S: Sink> TextReporter<S> {
    /// One that writes to this sink.
    pub fn new(alloc: Global, sink: S) -> TextReporter<S> {
        TextReporter { alloc, sink }
    }
}

impl<S: Sink + Drop + Send> Reporter for TextReporter<S> {
    ghost use Rattle.std.specs.Prelude.{None};

    ghost seen = { λ _. None };

    fn note(&mut self, told: &Note) -> Result<(), Refused> {
        write_line(&mut self.sink, text_line(self.alloc, told))
    }
}

/// Writes each note as a line of JSON.
#[derive(Drop)]
pub struct JsonReporter<S: Sink> {
    alloc: Global,
    sink: S,
}

impl<S: Sink> JsonReporter<S> {
    /// One that writes to this sink.
    pub fn new(alloc: Global, sink: S) -> JsonReporter<S> {
        JsonReporter { alloc, sink }
    }
}

impl<S: Sink + Drop + Send> Reporter for JsonReporter<S> {
    ghost use Rattle.std.specs.Prelude.{None};

    ghost seen = { λ _. None };

    fn note(&mut self, told: &Note) -> Result<(), Refused> {
        write_line(&mut self.sink, json_line(self.alloc, told))
    }
}
