//! A row and its answer in one, for calls with many arguments and words.

use crate::answer::Answer;
use crate::fault::RowFault;
use crate::row::Row;
use std::alloc::{AllocError, Global};
use std::fmt::Debug;

/// A row that is read and its answer that is written, which keep the first fault to the end. What is read behind a fault may be
/// zero or empty, and [`Turn::end`] refuses the row. So a call has one way out, however many words it reads and writes: each way out
/// of a function lets go of all that it owns, and is proved for itself.
#[derive(Drop)]
pub struct Turn<'t, 'a> {
    alloc: Global,
    row: &'t mut Row<'a>,
    answer: &'t mut Answer,
    fault: Option<RowFault>,
}

impl<'t, 'a> Turn<'t, 'a> {
    /// A row whose next words are to be read, and the words of its answer so far.
    pub fn new(alloc: Global, row: &'t mut Row<'a>, answer: &'t mut Answer) -> Turn<'t, 'a> {
        Turn {
            alloc,
            row,
            answer,
            fault: None,
        }
    }

    /// Where its values are made.
    pub fn alloc(&self) -> Global {
        self.alloc
    }

    /// The row, for a function that reads it without a turn.
    pub fn row(&mut self) -> &mut Row<'a> {
        self.row
    }

    /// The answer, for a function that writes it without a turn.
    pub fn answer(&mut self) -> &mut Answer {
        self.answer
    }

    /// The first fault, if there was one.
    pub fn end(&self) -> Result<(), RowFault> {
        match self.fault {
            None => Ok(()),
            Some(fault) => Err(fault),
        }
    }

    /// Refuses the row, unless it was refused before.
    pub fn refuse(&mut self, fault: RowFault) {
        if self.fault.is_none() {
            self.fault = Some(fault);
        }
    }

    /// Refuses the row where the work failed.
    pub fn keep(&mut self, done: Result<(), RowFault>) {
        if let Err(fault) = done {
            self.refuse(fault);
        }
    }

    /// Refuses the row where memory ran out.
    pub fn written(&mut self, written: Result<(), AllocError>) {
        if written.is_err() {
            self.refuse(RowFault::NoMemory);
        }
    }

    /// What was made. Where memory ran out it is what is empty, and the row is refused.
    pub fn made<T: Drop>(&mut self, made: Result<T, AllocError>, empty: T) -> T {
        match made {
            Ok(value) => value,
            Err(_) => {
                self.refuse(RowFault::NoMemory);
                empty
            }
        }
    }

    /// Whether no word is to be read any more: all were, or the row is refused.
    pub fn is_done(&self) -> bool {
        self.fault.is_some() || self.row.is_done()
    }

    /// The next word, as it stands.
    pub fn read_word(&mut self) -> &'a str {
        match self.row.word() {
            Ok(word) => word,
            Err(fault) => {
                self.refuse(fault);
                ""
            }
        }
    }

    /// The next word, a number.
    pub fn read_number(&mut self) -> u64 {
        match self.row.number() {
            Ok(number) => number,
            Err(fault) => {
                self.refuse(fault);
                0
            }
        }
    }

    /// The next word, a number of 32 bits.
    pub fn read_u32(&mut self) -> u32 {
        match u32::try_from(self.read_number()) {
            Ok(number) => number,
            Err(_) => {
                self.refuse(RowFault::BadNumber);
                0
            }
        }
    }

    /// The next word, a number of 32 bits that may have a minus.
    pub fn read_i32(&mut self) -> i32 {
        match self.read_word().parse::<i32>() {
            Ok(number) => number,
            Err(_) => {
                self.refuse(RowFault::BadNumber);
                0
            }
        }
    }

    /// The next word, bytes.
    pub fn read_bytes(&mut self) -> Vec<u8> {
        match self.row.bytes(self.alloc) {
            Ok(bytes) => bytes,
            Err(fault) => {
                self.refuse(fault);
                Vec::new(self.alloc)
            }
        }
    }

    /// The next word, a text in quotes.
    pub fn read_text(&mut self) -> Vec<u8> {
        match self.row.text(self.alloc) {
            Ok(text) => text,
            Err(fault) => {
                self.refuse(fault);
                Vec::new(self.alloc)
            }
        }
    }

    /// The next word, a text in quotes that is UTF-8.
    pub fn read_string(&mut self) -> String {
        match String::from_utf8(self.read_text()) {
            Ok(text) => text,
            Err(_) => {
                self.refuse(RowFault::BadText);
                String::new(self.alloc)
            }
        }
    }

    /// Adds a word to the answer, as it stands.
    pub fn write_word(&mut self, word: &str) {
        let written = self.answer.word(word);
        self.written(written);
    }

    /// Adds a number in decimal digits.
    pub fn write_number(&mut self, number: u64) {
        let written = self.answer.number(number);
        self.written(written);
    }

    /// Adds a word and a number.
    pub fn write_named(&mut self, word: &str, number: u64) {
        self.write_word(word);
        self.write_number(number);
    }

    /// Adds what `Debug` shows of a value, as the name of an enum's variant.
    pub fn write_value(&mut self, value: &impl Debug) {
        let written = self.answer.value(value);
        self.written(written);
    }

    /// Adds bytes in hexadecimal digits, or `-` for none.
    pub fn write_bytes(&mut self, bytes: &[u8]) {
        let written = self.answer.bytes(bytes);
        self.written(written);
    }

    /// Adds a text in quotes.
    pub fn write_text(&mut self, text: &[u8]) {
        let written = self.answer.text(text);
        self.written(written);
    }
}
