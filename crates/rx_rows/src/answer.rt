//! An answer, written word by word.

ghost use Rattle.std.specs.Prelude.{◌≡◌, [], OnOk};
ghost use Rattle.rx_rows.specs.Words.{parted, with_word};

use crate::text::{write_pair, write_text};
use std::alloc::{AllocError, Global};
use std::fmt::Debug;

/// The words of an answer so far. They are written as a row's arguments are.
#[derive(Debug, Drop)]
pub struct Answer {
    alloc: Global,
    text: Vec<u8>,
}

impl Answer {
    /// No word yet.
    pub(crate) fn new(alloc: Global) -> Answer
        ensures { result.text.items ≡ [] }
    {
        Answer {
            alloc,
            text: Vec::new(alloc),
        }
    }

    /// The words with one space between each two.
    pub(crate) fn as_bytes(&self) -> &[u8]
        ensures { result.now ≡ self.now.text.items }
    {
        &self.text
    }

    /// Adds a word as it stands.
    pub fn word(&mut self, word: &str) -> Result<(), AllocError>
        ensures { OnOk result (self.new.text.items ≡ with_word self.old.text.items word.now) }
    {
        self.part()?;
        self.text.extend_from_slice(word.as_bytes())
    }

    /// Adds a number in decimal digits.
    pub fn number(&mut self, number: u64) -> Result<(), AllocError> {
        let digits = format!(in self.alloc; "{number}")?;
        self.word(digits.as_str())
    }

    /// Adds what `Debug` shows of a value, as the name of an enum's variant.
    pub fn value(&mut self, value: &impl Debug) -> Result<(), AllocError> {
        let shown = format!(in self.alloc; "{value:?}")?;
        self.word(shown.as_str())
    }

    /// Adds bytes in hexadecimal digits, or `-` for none.
    pub fn bytes(&mut self, bytes: &[u8]) -> Result<(), AllocError> {
        if bytes.is_empty() {
            return self.word("-");
        }
        self.part()?;
        for byte in bytes {
            write_pair(*byte, &mut self.text)?;
        }
        Ok(())
    }

    /// Adds a text in quotes.
    pub fn text(&mut self, text: &[u8]) -> Result<(), AllocError> {
        self.enclosed(b'"', text, b'"')
    }

    /// Adds a text with its escapes between two bytes, as `<` and `>`.
    pub fn enclosed(&mut self, open: u8, text: &[u8], close: u8) -> Result<(), AllocError> {
        self.part()?;
        self.text.push(open)?;
        write_text(text, &mut self.text)?;
        self.text.push(close)?;
        Ok(())
    }

    /// Parts the next word from the one before.
    fn part(&mut self) -> Result<(), AllocError>
        ensures { OnOk result (self.new.text.items ≡ parted self.old.text.items) }
    {
        if self.text.is_empty() {
            return Ok(());
        }
        self.text.push(b' ')?;
        Ok(())
    }
}
