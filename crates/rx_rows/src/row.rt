//! A row's words, read one after the other.

ghost use Rattle.std.specs.Prelude.{◌≡◌, ◌≢◌, ◌≤◌, ◌<◌, length, slice_index, IfOk, Some, List, ℕ};
ghost use Rattle.std.specs.Option.{option_map};
ghost use Rattle.rx_rows.specs.Words.{IsWord, NoSpace};

use crate::fault::RowFault;
use crate::text::read_text;
use hex::FromHexError;
use std::alloc::Global;
use std::marker::Model;
use std::str;

/// The words of a row that weren't read yet. A call reads its arguments from it, in their order.
#[derive(Debug, Drop)]
pub struct Row<'a> {
    rest: Option<&'a [u8]>,
}

impl<'a> Model for Row<'a> {
    ghost use Rattle.std.specs.Prelude.{Option, List, ℕ};
    ghost use Rattle.std.specs.Option.{option_map};

    ghost Value = { Option (List ℕ) };

    ghost view = { λ r. option_map (λ rest. rest.now) r.rest };
}

/// Where the first space stands, or the end.
fn word_end(text: &[u8]) -> usize
    ensures within { result ≤ length text.now }
    ensures none { NoSpace text.now result }
    ensures space { result < length text.now → slice_index text.now result ≡ 32 }
{
    let mut end = 0;
    while end < text.len() && text[end] != b' ' {
        end += 1;
    }
    end
}

impl<'a> Row<'a> {
    /// All words of a line.
    pub(crate) fn new(line: &'a [u8]) -> Row<'a>
        ensures { result ≡ Some line.now }
    {
        Row { rest: Some(line) }
    }

    /// The same words, to be read once more.
    pub(crate) fn again(&self) -> Row<'a>
        ensures { result ≡ self.now }
    {
        Row { rest: self.rest }
    }

    /// Whether all words were read.
    pub fn is_done(&self) -> bool {
        self.rest.is_none()
    }

    /// The next word, as it stands. `NoWord` where there is none, `BadText` where it isn't UTF-8.
    pub fn word(&mut self) -> Result<&'a str, RowFault>
        ensures { IfOk result (λ word. IsWord self.old word.now self.new) }
    {
        str::from_utf8(self.next()?).or(Err(RowFault::BadText))
    }

    /// The bytes of the next word. `NoWord` where there is none.
    fn next(&mut self) -> Result<&'a [u8], RowFault>
        ensures { IfOk result (λ word. IsWord self.old word.now self.new) }
    {
        let Some(text) = self.rest else {
            return Err(RowFault::NoWord);
        };
        let (word, behind) = text.split_at(word_end(text));
        if word.is_empty() {
            return Err(RowFault::NoWord);
        }
        self.rest = match behind {
            [_, rest @ ..] => Some(rest),
            [] => None,
        };
        Ok(word)
    }

    /// The next word, a number. `BadNumber` where it is none.
    pub fn number(&mut self) -> Result<u64, RowFault> {
        read_number(self.word()?)
    }

    /// The next word, bytes. `BadBytes` where it is none.
    pub fn bytes(&mut self, alloc: Global) -> Result<Vec<u8>, RowFault> {
        let word = self.word()?;
        let Some((unit, count)) = word.split_once('*') else {
            return read_bytes(alloc, word);
        };
        let unit = read_bytes(alloc, unit)?;
        let mut bytes = Vec::new(alloc);
        for _ in 0..read_number(count)? {
            bytes.extend_from_slice(&unit)?;
        }
        Ok(bytes)
    }

    /// The next word, a text in quotes. `BadText` where it is none.
    pub fn text(&mut self, alloc: Global) -> Result<Vec<u8>, RowFault> {
        let Some([b'"', inside @ ..]) = self.rest else {
            return Err(RowFault::BadText);
        };
        let (text, behind) = read_text(alloc, inside)?;
        self.rest = match behind {
            [] => None,
            [b' ', rest @ ..] => Some(rest),
            _ => return Err(RowFault::BadText),
        };
        Ok(text)
    }

    /// Refuses words that are left.
    pub(crate) fn end(&self) -> Result<(), RowFault> {
        match self.rest {
            None => Ok(()),
            Some(_) => Err(RowFault::TooManyWords),
        }
    }
}

/// A number in decimal digits.
fn read_number(word: &str) -> Result<u64, RowFault> {
    match word.parse::<u64>() {
        Ok(number) => Ok(number),
        Err(_) => Err(RowFault::BadNumber),
    }
}

/// Bytes in hexadecimal digits, or `-` for none.
fn read_bytes(alloc: Global, word: &str) -> Result<Vec<u8>, RowFault> {
    if word == "-" {
        return Ok(Vec::new(alloc));
    }
    match hex::decode(alloc, word.as_bytes()) {
        Ok(bytes) => Ok(bytes),
        Err(FromHexError::OutOfMemory) => Err(RowFault::NoMemory),
        Err(_) => Err(RowFault::BadBytes),
    }
}
