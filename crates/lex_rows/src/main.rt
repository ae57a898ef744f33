//! Texts with what they include, as rows: see the headings of `stdin`.
#![tactic(auto)]

use rx_lex::{Directives, Include, directives};
use rx_rows::{Answer, Calls, Row, RowFault, TableFault, answer_rows};
use std::alloc::{AllocError, Global};
use std::io;
use std::io::BufReader;

/// The calls of the rows. They keep nothing from row to row.
#[derive(Drop)]
struct Lexer {
    alloc: Global,
}

impl Lexer {
    /// `directives TEXT`: the includes in their order, each with its quotes or brackets, and what else is known of the text.
    fn directives(&self, row: &mut Row<'_>, answer: &mut Answer) -> Result<(), RowFault> {
        let text = row.text(self.alloc)?;
        let found = directives(self.alloc, &text)?;
        for include in &found.list {
            write_include(include, answer)?;
        }
        if found.list.is_empty() && !found.hard && !found.raw {
            answer.word("nothing")?;
        }
        write_kind(&found, answer)
    }

    /// `repeated HEAD UNIT COUNT`: the same of a text that begins by HEAD and has UNIT so often behind it, with the number of
    /// the includes alone.
    fn repeated(&self, row: &mut Row<'_>, answer: &mut Answer) -> Result<(), RowFault> {
        let mut text = row.text(self.alloc)?;
        let unit = row.text(self.alloc)?;
        for _ in 0..row.number()? {
            text.extend_from_slice(&unit)?;
        }
        let found = directives(self.alloc, &text)?;
        answer.number(found.list.len() as u64)?;
        write_kind(&found, answer)
    }
}

/// Writes an include as it stands in a text.
fn write_include(include: &Include, answer: &mut Answer) -> Result<(), AllocError> {
    match include {
        Include::Quoted(name) => answer.text(name),
        Include::Angled(name) => answer.enclosed(b'<', name, b'>'),
    }
}

/// Writes what else is known of a text.
fn write_kind(found: &Directives, answer: &mut Answer) -> Result<(), RowFault> {
    if found.hard {
        answer.word("hard")?;
    }
    if found.raw {
        answer.word("raw")?;
    }
    Ok(())
}

impl Calls for Lexer {
    fn call(&mut self, row: &mut Row<'_>, answer: &mut Answer) -> Result<(), RowFault> {
        match row.word()? {
            "directives" => self.directives(row, answer),
            "repeated" => self.repeated(row, answer),
            _ => Err(RowFault::NoCall),
        }
    }
}

fn main(rt: HostRuntime) -> Result<(), TableFault> {
    let input = BufReader::new(rt.alloc(), rt.reader())?;
    let mut lexer = Lexer { alloc: rt.alloc() };
    answer_rows(rt.alloc(), input, &mut io::writer(&rt), &mut lexer)
}
