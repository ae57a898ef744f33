//! Results of a farm as rows: see the headings of `stdin`.
#![tactic(auto)]

mod arguments;
mod results;

use rx_rows::{Answer, Calls, Row, RowFault, TableFault, answer_rows};
use std::alloc::Global;
use std::io;
use std::io::BufReader;

/// The calls of the rows. They keep nothing from row to row.
#[derive(Drop)]
struct ResultCalls {
    alloc: Global,
}

impl Calls for ResultCalls {
    fn call(&mut self, row: &mut Row<'_>, answer: &mut Answer) -> Result<(), RowFault> {
        match row.word()? {
            "result" => results::call(self.alloc, row, answer),
            _ => Err(RowFault::NoCall),
        }
    }
}

fn main(rt: HostRuntime) -> Result<(), TableFault> {
    let input = BufReader::new(rt.alloc(), rt.reader())?;
    let mut calls = ResultCalls { alloc: rt.alloc() };
    answer_rows(rt.alloc(), input, &mut io::writer(&rt), &mut calls)
}
