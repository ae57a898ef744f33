//! Remote attempts as rows: see the headings of `stdin`.
#![tactic(auto)]

mod answers;
mod attempts;
mod commands;
mod events;
mod faults;
mod lines;
mod races;
mod results;
mod runs;

use crate::runs::Attempt;
use rx_rows::{Answer, Calls, Row, RowFault, TableFault, answer_rows};
use std::alloc::Global;
use std::io;
use std::io::BufReader;
use std::sync::Wait;

/// The calls of the rows. They keep nothing from row to row.
#[derive(Drop)]
struct AttemptCalls<'a, R> {
    rt: &'a R,
    alloc: Global,
}

impl<'a, R: Wait> Calls for AttemptCalls<'a, R> {
    fn call(&mut self, row: &mut Row<'_>, answer: &mut Answer) -> Result<(), RowFault> {
        let attempt = match row.word()? {
            "accepts" => return attempts::call(self.alloc, row, true, answer),
            "refuses" => return attempts::call(self.alloc, row, false, answer),
            "run" => Attempt::new(true),
            "refusing" => Attempt::new(false),
            "until" => Attempt::until(row.number()?),
            "with" => Attempt::with(row.text(self.alloc)?, row.text(self.alloc)?),
            _ => return Err(RowFault::NoCall),
        };
        runs::call(self.rt, self.alloc, row, attempt, answer)
    }
}

fn main(rt: HostRuntime) -> Result<(), TableFault> {
    let alloc = rt.alloc();
    let input = BufReader::new(alloc, rt.reader())?;
    let mut calls = AttemptCalls { rt: &rt, alloc };
    answer_rows(alloc, input, &mut io::writer(&rt), &mut calls)
}
