//! Races of attempts, as rows: see the headings of `stdin`.
#![tactic(auto)]

mod arguments;
mod races;

use crate::races::Races;
use rx_rows::{Answer, Calls, Row, RowFault, TableFault, answer_rows};
use std::io;
use std::io::BufReader;

impl Calls for Races {
    fn call(&mut self, row: &mut Row<'_>, answer: &mut Answer) -> Result<(), RowFault> {
        match row.word()? {
            "new" => self.open(row, answer),
            "start" => self.start(row, answer),
            "offer" => self.offer(row, answer),
            "cancel" => self.cancel(answer),
            "decision" => self.answer_decision(answer),
            "phase" => self.answer_phase(row, answer),
            "events" => self.answer_events(answer),
            _ => Err(RowFault::NoCall),
        }
    }
}

fn main(rt: HostRuntime) -> Result<(), TableFault> {
    let alloc = rt.alloc();
    let input = BufReader::new(alloc, rt.reader())?;
    answer_rows(alloc, input, &mut io::writer(&rt), &mut Races::new(alloc))
}
