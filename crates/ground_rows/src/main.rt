//! What no other program calls of the libraries below it, as rows: work in threads, the tool of the Toy
//! world, slots, races that threads share, the cache of digests and the fakes. The headings of `stdin`
//! say what each row does.
#![tactic(auto)]

mod caches;
mod laws;
mod races;
mod same_everywhere;
mod slots;
mod streams;
mod sums;
mod tools;
mod trees;

use crate::caches::Caches;
use crate::races::Told;
use crate::trees::Trees;
use rx_rows::{Answer, Calls, Row, RowFault, TableFault, answer_rows};
use std::alloc::Global;
use std::io::{self, BufReader};
use std::sync::Wait;
use std::thread::Threads;

/// The calls of the rows. A cache and a source tree are kept from row to row.
#[derive(Drop)]
struct GroundCalls<'a, R> {
    rt: &'a R,
    alloc: Global,
    slots: u32,
    raced: Option<Told>,
    caches: Caches,
    trees: Trees,
}

impl<'a, R: Threads + Wait> Calls for GroundCalls<'a, R> {
    fn call(&mut self, row: &mut Row<'_>, answer: &mut Answer) -> Result<(), RowFault> {
        let word = row.word()?;
        match word {
            "thread" => sums::answer_thread(self.rt, row, answer),
            // How many slots there are when two threads have shared one.
            "slot" => Ok(answer.number(u64::from(self.slots))?),
            "shared_race" => races::answer_raced(&self.raced, answer),
            "cancel" => races::answer_cancel(self.rt, self.alloc, answer),
            "cache" => self.caches.open(row, answer),
            "ask" => self.caches.answer_ask(self.rt, row, answer),
            "twice" => self.caches.answer_twice(answer),
            "laws" => laws::answer_laws(answer),
            "toy" => tools::answer_toy(self.alloc, row, answer),
            "source" => streams::answer_source(self.alloc, row, answer),
            "honest" => trees::answer_honest(self.alloc, row, answer),
            _ => self.trees.call(word, row, answer),
        }
    }
}

fn main(rt: HostRuntime) -> Result<(), TableFault> {
    let alloc = rt.alloc();
    let input = BufReader::new(alloc, rt.reader())?;
    let mut calls = GroundCalls {
        rt: &rt,
        alloc,
        slots: slots::two_threads(&rt),
        raced: races::raced(&rt, alloc)?,
        caches: Caches::asked_twice(&rt, alloc)?,
        trees: Trees::new(alloc),
    };
    answer_rows(alloc, input, &mut io::writer(&rt), &mut calls)
}
