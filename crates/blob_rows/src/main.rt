//! Uploads and fetches of blobs, limits of batches, dialects of farms and the client in memory, as
//! rows: see the headings of `stdin`.
#![tactic(auto)]

mod answers;
mod asks;
mod copies;
mod dialects;
mod fetches;
mod lines;
mod names;
mod uploads;

use rx_blobs::batch_limit;
use rx_rows::{Answer, Calls, Row, RowFault, TableFault, Turn, answer_rows};
use std::alloc::Global;
use std::io;
use std::io::BufReader;
use std::sync::Wait;

/// The calls of the rows. They keep nothing from row to row.
#[derive(Drop)]
struct BlobCalls<'a, R> {
    rt: &'a R,
    alloc: Global,
}

impl<'a, R: Wait> BlobCalls<'a, R> {
    /// Makes the call that the next word names.
    fn answer(&self, turn: &mut Turn<'_, '_>) {
        match turn.read_word() {
            "ask" => asks::answer_asks(turn),
            "batch_limit" => {
                let limit = batch_limit(turn.read_number());
                turn.write_number(limit);
            }
            "copies" => copies::answer_copies(self.rt, turn),
            "dialect" => dialects::answer_dialect(turn),
            "fetch" => fetches::answer_fetch(turn),
            "upload" => uploads::answer_upload(self.rt, turn),
            _ => turn.refuse(RowFault::NoCall),
        }
    }
}

impl<'a, R: Wait> Calls for BlobCalls<'a, R> {
    fn call(&mut self, row: &mut Row<'_>, answer: &mut Answer) -> Result<(), RowFault> {
        let mut turn = Turn::new(self.alloc, row, answer);
        self.answer(&mut turn);
        turn.end()
    }
}

fn main(rt: HostRuntime) -> Result<(), TableFault> {
    let alloc = rt.alloc();
    let input = BufReader::new(alloc, rt.reader())?;
    let mut calls = BlobCalls { rt: &rt, alloc };
    answer_rows(alloc, input, &mut io::writer(&rt), &mut calls)
}
