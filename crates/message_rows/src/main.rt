//! Paths, digests, fields, messages, trees and actions as rows: see the headings of `stdin`.
#![tactic(auto)]

mod actions;
mod arguments;
mod digests;
mod exec_messages;
mod messages;
mod paths;
mod trees;
mod wire;

use rx_rows::{Answer, Calls, Row, RowFault, TableFault, Turn, answer_rows};
use std::alloc::Global;
use std::io;
use std::io::BufReader;

/// The calls of the rows. They keep nothing from row to row.
#[derive(Drop)]
struct MessageCalls {
    alloc: Global,
}

impl Calls for MessageCalls {
    fn call(&mut self, row: &mut Row<'_>, answer: &mut Answer) -> Result<(), RowFault> {
        let mut turn = Turn::new(self.alloc, row, answer);
        answer_call(&mut turn);
        turn.end()
    }
}

/// Makes the call that the next word names.
fn answer_call(turn: &mut Turn<'_, '_>) {
    match turn.read_word() {
        "path" => paths::call(turn),
        "digest" => digests::call(turn),
        "wire" => wire::call(turn),
        "message" => messages::call(turn),
        "tree" => trees::call(turn),
        "action" => actions::call(turn),
        _ => turn.refuse(RowFault::NoCall),
    }
}

fn main(rt: HostRuntime) -> Result<(), TableFault> {
    let input = BufReader::new(rt.alloc(), rt.reader())?;
    let mut calls = MessageCalls { alloc: rt.alloc() };
    answer_rows(rt.alloc(), input, &mut io::writer(&rt), &mut calls)
}
