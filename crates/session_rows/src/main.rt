//! Requests, replies and publications, as rows: see the headings of `stdin`.
#![tactic(auto)]

mod arguments;
mod boards;
mod cancels;
mod ends;
mod replies;
mod requests;
mod seen;
mod shown_ends;
mod shown_replies;
mod shown_values;
mod streams;

use crate::boards::Publications;
use rx_rows::{Answer, Calls, Row, RowFault, TableFault, Turn, answer_rows};
use std::alloc::Global;
use std::io;
use std::io::BufReader;

/// The calls of the rows. Only a board is kept from row to row.
#[derive(Drop)]
struct Session {
    alloc: Global,
    publications: Publications,
}

impl Session {
    /// Makes the call that the next word names.
    fn answer(&mut self, turn: &mut Turn<'_, '_>) {
        match turn.read_word() {
            "request" => requests::answer_request(turn),
            "shutdown" => requests::answer_shutdown(turn),
            "cancel_frame" => cancels::answer_cancel_frame(turn),
            "cancel" => cancels::answer_cancel(turn),
            "taken" => requests::answer_taken(turn),
            "command" => requests::answer_command(turn),
            "inputs" => requests::answer_inputs(turn),
            "written" => requests::answer_written(turn),
            "payload" => requests::answer_payload(turn),
            "reply" => replies::answer_reply(turn),
            "room" => replies::answer_room(turn),
            "decode" => shown_replies::answer_decode(turn),
            "write" => streams::answer_write(turn),
            "board" => self.publications.open(turn),
            "next" => self.publications.answer_next(turn),
            "full" => self.publications.answer_full(turn),
            "publish" => self.publications.answer_publish(turn),
            "close" => self.publications.close(turn),
            "entry" => self.publications.answer_entry(turn),
            "held" => self.publications.answer_held(turn),
            _ => turn.refuse(RowFault::NoCall),
        }
    }
}

impl Calls for Session {
    fn call(&mut self, row: &mut Row<'_>, answer: &mut Answer) -> Result<(), RowFault> {
        let mut turn = Turn::new(self.alloc, row, answer);
        self.answer(&mut turn);
        turn.end()
    }
}

fn main(rt: HostRuntime) -> Result<(), TableFault> {
    let alloc = rt.alloc();
    let input = BufReader::new(alloc, rt.reader())?;
    let mut session = Session {
        alloc,
        publications: Publications::new(),
    };
    answer_rows(alloc, input, &mut io::writer(&rt), &mut session)
}
