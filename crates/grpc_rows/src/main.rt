//! What a call hears of its answer over gRPC, and calls over links in memory, as rows: see the headings of `stdin`.
#![tactic(auto)]

mod callers;
mod cuts;
mod events;
mod farms;
mod headers;
mod links;
mod messages;
mod recorded;

use crate::callers::Callers;
use crate::events::{bytes_event, list_event, read_last};
use crate::headers::read_headers;
use crate::links::Links;
use crate::recorded::run_recorded;
use rx_grpc::Answers;
use rx_h2conn::ConnEvent;
use rx_rows::{Answer, Calls, Row, RowFault, TableFault, Turn, answer_rows};
use std::alloc::Global;
use std::io;
use std::io::BufReader;

/// The reader that the rows work on, which `new` makes anew, and the channel.
#[derive(Drop)]
struct Grpc {
    alloc: Global,
    answers: Answers,
    links: Links,
    callers: Callers,
}

impl Grpc {
    fn add(&mut self, event: ConnEvent, turn: &mut Turn<'_, '_>) {
        if self.answers.add(event).is_err() {
            turn.refuse(RowFault::NoMemory);
        }
        turn.write_word("ok");
    }

    /// `headers last|more HEADER ..`.
    fn headers(&mut self, turn: &mut Turn<'_, '_>) {
        let last = read_last(turn);
        let list = read_headers(turn);
        self.add(list_event(list, last), turn);
    }

    /// `bytes last|more BYTES`.
    fn bytes(&mut self, turn: &mut Turn<'_, '_>) {
        let last = read_last(turn);
        let bytes = turn.read_bytes();
        self.add(bytes_event(bytes, last), turn);
    }

    /// `reset CODE`.
    fn reset(&mut self, turn: &mut Turn<'_, '_>) {
        let code = turn.read_u32();
        self.add(ConnEvent::Reset { stream: 1, code }, turn);
    }

    /// `next`: the message that is handed out, or `none`.
    fn next(&mut self, turn: &mut Turn<'_, '_>) {
        match self.answers.next_message() {
            Some(message) => turn.write_bytes(message.as_slice()),
            None => turn.write_word("none"),
        }
    }

    /// `size`: how many bytes the message has that is handed out, or `none`.
    fn size(&mut self, turn: &mut Turn<'_, '_>) {
        match self.answers.next_message() {
            Some(message) => turn.write_number(message.len() as u64),
            None => turn.write_word("none"),
        }
    }

    /// `end`: what ended the answer, or `none`.
    fn end(&self, turn: &mut Turn<'_, '_>) {
        match self.answers.end() {
            Some(end) => turn.write_value(&end),
            None => turn.write_word("none"),
        }
    }

    /// `text`: the text of the answer's status.
    fn text(&self, turn: &mut Turn<'_, '_>) {
        match self.answers.status_text(self.alloc) {
            Ok(text) => turn.write_text(&text),
            Err(_) => turn.refuse(RowFault::NoMemory),
        }
    }

    /// `unary ended|open`: the answer of a call that expects one message, or `none`.
    fn unary(&mut self, turn: &mut Turn<'_, '_>) {
        let ended = read_ended(turn);
        cuts::write_answer(&self.answers.unary(ended), turn);
    }

    /// Makes the call that the next word names.
    fn answer(&mut self, turn: &mut Turn<'_, '_>) {
        match turn.read_word() {
            "new" => {
                self.answers = Answers::new(self.alloc);
                turn.write_word("ok");
            }
            "headers" => self.headers(turn),
            "bytes" => self.bytes(turn),
            "reset" => self.reset(turn),
            "gone" => self.add(ConnEvent::Gone { last: 0 }, turn),
            "next" => self.next(turn),
            "size" => self.size(turn),
            "end" => self.end(turn),
            "cut" => turn.write_value(&self.answers.is_cut()),
            "text" => self.text(turn),
            "unary" => self.unary(turn),
            "cuts" => cuts::call(turn),
            "recorded" => run_recorded(turn),
            word => self.answer_link(word, turn),
        }
    }

    /// Makes a call over links in memory.
    fn answer_link(&mut self, word: &str, turn: &mut Turn<'_, '_>) {
        match word {
            "link" => self.links.link(turn),
            "channel" => self.links.channel(turn),
            "call" => self.links.call(turn),
            "upload" => self.links.upload(turn),
            "begin" => self.links.begin(turn),
            "item" => self.links.item(turn),
            "sent" => self.links.sent(true, turn),
            "frames" => self.links.sent(false, turn),
            "dials" => self.links.dials(turn),
            "answer" => self.callers.answer(0, turn),
            "refuse" => self.callers.refuse(turn),
            "cut_answer" => self.callers.answer(1, turn),
            "client" => self.callers.client(turn),
            "farm" => self.callers.call(turn),
            _ => turn.refuse(RowFault::NoCall),
        }
    }
}

/// Whether the stream has ended.
fn read_ended(turn: &mut Turn<'_, '_>) -> bool {
    match turn.read_word() {
        "ended" => true,
        "open" => false,
        _ => {
            turn.refuse(RowFault::BadCall);
            false
        }
    }
}

impl Calls for Grpc {
    fn call(&mut self, row: &mut Row<'_>, answer: &mut Answer) -> Result<(), RowFault> {
        let mut turn = Turn::new(self.alloc, row, answer);
        self.answer(&mut turn);
        turn.end()
    }
}

fn main(rt: HostRuntime) -> Result<(), TableFault> {
    let mut calls = Grpc {
        alloc: rt.alloc(),
        answers: Answers::new(rt.alloc()),
        links: Links::new(rt.alloc()),
        callers: Callers::new(rt.alloc()),
    };
    let input = BufReader::new(rt.alloc(), rt.reader())?;
    answer_rows(rt.alloc(), input, &mut io::writer(&rt), &mut calls)
}
