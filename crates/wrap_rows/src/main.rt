//! Words, environments and configuration files of `rewrapper`, and the whole client, as rows: see the headings of `stdin`.
#![tactic(auto)]

mod arguments;
mod asks;
mod clients;
mod flags;
mod outside;

use crate::clients::Scene;
use rx_rows::{Answer, Calls, Row, RowFault, TableFault, answer_rows};
use std::alloc::Global;
use std::io;
use std::io::BufReader;

/// The calls of the rows, and what the next client meets, which is all that is kept from row to row.
#[derive(Drop)]
struct Wraps {
    alloc: Global,
    scene: Scene,
}

impl Calls for Wraps {
    fn call(&mut self, row: &mut Row<'_>, answer: &mut Answer) -> Result<(), RowFault> {
        let alloc = self.alloc;
        match row.word()? {
            "words" => flags::answer_words(alloc, row, answer),
            "environment" => flags::answer_environment(alloc, row, answer),
            "file" => flags::answer_file(alloc, row, answer),
            "flags" => flags::answer_flags(alloc, row, answer),
            "asked" => asks::answer_asked(alloc, row, answer),
            "payload" => asks::answer_payload(alloc, row, answer),
            "config" => self.scene.config(row, answer),
            "proxy" => self.scene.proxy(row, answer),
            "full" => self.scene.full(row, answer),
            "link" => self.scene.link(row, answer),
            "ends" => self.scene.ends(row, answer),
            "client" => self.scene.client(row, answer),
            _ => Err(RowFault::NoCall),
        }
    }
}

fn main(rt: HostRuntime) -> Result<(), TableFault> {
    let alloc = rt.alloc();
    let input = BufReader::new(alloc, rt.reader())?;
    let mut wraps = Wraps {
        alloc,
        scene: Scene::new(alloc),
    };
    answer_rows(alloc, input, &mut io::writer(&rt), &mut wraps)
}
