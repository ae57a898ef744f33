//! Header blocks, frames and connections of HTTP/2, as rows: see the headings of `stdin`.
#![tactic(auto)]

mod blocks;
mod connection;
mod frames;
mod headers;
mod session;

use crate::blocks::Blocks;
use crate::connection::Connection;
use rx_rows::{Answer, Calls, Row, RowFault, TableFault, answer_rows};
use std::alloc::{AllocError, Global};
use std::io;
use std::io::BufReader;

/// What the rows work on: a decoder and a connection, each of which a row of its own makes anew.
#[derive(Drop)]
struct Http2 {
    blocks: Blocks,
    connection: Connection,
}

impl Http2 {
    fn new(alloc: Global) -> Result<Http2, AllocError> {
        Ok(Http2 {
            blocks: Blocks::new(alloc),
            connection: Connection::new(alloc)?,
        })
    }
}

impl Calls for Http2 {
    fn call(&mut self, row: &mut Row<'_>, answer: &mut Answer) -> Result<(), RowFault> {
        match row.word()? {
            "block" => self.blocks.call(row, answer),
            "frame" => frames::call(self.blocks.alloc(), row, answer),
            "conn" => self.connection.call(row, answer),
            _ => Err(RowFault::NoCall),
        }
    }
}

fn main(rt: HostRuntime) -> Result<(), TableFault> {
    let mut calls = Http2::new(rt.alloc())?;
    let input = BufReader::new(rt.alloc(), rt.reader())?;
    answer_rows(rt.alloc(), input, &mut io::writer(&rt), &mut calls)
}
