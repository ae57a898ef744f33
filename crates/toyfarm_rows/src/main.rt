//! A farm in memory as rows: see the headings of `stdin`.
#![tactic(auto)]

mod answers;
mod attempts;
mod blobs;
mod commands;
mod connections;
mod executions;
mod farms;

use crate::farms::FarmCalls;
use rx_rows::{TableFault, answer_rows};
use std::io;
use std::io::BufReader;

fn main(rt: HostRuntime) -> Result<(), TableFault> {
    let alloc = rt.alloc();
    let input = BufReader::new(alloc, rt.reader())?;
    let mut calls = FarmCalls::new(&rt, alloc);
    answer_rows(alloc, input, &mut io::writer(&rt), &mut calls)
}
