//! What commands run on, as rows: the words of compile commands, digests of files, and what is gathered
//! from a source tree. The headings of `stdin` say what each row does.
#![tactic(auto)]

mod calls;
mod commands;
mod gathered;
mod readings;

use crate::calls::ScanCalls;
use rx_rows::{TableFault, answer_rows};
use std::io::{self, BufReader};

fn main(rt: HostRuntime) -> Result<(), TableFault> {
    let alloc = rt.alloc();
    let input = BufReader::new(alloc, rt.reader())?;
    let mut calls = ScanCalls::new(&rt, alloc);
    answer_rows(alloc, input, &mut io::writer(&rt), &mut calls)
}
