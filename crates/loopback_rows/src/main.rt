//! Remote attempts over loopback, on a farm in memory, as rows: see the headings of `stdin`.
#![tactic(auto)]

mod attempts;
mod commands;
mod farms;
mod links;

use crate::farms::Loopback;
use rx_host::Hands;
use rx_rows::{TableFault, answer_rows};
use std::io::BufReader;
use std::{env, fs, io, process};

/// Answers the rows of standard input over a directory that is this process's own.
fn answer_input<H: Hands>(rt: HostRuntime, hands: H) -> Result<(), TableFault> {
    let alloc = rt.alloc();
    let (above, process) = (env::temp_dir(&rt)?, process::id(rt.process()));
    let root = format!(in alloc; "{}/loopback-rows-{process}", above.as_str())?;
    fs::create_dir(&rt, root.as_str())?;
    let input = BufReader::new(alloc, rt.reader())?;
    let mut calls = Loopback::new(rt, hands, String::from_str(alloc, root.as_str())?);
    let answered = answer_rows(alloc, input, &mut io::writer(&rt), &mut calls);
    let _removed = fs::remove_dir_all(&rt, root.as_str());
    answered
}

fn main(rt: HostRuntime) -> Result<(), TableFault> {
    answer_input(rt, rt)
}
