//! Files, programs and connections of the machine, as rows: see the headings of `stdin`.
#![tactic(auto)]

mod answers;
mod arguments;
mod benches;
mod lines;
mod links;
mod machine;
mod streams;
mod trees;

use crate::lines::answer_all;
use crate::machine::Machine;
use rx_host::Hands;
use rx_rows::TableFault;
use std::io::BufReader;
use std::{env, io, process};

/// Answers the rows of standard input over a directory that is this process's own.
fn answer_input<H: Hands + Send + Sync>(rt: HostRuntime, hands: H) -> Result<(), TableFault> {
    let (above, process) = (env::temp_dir(&rt)?, process::id(rt.process()));
    let root = format!(in rt.alloc(); "{}/host-rows-{process}", above.as_str())?;
    let mut machine = Machine::new(rt, hands, root.as_str())?;
    let input = BufReader::new(rt.alloc(), rt.reader())?;
    answer_all(&mut machine, input, &mut io::writer(&rt))
}

fn main(rt: HostRuntime) -> Result<(), TableFault> {
    answer_input(rt, rt)
}
