//! Whole runs of the proxy in memory, as rows: what the desks of a front have, and what comes back for
//! it, stands in the journal and lies in the place. The headings of `stdin` say what each row does.
#![tactic(auto)]

mod after;
mod arguments;
mod benches;
mod calls;
mod clients;
mod desks;
mod ends;
mod farms;
mod inputs;
mod meetings;
mod meets;
mod options;
mod outcomes;
mod plans;
mod replies;
mod requests;
mod results;
mod runs;
mod seats;
mod sources;
mod trees;
mod worlds;

use crate::calls::RunCalls;
use crate::seats::Hands;
use rx_rows::{TableFault, answer_rows};
use std::alloc::Global;
use std::io::{self, BufRead, BufReader, Write};
use std::thread::Threads;

fn main(rt: HostRuntime) -> Result<(), TableFault> {
    let alloc = rt.alloc();
    let input = BufReader::new(alloc, rt.reader())?;
    answer_all(&rt, alloc, input, &mut io::writer(&rt))
}

/// Answers the rows of the input one by one, and writes each with its answer.
fn answer_all<R: BufRead + Drop, W: Write>(
    rt: &(impl Hands + Threads + Send + Sync),
    alloc: Global,
    input: R,
    output: &mut W,
) -> Result<(), TableFault> {
    let mut calls = RunCalls::new(alloc);
    let mut line = 0u64;
    for text in input.lines(alloc) {
        let mut row = text?;
        row.push_str("\n")?;
        line = line.saturating_add(1);
        match answer_one(rt, alloc, row.as_bytes(), &mut calls) {
            Ok(written) => output.write_all(&written)?,
            Err(TableFault::Row { line: _, fault }) => {
                return Err(TableFault::Row { line, fault });
            }
            Err(fault) => return Err(fault),
        }
    }
    output.flush()?;
    Ok(())
}

/// What is written for a line. Where it asks for a run, it is read again after that.
fn answer_one(
    rt: &(impl Hands + Threads + Send + Sync),
    alloc: Global,
    row: &[u8],
    calls: &mut RunCalls,
) -> Result<Vec<u8>, TableFault> {
    let written = answer_line(alloc, row, calls)?;
    match calls.run_asked(rt) {
        Ok(true) => answer_line(alloc, row, calls),
        Ok(false) => Ok(written),
        Err(fault) => Err(TableFault::Row { line: 0, fault }),
    }
}

/// What is written for one reading of a line.
fn answer_line(alloc: Global, row: &[u8], calls: &mut RunCalls) -> Result<Vec<u8>, TableFault> {
    let mut written = Vec::new(alloc);
    answer_rows(alloc, row, &mut written, calls)?;
    Ok(written)
}
