//! The lines of a table, and what has to be done in a thread or before a line is answered, since a row's call isn't told
//! that threads may have what it uses.

use crate::machine::Machine;
use rx_host::Hands;
use rx_rows::{TableFault, answer_rows};
use std::io::{BufRead, Write};
use std::thread;
use std::time::Duration;

/// How long a call waits before it is halted.
const BEFORE_MILLIS: u64 = 200;

/// Answers the rows of the input one by one, and writes each with its answer.
pub(crate) fn answer_all<H: Hands + Send + Sync, R: BufRead + Drop, W: Write>(
    machine: &mut Machine<H>,
    input: R,
    output: &mut W,
) -> Result<(), TableFault> {
    let mut line = 0u64;
    for text in input.lines(machine.rt.alloc()) {
        let text = text?;
        line = line.saturating_add(1);
        if text.is_empty() {
            output.write_all(b"\n")?;
            continue;
        }
        match answer_line(machine, text.as_str(), output) {
            Ok(()) => {}
            Err(TableFault::Row { line: _, fault }) => {
                return Err(TableFault::Row { line, fault });
            }
            Err(fault) => return Err(fault),
        }
    }
    Ok(())
}

/// Answers one line. A bench is made and handed back ahead of its call.
fn answer_line<H: Hands + Send + Sync, W: Write>(
    machine: &mut Machine<H>,
    line: &str,
    output: &mut W,
) -> Result<(), TableFault> {
    if line.starts_with("halted ") {
        return answer_halted(machine, line, output);
    }
    match line {
        "bench" => machine.benches.open()?,
        "done" => machine.benches.close(),
        _ => {}
    }
    answer_rows(machine.rt.alloc(), line.as_bytes(), output, machine)
}

/// Answers one line, while another thread halts its call.
fn answer_halted<H: Hands + Send + Sync, W: Write>(
    machine: &mut Machine<H>,
    line: &str,
    output: &mut W,
) -> Result<(), TableFault> {
    let (rt, hands) = (machine.rt, machine.hands);
    let (bench, farm) = (
        machine.benches.halting.share()?,
        machine.links.halting.share()?,
    );
    let is_run = line.starts_with("halted run ");
    let halt = || {
        thread::sleep(&rt, Duration::from_millis(BEFORE_MILLIS));
        if is_run {
            bench.halt_runs(&hands);
        } else {
            farm.halt_farm(&hands);
        }
    };
    let call = || answer_rows(rt.alloc(), line.as_bytes(), output, machine);
    let (_, answered) = thread::join(&hands, halt, call);
    answered
}
