//! What the scripts of `bench/` time: `bench lex|h2|tree|gather|grpc WORD..`, as the head of each module says, and `bench
//! all` for each of these on next to no work, but for `grpc`, which wants a farm.
#![tactic(auto)]

mod fault;
mod gather;
mod gather_headers;
mod gather_works;
mod grpc;
mod h2;
mod h2_works;
mod lex;
mod tree;
mod tree_command;
mod tree_files;

use crate::fault::Fault;
use rx_host::Hands;
use std::process::ExitCode;
use std::sync::Wait;
use std::{env, io};

/// The status of a first word that the program doesn't take.
const BAD_WORDS: u8 = 2;

/// The words after the program's name.
fn read_words(rt: &HostRuntime) -> io::Result<Vec<String>> {
    Ok(env::args(rt)?.skip(1).collect(rt.alloc())?)
}

/// Runs each on next to no work.
fn run_all(rt: &HostRuntime, waits: &impl Wait) -> Result<(), Fault> {
    lex::run(rt)?;
    h2::run_example(rt)?;
    tree::run_example(rt)?;
    gather::run_example(rt, waits)
}

/// Runs what the first word names. `None` is a word that names nothing.
fn run<H: Hands>(
    rt: &HostRuntime,
    hands: H,
    name: &str,
    words: &[String],
) -> Option<Result<(), Fault>> {
    match name {
        "lex" => Some(lex::run(rt)),
        "h2" => Some(h2::run(rt, words)),
        "tree" => Some(tree::run(rt, words)),
        "gather" => Some(gather::run(rt, &hands, words)),
        "grpc" => Some(grpc::run(*rt, hands, words)),
        "all" => Some(run_all(rt, &hands)),
        _ => None,
    }
}

/// Tells how it ended, and answers the status.
fn tell(rt: &HostRuntime, name: &str, ran: Option<Result<(), Fault>>) -> ExitCode {
    match ran {
        Some(Ok(())) => ExitCode::SUCCESS,
        Some(Err(Fault::Words(usage))) => {
            let _ = eprintln!(rt; "usage: bench {usage}");
            ExitCode::FAILURE
        }
        Some(Err(fault)) => {
            let _ = eprintln!(rt; "bench {name}: {fault}");
            ExitCode::FAILURE
        }
        None => {
            let _ = eprintln!(rt; "usage: bench lex|h2|tree|gather|grpc|all WORD..");
            ExitCode::from(BAD_WORDS)
        }
    }
}

fn main(rt: HostRuntime) -> ExitCode {
    let Ok(words) = read_words(&rt) else {
        return tell(&rt, "", None);
    };
    match words.as_slice() {
        [name, rest @ ..] => tell(&rt, name.as_str(), run(&rt, rt, name.as_str(), rest)),
        [] => tell(&rt, "", None),
    }
}
