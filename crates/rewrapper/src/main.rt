//! The client program: it reads how it was called, has its command run by a proxy, and ends as the
//! command did.
#![tactic(auto)]

mod configs;
mod connect;
mod machine;
mod run;
mod surroundings;
mod words;

use crate::configs::HostConfigs;
use crate::connect::HostConnect;
use crate::machine::HostMachine;
use crate::run::run;
use crate::surroundings::{Surroundings, Unread, read_surroundings};
use crate::words::{USAGE, VERSION, are_alone};
use rx_client::{Answer, Invocation, Standard};
use rx_streams::HostSink;
use std::process::ExitCode;

/// The status where memory runs out, or the system doesn't tell how the program was called.
const NO_MEMORY: u8 = 105;

fn main(rt: HostRuntime) -> ExitCode {
    match read_surroundings(&rt) {
        Ok(read) if are_alone("--help", &read.words) => print_text(&rt, USAGE),
        Ok(read) if are_alone("--version", &read.words) => print_text(&rt, VERSION),
        Ok(read) => ExitCode::from(serve(rt, &read)),
        Err(Unread::NoMemory) => ExitCode::from(NO_MEMORY),
        Err(fault) => {
            let _ = eprintln!(rt; "rewrapper: {fault}");
            ExitCode::from(NO_MEMORY)
        }
    }
}

/// Does what the program was called for, and answers its status.
fn serve(rt: HostRuntime, read: &Surroundings) -> u8 {
    let invocation = Invocation {
        words: &read.words,
        environment: &read.environment,
        directory: read.directory.as_str(),
    };
    let mut configs = HostConfigs::new(rt);
    let mut connect = HostConnect::new(rt);
    let mut machine = HostMachine::new(rt);
    let mut standard = Standard {
        out: HostSink::new(rt.stdout()),
        err: HostSink::new(rt.stderr()),
    };
    let wrapped = run(
        rt.alloc(),
        &invocation,
        &mut configs,
        &mut connect,
        &mut machine,
        &mut standard,
    );
    if let Answer::Conversation = wrapped.answer {
        connect.tell();
    }
    wrapped.status
}

/// Prints a text.
fn print_text(rt: &HostRuntime, text: &str) -> ExitCode {
    match print!(rt; "{text}") {
        Ok(()) => ExitCode::SUCCESS,
        Err(_) => ExitCode::FAILURE,
    }
}
