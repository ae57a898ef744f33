//! Sessions whose premises are met, by proof: each is served, and its reply is printed as a frame.
#![tactic(auto)]

mod benches;
mod desk;
mod place;
mod shown;
mod single;
mod trace;
mod trivial;
mod witness;

use crate::single::serve_single;
use crate::trivial::serve_trivial;
use crate::witness::Witness;
use std::alloc::Global;
use std::io::Print;
use std::process::ExitCode;
use std::sync::Wait;
use std::thread::Threads;

/// Prints the reply's frame. None where memory is wanting, or the output fails.
fn show(rt: &impl Print, alloc: Global, name: &str, witness: &Witness) -> Option<()> {
    let frame = hex::encode(alloc, witness.transcript.written.as_slice()).ok()?;
    println!(rt; "{name} => {frame}").ok()
}

/// Serves the sessions.
fn serve_all(rt: &(impl Threads + Wait + Sync + Print), alloc: Global) -> Option<()> {
    let trivial = serve_trivial(rt, alloc).ok()?;
    show(rt, alloc, "trivial", &trivial)?;
    let single = serve_single(rt, alloc).ok()?;
    show(rt, alloc, "single", &single)
}

fn main(rt: HostRuntime) -> ExitCode {
    match serve_all(&rt, rt.alloc()) {
        Some(()) => ExitCode::SUCCESS,
        None => ExitCode::FAILURE,
    }
}
