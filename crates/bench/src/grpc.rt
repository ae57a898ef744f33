//! Calls a farm over TCP: `bench grpc WORK ADDRESS SIZE ROUNDS`.
//!
//! WORK is `calls`, GetCapabilities SIZE times, one after the other; or `write` or `read`, a blob of SIZE bytes by a stream.
//! All go over one connection, which is made before the first round. Standard error has a line for each round, its
//! microseconds. bench/grpc.sh has the same done by grpc's C core.

use crate::fault::Fault;
use rx_base::{Digest, Text, digest_of};
use rx_exec_messages::Caller;
use rx_grpc::GrpcCaller;
use rx_host::{Halting, Hands, HostDial, HostFarm, HostWorld};
use std::alloc::Global;
use std::time::Instant;

/// The most bytes that the name of a farm may have.
const MOST_NAME: usize = 4_294_967_295;

/// A blob is made of pieces of so many bytes.
const PIECE_SIZE: usize = 16_384;

/// What the calls do.
#[derive(Clone, Copy, Debug)]
enum Work {
    Calls,
    Write,
    Read,
}

/// What is measured, how much of it, and how often.
#[derive(Clone, Copy, Debug)]
struct Task {
    work: Work,
    size: usize,
    rounds: u32,
}

/// The work of a word.
fn work_of(word: &str) -> Option<Work> {
    match word {
        "calls" => Some(Work::Calls),
        "write" => Some(Work::Write),
        "read" => Some(Work::Read),
        _ => None,
    }
}

/// The four words, where they are there: the task, and the farm's address.
fn read_words(words: &[String]) -> Option<(Task, &str)> {
    match words {
        [work, address, size, rounds, ..] => {
            let task = Task {
                work: work_of(work.as_str())?,
                size: size.parse().ok()?,
                rounds: rounds.parse().ok()?,
            };
            Some((task, address.as_str()))
        }
        _ => None,
    }
}

/// A client of the farm at an address.
fn farm_at<H: Hands>(rt: HostRuntime, hands: H, address: &str) -> Result<HostFarm<H>, Fault> {
    let alloc = rt.alloc();
    let name = Vec::from_slice(alloc, address.as_bytes())?;
    if name.len() > MOST_NAME {
        return Err(Fault::NoMemory);
    }
    let address = Some(String::from_str(alloc, address)?);
    let dial = HostDial::new(rt, hands, address, Halting::new(&rt, alloc)?);
    let caller = GrpcCaller::new(alloc, dial, name, Text::new(alloc), [0; 32]);
    Ok(HostFarm::new(caller))
}

/// A blob of so many bytes.
fn blob_of(alloc: Global, size: usize) -> Result<Vec<u8>, Fault> {
    let piece = [b'x'; PIECE_SIZE];
    let mut blob = Vec::with_capacity(alloc, size)?;
    for _ in 0..size / PIECE_SIZE {
        blob.extend_from_slice(&piece)?;
    }
    if let Some(rest) = piece.get(..size % PIECE_SIZE) {
        blob.extend_from_slice(rest)?;
    }
    Ok(blob)
}

/// Asks what the farm can do so many times.
fn ask<H: Hands>(farm: &mut HostFarm<H>, count: usize) -> Result<(), Fault> {
    for _ in 0..count {
        farm.capabilities()?;
    }
    Ok(())
}

/// Does the work of a round.
fn call<H: Hands>(
    farm: &mut HostFarm<H>,
    task: &Task,
    digest: &Digest,
    blob: &[u8],
) -> Result<(), Fault> {
    match task.work {
        Work::Calls => ask(farm, task.size)?,
        Work::Write => farm.write_stream(digest, blob)?,
        Work::Read => {
            farm.read_stream(digest)?;
        }
    }
    Ok(())
}

/// Does the rounds, and tells the time of each.
fn measure<H: Hands>(rt: HostRuntime, hands: H, task: &Task, address: &str) -> Result<(), Fault> {
    let blob = match task.work {
        Work::Calls => Vec::new(rt.alloc()),
        Work::Write | Work::Read => blob_of(rt.alloc(), task.size)?,
    };
    let mut farm = farm_at(rt, hands, address)?;
    time_rounds(&rt, &mut farm, task, &blob)
}

/// Makes the connection, and times the rounds over it.
fn time_rounds<H: Hands>(
    rt: &HostRuntime,
    farm: &mut HostFarm<H>,
    task: &Task,
    blob: &[u8],
) -> Result<(), Fault> {
    let digest = digest_of(blob);
    ask(farm, 1)?;
    for _ in 0..task.rounds {
        let begin = Instant::now(rt)?;
        call(farm, task, &digest, blob)?;
        let micros = begin.elapsed(rt)?.as_micros();
        eprintln!(rt; "{micros}")?;
    }
    Ok(())
}

/// Does what the words ask for.
pub fn run<H: Hands>(rt: HostRuntime, hands: H, words: &[String]) -> Result<(), Fault> {
    match read_words(words) {
        Some((task, address)) => measure(rt, hands, &task, address),
        None => Err(Fault::Words("grpc calls|write|read HOST:PORT SIZE ROUNDS")),
    }
}
