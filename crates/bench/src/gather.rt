//! Gathers what a command runs on from a source tree in memory, and tells what that took:
//! `bench gather WORK HEADERS ROUNDS`.
//!
//! WORK is `compile` or `compile-warm` for a translation unit that reaches so many headers, and `cold`
//! or `warm` for a tool that declares them: with a new cache of digests for each round, or with one
//! for all, which is filled before the first. Standard output has what was gathered, which is the same each time;
//! standard error has a line for each round, its microseconds. The tree is made once, before the first.

use crate::fault::Fault;
use crate::gather_headers::Headers;
use crate::gather_works::{Work, gather_work};
use rx_digest_cache::{DIGEST_CACHE_LIMIT, DigestCache};
use rx_scan::Gathered;
use rx_world::Toy;
use std::marker::Brand;
use std::sync::Wait;
use std::time::Instant;

/// What is measured, over how many headers, and how often.
#[derive(Clone, Copy, Debug)]
struct Task {
    work: Work,
    headers: u32,
    rounds: u32,
}

/// The work of a word.
fn work_of(word: &str) -> Option<Work> {
    match word {
        "compile" => Some(Work::CompileCold),
        "compile-warm" => Some(Work::CompileWarm),
        "cold" => Some(Work::ToolCold),
        "warm" => Some(Work::ToolWarm),
        _ => None,
    }
}

/// The three words, where they are there.
fn read_words(words: &[String]) -> Option<Task> {
    match words {
        [work, headers, rounds, ..] => Some(Task {
            work: work_of(work.as_str())?,
            headers: headers.parse().ok()?,
            rounds: rounds.parse().ok()?,
        }),
        _ => None,
    }
}

/// Gathers once, and tells the time.
fn gather_timed(
    rt: &HostRuntime,
    waits: &impl Wait,
    headers: &mut Headers,
    cache: &DigestCache<Toy<Brand>>,
    work: Work,
) -> Result<Gathered, Fault> {
    let begin = Instant::now(rt)?;
    let gathered = gather_work(waits, rt.alloc(), headers, cache, work)?;
    let micros = begin.elapsed(rt)?.as_micros();
    eprintln!(rt; "{micros}")?;
    Ok(gathered)
}

/// Gathers so many times, and tells once what it is.
fn measure(rt: &HostRuntime, waits: &impl Wait, task: Task) -> Result<(), Fault> {
    let alloc = rt.alloc();
    let mut headers = Headers::new(alloc, task.headers)?;
    let shared = DigestCache::new(alloc, DIGEST_CACHE_LIMIT)?;
    let files = gather_work(waits, alloc, &mut headers, &shared, task.work)?
        .files
        .len();
    println!(rt; "{files} files")?;
    time_rounds(rt, waits, &mut headers, &shared, task)
}

fn time_rounds(
    rt: &HostRuntime,
    waits: &impl Wait,
    headers: &mut Headers,
    shared: &DigestCache<Toy<Brand>>,
    task: Task,
) -> Result<(), Fault> {
    for _ in 0..task.rounds {
        time_round(rt, waits, headers, shared, task.work)?;
    }
    Ok(())
}

/// Gathers over the digests that are kept, or over none.
fn time_round(
    rt: &HostRuntime,
    waits: &impl Wait,
    headers: &mut Headers,
    shared: &DigestCache<Toy<Brand>>,
    work: Work,
) -> Result<Gathered, Fault> {
    match work {
        Work::CompileWarm | Work::ToolWarm => gather_timed(rt, waits, headers, shared, work),
        Work::CompileCold | Work::ToolCold => {
            let cache = DigestCache::new(rt.alloc(), DIGEST_CACHE_LIMIT)?;
            gather_timed(rt, waits, headers, &cache, work)
        }
    }
}

/// Does what the words ask for.
pub fn run(rt: &HostRuntime, waits: &impl Wait, words: &[String]) -> Result<(), Fault> {
    match read_words(words) {
        Some(task) => measure(rt, waits, task),
        None => Err(Fault::Words("gather compile|compile-warm|cold|warm HEADERS ROUNDS")),
    }
}

/// Gathers a translation unit of ten headers, once.
pub fn run_example(rt: &HostRuntime, waits: &impl Wait) -> Result<(), Fault> {
    let task = Task {
        work: Work::CompileCold,
        headers: 10,
        rounds: 1,
    };
    measure(rt, waits, task)
}
