//! Repeats a piece of work of the HTTP/2 crates, and prints how much was done: `bench h2 WORK ROUNDS`.
//!
//! It keeps no time: bench/h2.sh does. WORK is `data`, DATA through a connection in pieces of 8 KB; `blocks`, header blocks
//! of a short answer; or `huffman`, one long string in the Huffman code.

use crate::fault::Fault;
use crate::h2_works::repeat;

/// The two words, where they are there.
fn read_words(words: &[String]) -> Option<(&str, u64)> {
    match words {
        [work, rounds, ..] => rounds.parse().ok().map(|rounds| (work.as_str(), rounds)),
        _ => None,
    }
}

/// Does a piece of work so many times, and tells once what it counts.
fn measure(rt: &HostRuntime, work: &str, rounds: u64) -> Result<(), Fault> {
    let count = repeat(rt.alloc(), work, rounds)?;
    println!(rt; "{work}: {count}")?;
    Ok(())
}

/// Does what the words ask for.
pub fn run(rt: &HostRuntime, words: &[String]) -> Result<(), Fault> {
    match read_words(words) {
        Some((work, rounds)) => measure(rt, work, rounds),
        None => Err(Fault::Words("h2 data|blocks|huffman ROUNDS")),
    }
}

/// Sends DATA twice.
pub fn run_example(rt: &HostRuntime) -> Result<(), Fault> {
    measure(rt, "data", 2)
}
