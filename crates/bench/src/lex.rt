//! How fast `directives` reads: `bench lex`. Each line of standard input names a file, and each round reads all of them.
//! bench/directives.sh runs it. Without input it prints nothing.

use crate::fault::Fault;
use rx_lex::{NoMemory, directives};
use std::alloc::Global;
use std::time::Instant;
use std::{fs, io};

const ROUNDS: u32 = 10;

/// What was read of the texts in one round.
#[derive(Clone, Copy)]
struct Sum {
    bytes: u64,
    names: u64,
    hard: u64,
}

/// The files that standard input names.
fn read_texts(rt: &HostRuntime) -> io::Result<Vec<Vec<u8>>> {
    let mut texts = Vec::new(rt.alloc());
    for path in rt.lines(rt.alloc()) {
        texts.push(fs::read(rt, path?.as_str())?)?;
    }
    Ok(texts)
}

/// Reads each text once.
fn read_all(alloc: Global, texts: &[Vec<u8>]) -> Result<Sum, NoMemory> {
    let mut sum = Sum {
        bytes: 0,
        names: 0,
        hard: 0,
    };
    for text in texts {
        let found = directives(alloc, text.as_slice())?;
        sum.bytes = sum.bytes.saturating_add(text.len() as u64);
        sum.names = sum.names.saturating_add(found.list.len() as u64);
        sum.hard = sum.hard.saturating_add(found.hard as u64);
    }
    Ok(sum)
}

/// Reads the texts so many times, and tells how fast.
fn measure(rt: &HostRuntime) -> io::Result<()> {
    let texts = read_texts(rt)?;
    if texts.is_empty() {
        return Ok(());
    }
    for _ in 0..ROUNDS {
        let begin = Instant::now(rt)?;
        let sum = read_all(rt.alloc(), texts.as_slice())?;
        let nanos = begin.elapsed(rt)?.as_nanos().max(1);
        let rate = (sum.bytes as u128).saturating_mul(1000) / nanos;
        println!(rt;
            "{rate} MB/s: {} bytes of {} texts, {} names, {} hard",
            sum.bytes,
            texts.len(),
            sum.names,
            sum.hard
        )?;
    }
    Ok(())
}

/// Reads the files that standard input names.
pub fn run(rt: &HostRuntime) -> Result<(), Fault> {
    match measure(rt) {
        Ok(()) => Ok(()),
        Err(error) => Err(Fault::Texts(error)),
    }
}
