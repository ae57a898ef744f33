//! Makes the key of a compile step on a tree of files, and tells what that took: `bench tree FILES ROUNDS`.
//!
//! Standard output has what was made, which is the same each time; standard error has a line for each round: the nanoseconds of the
//! tree, and those of the whole key. The list and the command are made once, before the first round.

use crate::fault::Fault;
use crate::tree_command::compile_step;
use crate::tree_files::files_of;
use rx_action::{ActionKey, action_of};
use rx_tree::{Built, build};
use rx_world::{Command, Dialect, InputFile};
use std::time::Instant;

/// The two words, where they are there.
fn read_words(words: &[String]) -> Option<(u32, u32)> {
    match words {
        [files, rounds, ..] => Some((files.parse().ok()?, rounds.parse().ok()?)),
        _ => None,
    }
}

/// The tree of the files, and the key of the command on it.
#[derive(Drop)]
struct Made {
    built: Built,
    key: ActionKey,
}

/// Makes the tree and the key once, and tells the times.
fn make_timed(rt: &HostRuntime, command: &Command, files: &[InputFile]) -> Result<Made, Fault> {
    let alloc = rt.alloc();
    let begin = Instant::now(rt)?;
    let built = build(alloc, files, &[])?;
    let tree = begin.elapsed(rt)?.as_nanos();
    let key = action_of(alloc, command, &built.root, Dialect::New)?;
    let whole = begin.elapsed(rt)?.as_nanos();
    eprintln!(rt; "{tree} {whole}")?;
    Ok(Made { built, key })
}

/// Makes them so many times, and tells once what they are.
fn measure(rt: &HostRuntime, count: u32, rounds: u32) -> Result<(), Fault> {
    let files = files_of(rt.alloc(), count)?;
    let command = compile_step(rt.alloc())?;
    for round in 0..rounds {
        let made = make_timed(rt, &command, &files)?;
        if round == 0 {
            let directories = made.built.blobs.len();
            let size = made.key.command_digest.size;
            println!(rt; "{count} files in {directories} directories, a Command of {size} bytes")?;
        }
    }
    Ok(())
}

/// Does what the words ask for.
pub fn run(rt: &HostRuntime, words: &[String]) -> Result<(), Fault> {
    match read_words(words) {
        Some((count, rounds)) => measure(rt, count, rounds),
        None => Err(Fault::Words("tree FILES ROUNDS")),
    }
}

/// Makes the key on ten files, once.
pub fn run_example(rt: &HostRuntime) -> Result<(), Fault> {
    measure(rt, 10, 1)
}
