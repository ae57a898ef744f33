//! The compile step of `bench tree`, as a large build has it: sixty words, and two outputs.

use crate::fault::Fault;
use rx_base::{Items, RelPath, Text, sort_paths};
use rx_world::Command;
use std::alloc::{AllocError, Global};

/// How many directories of headers the compile step names.
const HEADER_DIRECTORIES: u32 = 40;

/// The other words, behind those.
const OTHER_WORDS: [&str; 19] = [
    "-std=c++20",
    "-O2",
    "-g1",
    "-fPIC",
    "-fno-exceptions",
    "-fno-rtti",
    "-Wall",
    "-Wextra",
    "-Werror",
    "-Wno-unused-parameter",
    "-DNDEBUG",
    "-D_FORTIFY_SOURCE=2",
    "-MMD",
    "-MF",
    "obj/main.o.d",
    "-c",
    "top0/part0/lib0/file0.cc",
    "-o",
    "obj/main.o",
];

fn words_of(alloc: Global) -> Result<Items<Text>, AllocError> {
    let mut words = Items::new(alloc);
    words.push(Text::copy_of(alloc, "g++")?)?;
    for number in 0..HEADER_DIRECTORIES {
        let word = format!(in alloc; "-Itop{}/part{number}", number % 5)?;
        words.push(Text::copy_of(alloc, word.as_str())?)?;
    }
    for word in OTHER_WORDS {
        words.push(Text::copy_of(alloc, word)?)?;
    }
    Ok(words)
}

/// The command of the compile step.
pub fn compile_step(alloc: Global) -> Result<Command, Fault> {
    let mut outputs = Items::new(alloc);
    outputs.push(RelPath::read(alloc, "obj/main.o")?)?;
    outputs.push(RelPath::read(alloc, "obj/main.o.d")?)?;
    Ok(Command {
        words: words_of(alloc)?,
        environment: Items::new(alloc),
        working_directory: RelPath::root(alloc),
        outputs: sort_paths(outputs)?,
        platform: Items::new(alloc),
        timeout_seconds: 0,
    })
}
