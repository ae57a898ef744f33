//! The commands that `bench gather` gathers.

use crate::fault::Fault;
use crate::gather_headers::Headers;
use rx_base::{Items, RelPath, Text};
use rx_digest_cache::DigestCache;
use rx_scan::{Choice, Gathered, gather};
use rx_world::{Command, Kind, Strategy, Toy};
use std::alloc::Global;
use std::marker::Brand;
use std::sync::Wait;

/// What is measured.
#[derive(Clone, Copy, Debug, PartialEq, Eq)]
pub enum Work {
    /// A translation unit, whose includes are scanned, with a new cache of digests.
    CompileCold,
    /// The same with a cache that has them.
    CompileWarm,
    /// A tool that declares all headers, with a new cache of digests.
    ToolCold,
    /// The same with a cache that has them.
    ToolWarm,
}

/// The words of a compiler that has four directories to search.
const WORDS: &str = "c++ -O2 -Wall -Igen -Ithird_party -Iinclude -I. -c src/main.cc -o out/main.o";

/// The command of these words, in the directory `project`.
fn command(alloc: Global) -> Result<Command, Fault> {
    let mut words = Items::new(alloc);
    for word in WORDS.split(' ') {
        words.push(Text::copy_of(alloc, word)?)?;
    }
    Ok(Command {
        words,
        environment: Items::new(alloc),
        working_directory: RelPath::read(alloc, "project")?,
        outputs: Items::new(alloc),
        platform: Items::new(alloc),
        timeout_seconds: 0,
    })
}

/// What the command of a work runs on.
pub fn gather_work(
    rt: &impl Wait,
    alloc: Global,
    headers: &mut Headers,
    cache: &DigestCache<Toy<Brand>>,
    work: Work,
) -> Result<Gathered, Fault> {
    let command = command(alloc)?;
    let (kind, input) = match work {
        Work::CompileCold | Work::CompileWarm => (Kind::Compile, "project/src/main.cc"),
        Work::ToolCold | Work::ToolWarm => (Kind::Tool, "project/include"),
    };
    let inputs = [RelPath::read(alloc, input)?];
    let choice = Choice {
        strategy: Strategy::Local,
        in_place: false,
    };
    Ok(gather(rt, alloc, &command, kind, &inputs, choice, headers, cache)?)
}
