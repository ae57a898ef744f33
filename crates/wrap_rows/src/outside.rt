//! The outside of a client in memory: a configuration file, connections to a proxy, and a machine.

ghost use Rattle.std.specs.Prelude.{◌≡◌, ◌++◌, ◌∷◌, [], IfOk, None, Some, if◌then◌else◌, option_map};
ghost use Rattle.std.specs.Str.{bytes_eq};
ghost use Rattle.rx_client.specs.Runs.{Run, RunsOnce};
ghost use Rattle.rx_client.specs.StillTold.{StillTold};
ghost use Rattle.rx_wrap.specs.declared.addresses.Address.{Address};

use rx_base::{Bytes, Items, NoMemory, Text, TryClone};
use rx_client::{Configs, Connect, Machine, Ran};
use rx_fakes::{MemorySink, MemorySource, Script};
use rx_world::{Failed, Refused};
use rx_wrap::Address;
use std::alloc::Global;
use std::collections::VecDeque;
use std::marker::Model;

/// One configuration file. A read of another path is a counted fault.
#[derive(Debug, Drop)]
pub(crate) struct MemoryConfigs {
    pub(crate) alloc: Global,
    pub(crate) path: Text,
    pub(crate) bytes: Bytes,
    pub(crate) script: Script,
}

impl Configs for MemoryConfigs {
    ghost held = { λ c path. Some c.bytes };

    ghost faults = { λ c. c.script.faults };

    fn read(&mut self, path: &str) -> Result<Vec<u8>, Refused> {
        self.script.call()?;
        if path != self.path.as_str() {
            return Err(Refused::from(self.script.fault()));
        }
        Ok(Vec::from_slice(self.alloc, self.bytes.as_slice())?)
    }
}

/// What a proxy says on a connection, and which reads and writes of the client fail.
#[derive(Debug, Drop)]
pub(crate) struct Proxy {
    pub(crate) bytes: Vec<u8>,
    pub(crate) reads: Vec<u64>,
    pub(crate) writes: Vec<u64>,
}

/// Connections to proxies, one after the other. Where none is left, that is a counted fault. What
/// came back and what was called is told as long as there is memory for it.
#[derive(Debug, Drop)]
pub(crate) struct MemoryConnect {
    pub(crate) alloc: Global,
    pub(crate) ahead: VecDeque<Proxy>,
    pub(crate) back: Option<Vec<(MemorySource, MemorySink)>>,
    pub(crate) called: Option<Vec<Address>>,
    pub(crate) script: Script,
}

/// A list with one more item, as long as there is memory for it.
fn with_item<T: Drop>(list: Option<Vec<T>>, item: T) -> Option<Vec<T>>
    ensures { StillTold (option_map (λ v. v.items) list) (option_map (λ v. v.items) result)
        (λ x y. y ≡ x ++ item ∷ []) }
{
    match list {
        Some(list) => {
            let mut list = list;
            match list.push(item) {
                Ok(()) => Some(list),
                Err(_) => None,
            }
        }
        None => None,
    }
}

/// A copy of an address.
fn copy_of(alloc: Global, address: &Address) -> Result<Address, NoMemory>
    ensures { IfOk result (λ copy. copy ≡ address.now) }
{
    match address {
        Address::Unix(path) => Ok(Address::Unix(path.try_clone(alloc)?)),
        Address::Port(port) => Ok(Address::Port(*port)),
    }
}

/// The addresses that were called, with one more.
fn with_address(
    alloc: Global,
    called: Option<Vec<Address>>,
    address: &Address,
) -> Option<Vec<Address>>
    ensures { StillTold (option_map (λ v. v.items) called) (option_map (λ v. v.items) result)
        (λ x y. y ≡ x ++ address.now ∷ []) }
{
    match copy_of(alloc, address) {
        Ok(copy) => with_item(called, copy),
        Err(_) => None,
    }
}

/// The two ends of a connection on which nothing was said.
fn ends_of(alloc: Global, proxy: Proxy) -> (MemorySource, MemorySink)
    ensures input { result.0.script.faults ≡ 0 }
    ensures output { result.1.script.faults ≡ 0 }
{
    let Proxy {
        bytes,
        reads,
        writes,
    } = proxy;
    let source = MemorySource::new(bytes, Script::new(reads));
    let sink = MemorySink::new(alloc, Script::new(writes));
    (source, sink)
}

impl Connect for MemoryConnect {
    type In = MemorySource;

    type Out = MemorySink;

    ghost coming = { λ c. None };

    ghost back = { λ c. option_map (λ v. v.items) c.back };

    ghost called = { λ c. option_map (λ v. v.items) c.called };

    ghost faults = { λ c. c.script.faults };

    fn connect(&mut self, address: &Address) -> Result<(MemorySource, MemorySink), Failed> {
        self.called = with_address(self.alloc, self.called.take(), address);
        self.script.call()?;
        match self.ahead.pop_front() {
            Some(proxy) => Ok(ends_of(self.alloc, proxy)),
            None => Err(self.script.fault()),
        }
    }

    fn done(&mut self, input: MemorySource, output: MemorySink) {
        if input.script.faults > 0 || output.script.faults > 0 {
            let _ = self.script.fault();
        }
        self.back = with_item(self.back.take(), (input, output));
    }
}

/// A command that was run.
#[derive(Debug, Drop)]
pub(crate) struct Done {
    pub(crate) words: Items<Text>,
    pub(crate) directory: Text,
    pub(crate) ended: Ran,
}

impl Model for Done {
    ghost use Rattle.rx_client.specs.Runs.{Run};

    ghost Value = { Run };

    ghost view = { λ d. record { words = d.words; directory = d.directory; ended = d.ended } };
}

/// A machine with one link, on which each command ends alike. What was run is told as long as there
/// is memory for it.
#[derive(Debug, Drop)]
pub(crate) struct MemoryMachine {
    pub(crate) alloc: Global,
    /// The path of the link, and what it is resolved to.
    pub(crate) from: Text,
    pub(crate) to: Text,
    pub(crate) end: Ran,
    pub(crate) runs: Option<Vec<Done>>,
}

/// The record of a run.
fn done_of(alloc: Global, words: &[Text], directory: &str, ended: Ran) -> Result<Done, NoMemory>
    ensures { IfOk result (λ done. done
        ≡ record { words = words.now; directory = directory.now; ended = ended }) }
{
    Ok(Done {
        words: Items::copy_of(alloc, words)?,
        directory: Text::copy_of(alloc, directory)?,
        ended,
    })
}

/// The runs, with one more.
fn with_run(
    alloc: Global,
    runs: Option<Vec<Done>>,
    words: &[Text],
    directory: &str,
    ended: Ran,
) -> Option<Vec<Done>>
    ensures { RunsOnce (record { words = words.now; directory = directory.now; ended = ended })
        (option_map (λ v. v.items) runs) (option_map (λ v. v.items) result) }
{
    match done_of(alloc, words, directory, ended) {
        Ok(done) => with_item(runs, done),
        Err(_) => None,
    }
}

impl Machine for MemoryMachine {
    ghost resolved = { λ m path. Some (if bytes_eq path m.from then Some m.to else None) };

    ghost runs = { λ m. option_map (λ v. v.items) m.runs };

    fn resolve(&self, path: &str) -> Result<Option<Text>, NoMemory> {
        if path == self.from.as_str() {
            return Ok(Some(self.to.try_clone(self.alloc)?));
        }
        Ok(None)
    }

    fn run(&mut self, words: &[Text], directory: &str) -> Result<Ran, NoMemory> {
        self.runs = with_run(self.alloc, self.runs.take(), words, directory, self.end);
        Ok(self.end)
    }
}
