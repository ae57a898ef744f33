//! A whole client: what it writes, says to the proxy and ends with.

use crate::arguments::{read_text, read_texts, read_variables};
use crate::asks::write_address;
use crate::outside::{MemoryConfigs, MemoryConnect, MemoryMachine, Proxy};
use rx_base::{Bytes, Text};
use rx_client::{Invocation, Ran, Standard, Wrapped, wrap};
use rx_fakes::{MemorySink, Script};
use rx_rows::{Answer, Row, RowFault};
use std::alloc::{AllocError, Global};
use std::collections::VecDeque;
use std::mem::replace;

/// What the next client meets.
#[derive(Debug, Drop)]
pub(crate) struct Scene {
    alloc: Global,
    file: Option<(Text, Bytes)>,
    proxies: VecDeque<Proxy>,
    out_fails: Vec<u64>,
    err_fails: Vec<u64>,
    link: Option<(Text, Text)>,
    end: Ran,
}

impl Scene {
    /// No file, no proxy and no link; the streams take all, and what runs in place ends well.
    pub(crate) fn new(alloc: Global) -> Scene {
        Scene {
            alloc,
            file: None,
            proxies: VecDeque::new(alloc),
            out_fails: Vec::new(alloc),
            err_fails: Vec::new(alloc),
            link: None,
            end: Ran::Exited(0),
        }
    }

    /// `config PATH TEXT`: the next client's configuration file.
    pub(crate) fn config(
        &mut self,
        row: &mut Row<'_>,
        answer: &mut Answer,
    ) -> Result<(), RowFault> {
        let path = read_text(self.alloc, row)?;
        let bytes = Bytes::from_vec(row.text(self.alloc)?);
        self.file = Some((path, bytes));
        Ok(answer.word("met")?)
    }

    /// `proxy BYTES [reads|writes NUMBER]`: one more connection, on which the proxy says this, and
    /// the client's read or write of this number fails.
    pub(crate) fn proxy(&mut self, row: &mut Row<'_>, answer: &mut Answer) -> Result<(), RowFault> {
        let mut proxy = Proxy {
            bytes: row.bytes(self.alloc)?,
            reads: Vec::new(self.alloc),
            writes: Vec::new(self.alloc),
        };
        if !row.is_done() {
            match row.word()? {
                "reads" => proxy.reads.push(row.number()?)?,
                "writes" => proxy.writes.push(row.number()?)?,
                _ => return Err(RowFault::BadCall),
            }
        }
        self.proxies.push_back(proxy)?;
        Ok(answer.word("met")?)
    }

    /// `full out|err`: the next client's standard output or standard error takes nothing.
    pub(crate) fn full(&mut self, row: &mut Row<'_>, answer: &mut Answer) -> Result<(), RowFault> {
        match row.word()? {
            "out" => self.out_fails.push(1)?,
            "err" => self.err_fails.push(1)?,
            _ => return Err(RowFault::BadCall),
        }
        Ok(answer.word("met")?)
    }

    /// `link FROM TO`: what the next client's machine resolves a path to. It resolves no other.
    pub(crate) fn link(&mut self, row: &mut Row<'_>, answer: &mut Answer) -> Result<(), RowFault> {
        self.link = Some((read_text(self.alloc, row)?, read_text(self.alloc, row)?));
        Ok(answer.word("met")?)
    }

    /// `ends exited CODE|killed SIGNAL|missing|barred`: how what the next client runs in place ends.
    pub(crate) fn ends(&mut self, row: &mut Row<'_>, answer: &mut Answer) -> Result<(), RowFault> {
        self.end = match row.word()? {
            "exited" => Ran::Exited(i32::from(read_byte(row)?)),
            "killed" => Ran::Killed(read_byte(row)?),
            "missing" => Ran::NotFound,
            "barred" => Ran::NotStarted,
            _ => return Err(RowFault::BadCall),
        };
        Ok(answer.word("met")?)
    }

    /// `client DIRECTORY COUNT NAME VALUE .. WORD ..`: its status and answer, what it wrote, the
    /// addresses that it called, what it said on each connection, and what it ran in place. The scene
    /// is empty then.
    pub(crate) fn client(
        &mut self,
        row: &mut Row<'_>,
        answer: &mut Answer,
    ) -> Result<(), RowFault> {
        let alloc = self.alloc;
        let directory = read_text(alloc, row)?;
        let variables = read_variables(alloc, row)?;
        let words = read_texts(alloc, row)?;
        let scene = replace(self, Scene::new(alloc));
        let invocation = Invocation {
            words: &words,
            environment: &variables,
            directory: directory.as_str(),
        };
        run(scene, &invocation, answer)
    }
}

/// The next word, a number below 256.
fn read_byte(row: &mut Row<'_>) -> Result<u8, RowFault> {
    u8::try_from(row.number()?).map_err(|_| RowFault::BadNumber)
}

/// The outside of one client.
#[derive(Debug, Drop)]
struct Outside {
    configs: MemoryConfigs,
    connect: MemoryConnect,
    machine: MemoryMachine,
    standard: Standard<MemorySink, MemorySink>,
}

/// The outside that a scene makes.
fn outside_of(scene: Scene) -> Outside {
    let Scene {
        alloc,
        file,
        proxies,
        out_fails,
        err_fails,
        link,
        end,
    } = scene;
    let (path, bytes) = match file {
        Some(file) => file,
        None => (Text::new(alloc), Bytes::new(alloc)),
    };
    let (from, to) = match link {
        Some(link) => link,
        None => (Text::new(alloc), Text::new(alloc)),
    };
    Outside {
        configs: MemoryConfigs {
            alloc,
            path,
            bytes,
            script: Script::empty(alloc),
        },
        connect: MemoryConnect {
            alloc,
            ahead: proxies,
            back: Some(Vec::new(alloc)),
            called: Some(Vec::new(alloc)),
            script: Script::empty(alloc),
        },
        machine: MemoryMachine {
            alloc,
            from,
            to,
            end,
            runs: Some(Vec::new(alloc)),
        },
        standard: Standard {
            out: MemorySink::new(alloc, Script::new(out_fails)),
            err: MemorySink::new(alloc, Script::new(err_fails)),
        },
    }
}

/// Runs a client in a scene.
fn run(scene: Scene, invocation: &Invocation<'_>, answer: &mut Answer) -> Result<(), RowFault> {
    let alloc = scene.alloc;
    let mut outside = outside_of(scene);
    let wrapped = wrap(
        alloc,
        invocation,
        &mut outside.configs,
        &mut outside.connect,
        &mut outside.machine,
        &mut outside.standard,
    );
    write_wrapped(&wrapped, &outside.standard, answer)?;
    write_connections(&outside.connect, answer)?;
    write_runs(&outside.machine, answer)
}

fn write_wrapped(
    wrapped: &Wrapped,
    standard: &Standard<MemorySink, MemorySink>,
    answer: &mut Answer,
) -> Result<(), AllocError> {
    answer.number(u64::from(wrapped.status))?;
    answer.value(&wrapped.answer)?;
    answer.word("out")?;
    answer.text(&standard.out.bytes)?;
    answer.word("err")?;
    answer.text(&standard.err.bytes)
}

fn write_connections(connect: &MemoryConnect, answer: &mut Answer) -> Result<(), RowFault> {
    let (Some(called), Some(back)) = (&connect.called, &connect.back) else {
        return Err(RowFault::NoMemory);
    };
    for address in called {
        answer.word("called")?;
        write_address(address, answer)?;
    }
    for (_, output) in back {
        answer.word("said")?;
        answer.bytes(&output.bytes)?;
    }
    Ok(())
}

/// `ran DIRECTORY WORD ..` of each command that was run in place.
fn write_runs(machine: &MemoryMachine, answer: &mut Answer) -> Result<(), RowFault> {
    let Some(runs) = &machine.runs else {
        return Err(RowFault::NoMemory);
    };
    for run in runs {
        answer.word("ran")?;
        answer.text(run.directory.as_str().as_bytes())?;
        write_words(run.words.as_slice(), answer)?;
    }
    Ok(())
}

fn write_words(words: &[Text], answer: &mut Answer) -> Result<(), AllocError> {
    for word in words {
        answer.text(word.as_str().as_bytes())?;
    }
    Ok(())
}
