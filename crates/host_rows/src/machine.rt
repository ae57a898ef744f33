//! The calls of the rows.

use crate::benches::Benches;
use crate::links::Links;
use crate::streams;
use crate::trees::Tree;
use rx_host::Hands;
use rx_rows::{Answer, Calls, Row, RowFault};
use std::alloc::AllocError;
use std::time::{Duration, Instant};

/// A halted call takes less. What it waits for takes longer.
const SOON_MILLIS: u64 = 2000;

/// What the rows share: the files below a directory, a bench in it, and a connection to a farm.
#[derive(Drop)]
pub(crate) struct Machine<H> {
    pub(crate) rt: HostRuntime,
    pub(crate) hands: H,
    tree: Tree,
    pub(crate) benches: Benches<H>,
    pub(crate) links: Links<H>,
}

impl<H: Hands> Machine<H> {
    /// No files, no bench and no connection yet.
    pub(crate) fn new(rt: HostRuntime, hands: H, root: &str) -> Result<Machine<H>, AllocError> {
        Ok(Machine {
            rt,
            hands,
            tree: Tree::new(rt, root)?,
            benches: Benches::new(rt, hands, root)?,
            links: Links::new(rt, hands, None, None)?,
        })
    }

    /// `halted run WORD ..`, `halted receive`: what the call answers while another thread halts it, and whether it
    /// did so soon.
    fn answer_halted(&mut self, row: &mut Row<'_>, answer: &mut Answer) -> Result<(), RowFault> {
        let Ok(start) = Instant::now(&self.rt) else {
            return Err(RowFault::BadCall);
        };
        match row.word()? {
            "run" => self.benches.run(row, answer)?,
            "receive" => self.links.receive(answer)?,
            _ => return Err(RowFault::NoCall),
        }
        let Ok(taken) = start.elapsed(&self.rt) else {
            return Err(RowFault::BadCall);
        };
        let is_soon = taken < Duration::from_millis(SOON_MILLIS);
        answer.word(if is_soon { "soon" } else { "late" })?;
        Ok(())
    }
}

impl<H: Hands> Calls for Machine<H> {
    fn call(&mut self, row: &mut Row<'_>, answer: &mut Answer) -> Result<(), RowFault> {
        match row.word()? {
            "root" => self.tree.create(answer),
            "remove" => self.tree.remove(answer),
            "place" => self.tree.place(row, answer),
            "link" => self.tree.link(row, answer),
            "move" => self.tree.move_it(row, answer),
            "overwrite" => self.tree.overwrite(row, answer),
            "rest" => self.tree.rest(answer),
            "clear" => self.tree.clear(answer),
            "session" => self.tree.begin_session(answer),
            "look" => self.tree.look(row, answer),
            "read" => self.tree.read(row, answer),
            "mark" => self.tree.mark(row, answer),
            "list" => self.tree.list(row, answer),
            "bench" | "done" => self.benches.answer_bench(answer),
            "directory" => self.benches.make_directory(row, answer),
            "put" => self.benches.put(row, answer),
            "run" => self.benches.run(row, answer),
            "take" => self.benches.take(row, answer),
            "wait" => self.benches.wait(answer),
            "farm" => self.links.set_farm(row, answer),
            "dial" => self.links.dial(answer),
            "send" => self.links.send(row, answer),
            "tell" => self.links.tell(row, answer),
            "receive" => self.links.receive(answer),
            "halted" => self.answer_halted(row, answer),
            "source" => streams::answer_source(self.rt, row, answer),
            "sink" => streams::answer_sink(self.rt, row, answer),
            "seeds" => streams::answer_seeds(self.rt, answer),
            _ => Err(RowFault::NoCall),
        }
    }
}
