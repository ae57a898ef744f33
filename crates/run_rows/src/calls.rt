//! The rows: what each does, by its first word.

use crate::after::show_after;
use crate::arguments::{file_in, part_in, sized_in, words_in};
use crate::farms::read_line;
use crate::meets::plan_meeting;
use crate::options::show_options;
use crate::plans::{DeskPlan, FailingCall, Node, Part, PlannedPath, PlannedTree};
use crate::replies::show_number;
use crate::requests::request_frame;
use crate::runs::{Finished, run, run_threads, serve};
use crate::seats::Hands;
use rx_base::RelPath;
use rx_row_values::read_path;
use rx_rows::{Answer, Calls, Row, RowFault};
use std::alloc::Global;
use std::thread::Threads;

/// A run that a row asks for.
#[derive(Drop)]
enum Errand {
    /// Of the proxy, one session after the other.
    Run { words: Vec<String> },
    /// Of the proxy, with the sessions in threads.
    Threads { words: Vec<String> },
    /// Of one session, on a board whose journal takes so many entries.
    Serve { limit: usize },
}

/// What rows said of a run, and what is left behind the last one. A row that asks for a run is read
/// twice, since a run needs threads, which a call has no right to: before the run for what it asks, and
/// after it for the answer.
#[derive(Drop)]
pub(crate) struct RunCalls {
    alloc: Global,
    desks: Vec<DeskPlan>,
    /// The calls of the place and of the front that fail.
    failing: Vec<FailingCall>,
    asked: Option<Errand>,
    /// Whether what the row asks for was just run.
    has_run: bool,
    finished: Option<Finished>,
}

/// The run that a row asks for.
fn errand_in(alloc: Global, word: &str, row: &mut Row<'_>) -> Result<Errand, RowFault> {
    match word {
        "run" => Ok(Errand::Run {
            words: words_in(alloc, row)?,
        }),
        "threads" => Ok(Errand::Threads {
            words: words_in(alloc, row)?,
        }),
        _ => Ok(Errand::Serve {
            limit: row.number()? as usize,
        }),
    }
}

/// The status, and how many sessions and entries there are.
fn show_run(finished: &Finished, answer: &mut Answer) -> Result<(), RowFault> {
    if let Some(status) = finished.status {
        show_number(answer, "status", u64::from(status))?;
    }
    show_number(answer, "sessions", finished.transcripts.len() as u64)?;
    show_number(answer, "entries", finished.journal.len() as u64)?;
    Ok(())
}

/// The first of these desks.
fn first(desks: Vec<DeskPlan>) -> Result<DeskPlan, RowFault> {
    let mut desks = desks;
    if desks.is_empty() {
        return Err(RowFault::BadCall);
    }
    Ok(desks.swap_remove(0))
}

impl RunCalls {
    /// No desk.
    pub(crate) fn new(alloc: Global) -> RunCalls {
        RunCalls {
            alloc,
            desks: Vec::new(alloc),
            failing: Vec::new(alloc),
            asked: None,
            has_run: false,
            finished: None,
        }
    }

    /// `new`: forgets all desks, and what is left behind a run.
    fn forget(&mut self) {
        self.desks.clear();
        self.failing.clear();
        self.finished = None;
    }

    /// The last desk.
    fn desk(&mut self) -> Result<&mut DeskPlan, RowFault> {
        match self.desks.last_mut() {
            Some(desk) => Ok(desk),
            None => Err(RowFault::BadCall),
        }
    }

    /// Puts a node at a path of the last desk's tree that is filled now.
    fn put(&mut self, path: RelPath, node: Node) -> Result<(), RowFault> {
        let desk = self.desk()?;
        let tree = desk.filling;
        desk.paths.push(PlannedPath { tree, path, node })?;
        Ok(())
    }

    /// `fails PART NUMBER`: the part's call of this number fails.
    fn add_failure(&mut self, row: &mut Row<'_>) -> Result<(), RowFault> {
        let part = part_in(row)?;
        let number = row.number()?;
        let call = FailingCall { part, number };
        match part {
            Part::Place | Part::Front => self.failing.push(call)?,
            Part::Farm => return Err(RowFault::BadCall),
            _ => self.desk()?.failing.push(call)?,
        }
        Ok(())
    }

    /// `pieces PART COUNT`: a call on the input or on the output moves so many bytes at most.
    fn set_piece(&mut self, row: &mut Row<'_>) -> Result<(), RowFault> {
        let part = part_in(row)?;
        let most = row.number()? as usize;
        let desk = self.desk()?;
        match part {
            Part::Input => desk.input_piece = most,
            Part::Output => desk.output_piece = most,
            _ => return Err(RowFault::BadCall),
        }
        Ok(())
    }

    /// What is left behind the last run.
    fn last_run(&self) -> Result<&Finished, RowFault> {
        match &self.finished {
            Some(finished) => Ok(finished),
            None => Err(RowFault::BadCall),
        }
    }

    /// Rows that say what stands at a path.
    fn call_paths(&mut self, word: &str, row: &mut Row<'_>) -> Result<(), RowFault> {
        let path = read_path(self.alloc, row)?;
        let node = match word {
            "file" => file_in(self.alloc, row)?,
            "sized" => sized_in(self.alloc, row)?,
            "dir" => Node::Dir,
            _ => Node::Other,
        };
        self.put(path, node)
    }

    /// Rows that say which tree the next rows fill.
    fn call_trees(&mut self, word: &str, row: &mut Row<'_>) -> Result<(), RowFault> {
        let desk = self.desk()?;
        match word {
            "local" => {
                desk.local_apart = true;
                desk.filling = PlannedTree::Local;
            }
            "remote" => {
                desk.remote_apart = true;
                desk.filling = PlannedTree::Remote;
            }
            _ => {
                desk.changes_after = Some(row.number()?);
                desk.filling = PlannedTree::Later;
            }
        }
        Ok(())
    }

    /// Rows that say which bytes come in. The answer is all of them.
    fn call_input(
        &mut self,
        word: &str,
        row: &mut Row<'_>,
        answer: &mut Answer,
    ) -> Result<(), RowFault> {
        let alloc = self.alloc;
        let bytes = match word {
            "request" => request_frame(alloc, row)?,
            _ => row.bytes(alloc)?,
        };
        let desk = self.desk()?;
        desk.input.extend_from_slice(&bytes)?;
        answer.bytes(&desk.input)?;
        Ok(())
    }

    /// `farm LINE`: the farm's client of the last desk answers this, behind its other lines.
    fn add_line(&mut self, row: &mut Row<'_>) -> Result<(), RowFault> {
        let line = read_line(self.alloc, row)?;
        self.desk()?.lines.push(line)?;
        Ok(())
    }

    /// The desks of the rows so far, which are no longer kept.
    fn take_desks(&mut self) -> Vec<DeskPlan> {
        std::mem::replace(&mut self.desks, Vec::new(self.alloc))
    }

    /// `run WORDS`, `threads WORDS` and `serve LIMIT`: at the first reading nothing, and at the second
    /// what the run came to.
    fn call_runs(
        &mut self,
        word: &str,
        row: &mut Row<'_>,
        answer: &mut Answer,
    ) -> Result<(), RowFault> {
        let errand = errand_in(self.alloc, word, row)?;
        if self.has_run {
            self.has_run = false;
            return show_run(self.last_run()?, answer);
        }
        self.asked = Some(errand);
        Ok(())
    }

    /// Runs what the last row asked for. Whether it asked for a run, so that it is to be read again.
    pub(crate) fn run_asked(
        &mut self,
        rt: &(impl Hands + Threads + Send + Sync),
    ) -> Result<bool, RowFault> {
        let Some(errand) = self.asked.take() else {
            return Ok(false);
        };
        let plans = self.take_desks();
        let finished = match errand {
            Errand::Run { words } => run(rt, self.alloc, &words, plans, &self.failing)?,
            Errand::Threads { words } => {
                run_threads(rt, self.alloc, &words, plans, &self.failing)?
            }
            Errand::Serve { limit } => {
                serve(rt, self.alloc, limit, first(plans)?, &self.failing)?
            }
        };
        self.finished = Some(finished);
        self.has_run = true;
        Ok(true)
    }

    /// Rows that say something of a run that is still to begin.
    fn call_plans(&mut self, word: &str, row: &mut Row<'_>) -> Result<(), RowFault> {
        match word {
            "new" => self.forget(),
            "desk" => self.desks.push(DeskPlan::new(self.alloc))?,
            "fails" => self.add_failure(row)?,
            "pieces" => self.set_piece(row)?,
            "local" | "remote" | "later" => self.call_trees(word, row)?,
            "farm" => self.add_line(row)?,
            "file" | "sized" | "dir" | "other" => self.call_paths(word, row)?,
            "meet" | "waits" | "crowd" | "patience" | "starves" | "withholds" => {
                plan_meeting(self.alloc, word, row, &mut self.desk()?.meeting)?
            }
            _ => return Err(RowFault::NoCall),
        }
        Ok(())
    }
}

impl Calls for RunCalls {
    fn call(&mut self, row: &mut Row<'_>, answer: &mut Answer) -> Result<(), RowFault> {
        let word = row.word()?;
        match word {
            "request" | "bytes" => self.call_input(word, row, answer),
            "run" | "threads" | "serve" => self.call_runs(word, row, answer),
            "session"
            | "turn"
            | "turn-frame"
            | "frame"
            | "entry"
            | "place"
            | "benches"
            | "reads"
            | "ends"
            | "passes"
            | "calls" => show_after(self.alloc, self.last_run()?, word, row, answer),
            "options" => show_options(self.alloc, row, answer),
            _ => {
                self.call_plans(word, row)?;
                answer.word("ok")?;
                Ok(())
            }
        }
    }
}
