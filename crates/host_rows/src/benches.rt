//! A bench of the machine from row to row, and the programs that run there.

use crate::answers::{write_done, write_output, write_refused};
use crate::arguments::read_command;
use crate::trees::NAMES_NUMBER;
use rx_host::{Children, Halting, Hands, HostBench, HostBenches};
use rx_row_values::read_path;
use rx_rows::{Answer, Row, RowFault};
use rx_world::{Bench, BenchMaker};
use std::alloc::AllocError;

/// The mark of the files that rows put: 9 September 2001, 01:46:40 UTC, and 123,456,789 nanoseconds.
const PUT_MARK: u128 = 1_000_000_000_123_456_789;

/// A maker of benches below a directory, and its bench, where it has made one that hasn't come back.
#[derive(Drop)]
pub(crate) struct Benches<H> {
    rt: HostRuntime,
    hands: H,
    root: String,
    /// Halts the runs.
    pub(crate) halting: Halting,
    children: Children,
    maker: HostBenches<H>,
    bench: Option<HostBench<H>>,
}

impl<H: Hands> Benches<H> {
    /// A maker whose runs nobody has halted.
    pub(crate) fn new(rt: HostRuntime, hands: H, root: &str) -> Result<Benches<H>, AllocError> {
        let alloc = rt.alloc();
        let (halting, children) = (Halting::new(&rt, alloc)?, Children::new(alloc)?);
        let maker = HostBenches::new(
            rt,
            hands,
            String::from_str(alloc, root)?,
            NAMES_NUMBER,
            halting.share()?,
            children.share()?,
        );
        Ok(Benches {
            rt,
            hands,
            root: String::from_str(alloc, root)?,
            halting,
            children,
            maker,
            bench: None,
        })
    }

    /// Another maker makes a bench.
    pub(crate) fn open(&mut self) -> Result<(), AllocError>
    where
        H: Send,
    {
        *self = Benches::new(self.rt, self.hands, self.root.as_str())?;
        self.bench = self.maker.make().ok();
        Ok(())
    }

    /// The bench is handed back.
    pub(crate) fn close(&mut self)
    where
        H: Send,
    {
        if let Some(bench) = self.bench.take() {
            self.maker.done(bench);
        }
    }

    /// `bench`, `done`: whether there is a bench then.
    pub(crate) fn answer_bench(&self, answer: &mut Answer) -> Result<(), RowFault> {
        answer.word(if self.bench.is_some() {
            "there"
        } else {
            "gone"
        })?;
        Ok(())
    }

    /// The bench. `BadCall` where there is none.
    fn bench(&mut self) -> Result<&mut HostBench<H>, RowFault> {
        match &mut self.bench {
            Some(bench) => Ok(bench),
            None => Err(RowFault::BadCall),
        }
    }

    /// `directory PATH`: makes a directory.
    pub(crate) fn make_directory(
        &mut self,
        row: &mut Row<'_>,
        answer: &mut Answer,
    ) -> Result<(), RowFault> {
        let path = read_path(self.rt.alloc(), row)?;
        write_done(self.bench()?.make_dir(&path), answer)
    }

    /// `put PATH TEXT`: puts a file there, which was changed at a certain time.
    pub(crate) fn put(&mut self, row: &mut Row<'_>, answer: &mut Answer) -> Result<(), RowFault> {
        let alloc = self.rt.alloc();
        let (path, text) = (read_path(alloc, row)?, row.text(alloc)?);
        write_done(self.bench()?.put(&path, &text, false, PUT_MARK), answer)
    }

    /// `run WORD ..`: the code of a command, and what it wrote to both streams.
    pub(crate) fn run(&mut self, row: &mut Row<'_>, answer: &mut Answer) -> Result<(), RowFault> {
        let command = read_command(self.rt.alloc(), row)?;
        match self.bench()?.run(&command) {
            Ok(exit) => {
                answer.value(&exit.code)?;
                write_output(exit.stdout.as_slice(), answer)?;
                write_output(exit.stderr.as_slice(), answer)?;
                Ok(())
            }
            Err(refused) => write_refused(refused, answer),
        }
    }

    /// `take PATH`: the text of the file there, or `none`.
    pub(crate) fn take(&mut self, row: &mut Row<'_>, answer: &mut Answer) -> Result<(), RowFault> {
        let path = read_path(self.rt.alloc(), row)?;
        match self.bench()?.take(&path) {
            Ok(Some(file)) => answer.text(file.bytes.as_slice())?,
            Ok(None) => answer.word("none")?,
            Err(refused) => write_refused(refused, answer)?,
        }
        Ok(())
    }

    /// `wait`: waits for the programs that still run.
    pub(crate) fn wait(&self, answer: &mut Answer) -> Result<(), RowFault> {
        self.children.wait_for_all(&self.hands);
        answer.word("ok")?;
        Ok(())
    }
}
