//! Benches of desks: benches in memory whose calls may wait, and which may keep an output back.

ghost use Rattle.std.specs.Prelude.{◌≡◌, ◌≤◌, None, Some};
ghost use Rattle.rx_world.specs.declared.failures.Refused.TheVariants.{Failed as failed};
ghost use Rattle.rx_world.specs.Benches.{FailsAt, IsRefusedAt};
ghost use Rattle.rx_world.specs.Causes.{HasCause, HasCauseOf, Rose};

use crate::plans::Part;
use crate::seats::{Hands, Seat};
use crate::worlds::{RowWorld, ToyWorld};
use rx_base::RelPath;
use rx_fakes::{ToyBench, ToyBenches};
use rx_world::{Bench, BenchMaker, BenchStep, Command, Exit, Failed, FileOut, Refused};

/// A bench in memory. It tells neither its tree nor its runs.
#[derive(Drop)]
pub(crate) struct MeetingBench<H> {
    pub bench: ToyBench,
    pub seat: Seat<H>,
    /// The step of the last call that failed.
    pub failed: Option<BenchStep>,
}

impl<H: Hands> MeetingBench<H> {
    /// Counts a fault of this step.
    fn fail(&mut self, step: BenchStep) -> Failed
        ensures step { self.new.failed ≡ Some step }
        ensures later { self.old.seat.faults ≤ self.new.seat.faults }
        ensures rose { Rose self.old.seat.faults self.new.seat.faults }
    {
        self.failed = Some(step);
        self.seat.fault()
    }

    /// Begins a call of this step.
    fn enter(&mut self, step: BenchStep) -> Result<(), Refused>
        ensures step { IsRefusedAt step self.old.failed self.new.failed result }
        ensures cause { HasCauseOf failed self.old.seat.faults self.new.seat.faults result }
    {
        match self.seat.enter() {
            Err(Refused::Failed) => Err(Refused::from(self.fail(step))),
            entered => entered,
        }
    }

    /// Begins a call of this step whose want of memory is a fault.
    fn enter_or_fail(&mut self, step: BenchStep) -> Result<(), Failed>
        ensures step { FailsAt step self.old.failed self.new.failed result }
        ensures cause { HasCause self.old.seat.faults self.new.seat.faults result }
    {
        match self.seat.enter_or_fail() {
            Ok(()) => Ok(()),
            Err(_) => Err(self.fail(step)),
        }
    }
}

impl<H: Hands> Bench<RowWorld> for MeetingBench<H> {
    ghost tree = { λ b. None };

    ghost runs = { λ b. None };

    ghost faults = { λ b. b.seat.faults };

    ghost failed_at = { λ b. b.failed };

    fn make_dir(&mut self, path: &RelPath) -> Result<(), Failed> {
        self.enter_or_fail(BenchStep::MakeDir)?;
        match <ToyBench as Bench<ToyWorld>>::make_dir(&mut self.bench, path) {
            Ok(()) => Ok(()),
            Err(_) => Err(self.fail(BenchStep::MakeDir)),
        }
    }

    fn put(
        &mut self,
        path: &RelPath,
        bytes: &[u8],
        executable: bool,
        mark: u128,
    ) -> Result<(), Failed> {
        self.enter_or_fail(BenchStep::Put)?;
        match <ToyBench as Bench<ToyWorld>>::put(&mut self.bench, path, bytes, executable, mark) {
            Ok(()) => Ok(()),
            Err(_) => Err(self.fail(BenchStep::Put)),
        }
    }

    fn run(&mut self, command: &Command) -> Result<Exit, Refused> {
        self.enter(BenchStep::Run)?;
        match <ToyBench as Bench<ToyWorld>>::run(&mut self.bench, command) {
            Err(Refused::Failed) => Err(Refused::from(self.fail(BenchStep::Run))),
            ran => ran,
        }
    }

    fn take(&mut self, path: &RelPath) -> Result<Option<FileOut>, Refused> {
        self.enter(BenchStep::Take)?;
        if self.seat.withholds(path) {
            return Ok(None);
        }
        match <ToyBench as Bench<ToyWorld>>::take(&mut self.bench, path) {
            Err(Refused::Failed) => Err(Refused::from(self.fail(BenchStep::Take))),
            taken => taken,
        }
    }
}

/// Makes such benches. It doesn't tell those that came back.
#[derive(Drop)]
pub(crate) struct MeetingBenches<H> {
    pub benches: ToyBenches,
    pub seat: Seat<H>,
}

impl<H: Hands + Send> BenchMaker<RowWorld> for MeetingBenches<H> {
    type B = MeetingBench<H>;

    ghost faults = { λ m. m.seat.faults };

    ghost returned = { λ m. None };

    fn make(&mut self) -> Result<MeetingBench<H>, Failed> {
        self.seat.enter_or_fail()?;
        let made = <ToyBenches as BenchMaker<ToyWorld>>::make(&mut self.benches);
        match (made, self.seat.beside(Part::Bench)) {
            (Ok(bench), Ok(seat)) => Ok(MeetingBench {
                bench,
                seat,
                failed: None,
            }),
            _ => Err(self.seat.fault()),
        }
    }

    fn done(&mut self, bench: MeetingBench<H>) {
        if bench.seat.faults > 0 {
            self.seat.fault();
        }
        <ToyBenches as BenchMaker<ToyWorld>>::done(&mut self.benches, bench.bench);
    }
}
