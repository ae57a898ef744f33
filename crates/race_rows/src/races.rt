//! One race from row to row.

use crate::arguments::{read_attempt, read_local_end, read_plan, read_remote_end};
use rx_race::{Event, Phase, Race};
use rx_rows::{Answer, Row, RowFault};
use rx_world::Attempt;
use std::alloc::{AllocError, Global};

/// The most cancels of a race before another one.
const MOST_CANCELS_BEFORE: usize = 1;

/// The race that was opened last.
#[derive(Drop)]
pub(crate) struct Races {
    alloc: Global,
    race: Option<Race>,
}

impl Races {
    /// No race yet.
    pub(crate) fn new(alloc: Global) -> Races {
        Races { alloc, race: None }
    }

    /// `new PLAN`: another race, in which nothing happened yet.
    pub(crate) fn open(&mut self, row: &mut Row<'_>, answer: &mut Answer) -> Result<(), RowFault> {
        let plan = read_plan(row)?;
        self.race = Some(Race::new(self.alloc, plan)?);
        answer.word("ok")?;
        Ok(())
    }

    /// `start ATTEMPT`: whether it was started.
    pub(crate) fn start(&mut self, row: &mut Row<'_>, answer: &mut Answer) -> Result<(), RowFault> {
        let attempt = read_attempt(row)?;
        let Some(race) = &mut self.race else {
            return Err(RowFault::BadCall);
        };
        answer.value(&race.start(attempt))?;
        Ok(())
    }

    /// `offer ATTEMPT END`: the verdict. Only an attempt that runs can offer.
    pub(crate) fn offer(&mut self, row: &mut Row<'_>, answer: &mut Answer) -> Result<(), RowFault> {
        let alloc = self.alloc;
        let attempt = read_attempt(row)?;
        let Some(race) = &mut self.race else {
            return Err(RowFault::BadCall);
        };
        let Phase::Running = race.phase(attempt) else {
            return Err(RowFault::BadCall);
        };
        let verdict = match attempt {
            Attempt::Local => race.offer(attempt, &read_local_end(alloc, row)?),
            Attempt::Remote => race.offer(attempt, &read_remote_end(alloc, row)?),
        };
        answer.value(&verdict)?;
        Ok(())
    }

    /// `cancel`: the verdict. There are two at most.
    pub(crate) fn cancel(&mut self, answer: &mut Answer) -> Result<(), RowFault> {
        let Some(race) = &mut self.race else {
            return Err(RowFault::BadCall);
        };
        if race.cancels() > MOST_CANCELS_BEFORE {
            return Err(RowFault::BadCall);
        }
        answer.value(&race.cancel())?;
        Ok(())
    }

    /// `decision`: what the race has come to.
    pub(crate) fn answer_decision(&self, answer: &mut Answer) -> Result<(), RowFault> {
        answer.value(&self.race()?.decision())?;
        Ok(())
    }

    /// `phase ATTEMPT`: how far it is.
    pub(crate) fn answer_phase(
        &self,
        row: &mut Row<'_>,
        answer: &mut Answer,
    ) -> Result<(), RowFault> {
        let attempt = read_attempt(row)?;
        answer.value(&self.race()?.phase(attempt))?;
        Ok(())
    }

    /// `events`: what happened, in its order.
    pub(crate) fn answer_events(&self, answer: &mut Answer) -> Result<(), RowFault> {
        let events = self.race()?.events();
        if events.is_empty() {
            answer.word("nothing")?;
        }
        for event in events {
            write_event(*event, answer)?;
        }
        Ok(())
    }

    /// The race. `BadCall` where none was opened.
    fn race(&self) -> Result<&Race, RowFault> {
        match &self.race {
            Some(race) => Ok(race),
            None => Err(RowFault::BadCall),
        }
    }
}

/// The event's name, then its attempt and its verdict, where it has them.
fn write_event(event: Event, answer: &mut Answer) -> Result<(), AllocError> {
    match event {
        Event::Start(attempt) => {
            answer.word("start")?;
            answer.value(&attempt)
        }
        Event::Offer(attempt, verdict) => {
            answer.word("offer")?;
            answer.value(&attempt)?;
            answer.value(&verdict)
        }
        Event::Cancel(verdict) => {
            answer.word("cancel")?;
            answer.value(&verdict)
        }
    }
}
