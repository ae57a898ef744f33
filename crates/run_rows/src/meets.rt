//! The rows that say how the parts of a desk wait for each other, and what memory and benches lack.

use crate::arguments::{part_in, part_of};
use crate::meetings::{Crowd, Event, MeetingPlan, PartCalls, Waiting};
use crate::plans::{FailingCall, Part};
use rx_base::NoMemory;
use rx_row_values::read_path;
use rx_rows::{Row, RowFault};
use rx_world::Attempt;
use std::alloc::Global;

/// The attempt that a part's calls are made for.
fn attempt_of(part: Part) -> Result<Attempt, RowFault> {
    match part {
        Part::TreeLocal | Part::Benches | Part::Bench => Ok(Attempt::Local),
        Part::TreeRemote | Part::Farm => Ok(Attempt::Remote),
        Part::Input | Part::Output | Part::Tree | Part::Place | Part::Front => {
            Err(RowFault::BadCall)
        }
    }
}

/// That a part's calls end early: those of the input, or those of an attempt. Of the other parts no call waits.
fn stop_of(part: Part) -> Result<Event, RowFault> {
    match part {
        Part::Input => Ok(Event::InputHalted),
        _ => Ok(Event::Halted(attempt_of(part)?)),
    }
}

/// The calls of a part, by the word behind its name: a number, or `each`.
fn calls_of(part: Part, word: &str) -> Result<PartCalls, RowFault> {
    stop_of(part)?;
    let number = match word {
        "each" => None,
        word => match word.parse::<u64>() {
            Ok(number) => Some(number),
            Err(_) => return Err(RowFault::BadNumber),
        },
    };
    Ok(PartCalls { part, number })
}

/// `PART N` or `PART each`: the calls of a part.
fn calls_in(part: Part, row: &mut Row<'_>) -> Result<PartCalls, RowFault> {
    calls_of(part, row.word()?)
}

/// These calls wait for this.
fn add_wait(plan: &mut MeetingPlan, calls: PartCalls, until: Event) -> Result<(), NoMemory> {
    plan.waits.push(Waiting {
        calls,
        until,
        has_come: false,
    })?;
    Ok(())
}

/// The next word is this one.
fn expect(row: &mut Row<'_>, wanted: &str) -> Result<(), RowFault> {
    if row.word()? == wanted {
        Ok(())
    } else {
        Err(RowFault::BadCall)
    }
}

/// `meet PART N with PART M`: both wait for each other.
fn add_meet(row: &mut Row<'_>, plan: &mut MeetingPlan) -> Result<(), RowFault> {
    let one = calls_in(part_in(row)?, row)?;
    expect(row, "with")?;
    let other = calls_in(part_in(row)?, row)?;
    add_wait(plan, one, Event::Begun(other))?;
    add_wait(plan, other, Event::Begun(one))?;
    Ok(())
}

/// `of DESK`: a desk, by its number among the rows' desks from 1 on.
fn desk_in(row: &mut Row<'_>) -> Result<u64, RowFault> {
    expect(row, "of")?;
    row.number()
}

/// That one of these calls has begun: of the own desk, or `of DESK`.
fn begun_in(calls: PartCalls, row: &mut Row<'_>) -> Result<Event, RowFault> {
    if row.is_done() {
        return Ok(Event::Begun(calls));
    }
    Ok(Event::BegunAt(desk_in(row)?, calls))
}

/// What calls of a part wait for: `PART M`, the `stop` of their own part, `PART stop`, that of another one,
/// `PART M of DESK` or `end of DESK`.
fn event_in(part: Part, row: &mut Row<'_>) -> Result<Event, RowFault> {
    let other = match row.word()? {
        "stop" => return stop_of(part),
        "end" => return Ok(Event::EndedAt(desk_in(row)?)),
        word => part_of(word)?,
    };
    match row.word()? {
        "stop" => stop_of(other),
        word => begun_in(calls_of(other, word)?, row),
    }
}

/// `waits PART N for` what `event_in` reads.
fn add_waits(row: &mut Row<'_>, plan: &mut MeetingPlan) -> Result<(), RowFault> {
    let part = part_in(row)?;
    let calls = calls_in(part, row)?;
    expect(row, "for")?;
    let until = event_in(part, row)?;
    add_wait(plan, calls, until)?;
    Ok(())
}

/// `starves PART N`: memory is wanting for the part's call of this number.
fn add_starved(row: &mut Row<'_>, plan: &mut MeetingPlan) -> Result<(), RowFault> {
    let part = part_in(row)?;
    attempt_of(part)?;
    let number = row.number()?;
    plan.starved.push(FailingCall { part, number })?;
    Ok(())
}

/// `crowd COUNT PART N`: the desk stands for so many, and the part's call of this number waits in each for all.
fn add_crowd(row: &mut Row<'_>, plan: &mut MeetingPlan) -> Result<(), RowFault> {
    let missing = row.number()?;
    let part = part_in(row)?;
    attempt_of(part)?;
    let number = row.number()?;
    plan.crowd = Some(Crowd {
        part,
        number,
        missing,
    });
    Ok(())
}

/// A row that says something of a desk's meeting.
pub(crate) fn plan_meeting(
    alloc: Global,
    word: &str,
    row: &mut Row<'_>,
    plan: &mut MeetingPlan,
) -> Result<(), RowFault> {
    match word {
        "meet" => add_meet(row, plan),
        "waits" => add_waits(row, plan),
        "crowd" => add_crowd(row, plan),
        "starves" => add_starved(row, plan),
        "withholds" => {
            plan.withheld.push(read_path(alloc, row)?)?;
            Ok(())
        }
        _ => {
            plan.patience = row.number()?;
            Ok(())
        }
    }
}
