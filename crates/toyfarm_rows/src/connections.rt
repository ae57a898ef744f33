//! `serve MOST TURNS BYTES FAIL ..`: the farm's end of a connection on which these bytes come.

use rx_fakes::{Ahead, MemoryLink};
use rx_rows::{Answer, Row, RowFault};
use rx_toyfarm::{FarmFault, ToyFarm, answer};
use std::alloc::Global;

/// Answers how the connection ended, and what was sent on it.
pub(crate) fn serve(
    alloc: Global,
    farm: &mut ToyFarm,
    row: &mut Row<'_>,
    told: &mut Answer,
) -> Result<(), RowFault> {
    let Ok(most) = usize::try_from(row.number()?) else {
        return Err(RowFault::BadNumber);
    };
    let turns = row.number()?;
    let ahead = Ahead {
        bytes: row.bytes(alloc)?,
        most,
        fails: read_numbers(alloc, row)?,
    };
    let mut link = MemoryLink::new(alloc, ahead);
    match answer(alloc, farm, &mut link, turns) {
        Ok(()) => told.word("served")?,
        Err(FarmFault::NoMemory) => return Err(RowFault::NoMemory),
        Err(fault) => told.value(&fault)?,
    }
    told.bytes(&link.sent)?;
    Ok(())
}

/// The numbers that are left.
fn read_numbers(alloc: Global, row: &mut Row<'_>) -> Result<Vec<u64>, RowFault> {
    let mut numbers = Vec::new(alloc);
    for _ in 0..u32::MAX {
        if row.is_done() {
            break;
        }
        numbers.push(row.number()?)?;
    }
    Ok(numbers)
}
