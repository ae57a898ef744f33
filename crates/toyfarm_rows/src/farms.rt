//! The calls of the rows, and the farm that they share.

use crate::{attempts, blobs, connections, executions};
use rx_blobs::Presence;
use rx_exec_messages::{Caller, Capabilities};
use rx_farm_values::{read_capabilities, read_code};
use rx_rows::{Answer, Calls, Row, RowFault};
use rx_toyfarm::ToyFarm;
use rx_world::Toy;
use std::alloc::Global;
use std::marker::Brand;
use std::sync::Wait;

/// The farm of the rows, as they left it.
#[derive(Drop)]
pub(crate) struct FarmCalls<'a, R> {
    rt: &'a R,
    alloc: Global,
    farm: ToyFarm,
}

impl<'a, R> FarmCalls<'a, R> {
    /// A farm that tells no version.
    pub(crate) fn new(rt: &'a R, alloc: Global) -> FarmCalls<'a, R> {
        let says = Capabilities {
            most: 0,
            low: None,
            high: None,
        };
        FarmCalls {
            rt,
            alloc,
            farm: ToyFarm::new(alloc, says),
        }
    }
}

impl<'a, R: Wait> Calls for FarmCalls<'a, R> {
    fn call(&mut self, row: &mut Row<'_>, answer: &mut Answer) -> Result<(), RowFault> {
        let (alloc, farm) = (self.alloc, &mut self.farm);
        match row.word()? {
            "farm" => {
                *farm = ToyFarm::new(alloc, read_capabilities(row)?);
                answer.word("ok")?;
            }
            "fail" => {
                farm.fail_next(read_code(row)?);
                answer.word("ok")?;
            }
            "lose" => {
                farm.lose_next(read_code(row)?);
                answer.word("ok")?;
            }
            "capabilities" => write_capabilities(farm, answer)?,
            "faults" => answer.number(farm.faults())?,
            "missing" => blobs::missing(alloc, farm, row, answer)?,
            "update" => blobs::update(alloc, farm, row, answer)?,
            "read" => blobs::read(alloc, farm, row, answer)?,
            "write_stream" => blobs::write_stream(alloc, farm, row, answer)?,
            "read_stream" => blobs::read_stream(alloc, farm, row, answer)?,
            "result" => executions::result(alloc, farm, row, answer)?,
            "execute" => executions::execute(alloc, farm, row, false, answer)?,
            "skipping" => executions::execute(alloc, farm, row, true, answer)?,
            "wait" => executions::wait(alloc, farm, row, answer)?,
            "next" => executions::next(alloc, farm, answer)?,
            "serve" => connections::serve(alloc, farm, row, answer)?,
            "run" => attempts::call(self.rt, alloc, farm, row, true, answer)?,
            "refusing" => attempts::call(self.rt, alloc, farm, row, false, answer)?,
            _ => return Err(RowFault::NoCall),
        }
        Ok(())
    }
}

/// `capabilities`: the most bytes of a batch, and both versions.
fn write_capabilities(farm: &mut ToyFarm, answer: &mut Answer) -> Result<(), RowFault> {
    let Ok(told) = Caller::<Toy<Brand>>::capabilities(farm) else {
        return Err(RowFault::BadCall);
    };
    answer.number(told.most)?;
    for version in [told.low, told.high] {
        match version {
            None => answer.word("none")?,
            Some(version) => {
                answer.value(&version.major)?;
                answer.value(&version.minor)?;
            }
        }
    }
    Ok(())
}
