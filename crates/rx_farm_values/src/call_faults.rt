//! The faults of calls, as arguments of rows.

use rx_rows::{Row, RowFault};
use rx_world::CallFault;

/// The next words, a fault of a call: its name, and its number where it has one.
pub fn read_fault(row: &mut Row<'_>) -> Result<CallFault, RowFault> {
    match row.word()? {
        "Link" => Ok(CallFault::Link),
        "Cut" => Ok(CallFault::Cut),
        "NoStatus" => Ok(CallFault::NoStatus),
        "Compressed" => Ok(CallFault::Compressed),
        "TooLarge" => Ok(CallFault::TooLarge),
        "NoMemory" => Ok(CallFault::NoMemory),
        "BadMessage" => Ok(CallFault::BadMessage(0)),
        "Status" => read_status(row),
        "Protocol" => read_protocol(row),
        _ => Err(RowFault::BadCall),
    }
}

/// A status of gRPC.
fn read_status(row: &mut Row<'_>) -> Result<CallFault, RowFault> {
    Ok(CallFault::Status(read_code(row)?))
}

/// An error of HTTP/2.
fn read_protocol(row: &mut Row<'_>) -> Result<CallFault, RowFault> {
    Ok(CallFault::Protocol(read_code(row)?))
}

/// The next word, a number of 32 bits.
pub fn read_code(row: &mut Row<'_>) -> Result<u32, RowFault> {
    u32::try_from(row.number()?).map_err(|_| RowFault::BadNumber)
}
