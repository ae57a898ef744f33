//! What a farm tells of itself, as arguments of rows.

use rx_exec_messages::Capabilities;
use rx_rows::{Row, RowFault};
use rx_world::SemVer;

/// `LOW HIGH`: the versions of the API that a farm serves. It names no limit of a batch.
pub fn read_capabilities(row: &mut Row<'_>) -> Result<Capabilities, RowFault> {
    let low = read_version(row)?;
    let high = read_version(row)?;
    Ok(Capabilities { most: 0, low, high })
}

/// The next word, a version by its name, or `none`.
fn read_version(row: &mut Row<'_>) -> Result<Option<SemVer>, RowFault> {
    let (major, minor) = match row.word()? {
        "none" => return Ok(None),
        "1.9.0" => (1, 9),
        "2.0.0" => (2, 0),
        "2.1.0" => (2, 1),
        "3.0.0" => (3, 0),
        "3.1.0" => (3, 1),
        _ => return Err(RowFault::BadCall),
    };
    Ok(Some(SemVer {
        major,
        minor,
        patch: 0,
    }))
}
