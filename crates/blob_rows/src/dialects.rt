//! `dialect LOW HIGH`: where a farm that tells these versions looks for the outputs of a Command.

use rx_exec_messages::Capabilities;
use rx_rows::{RowFault, Turn};
use rx_world::SemVer;

/// Writes the dialect of the versions that the next words tell.
pub(crate) fn answer_dialect(turn: &mut Turn<'_, '_>) {
    let told = Capabilities {
        most: 0,
        low: read_version(turn),
        high: read_version(turn),
    };
    turn.write_value(&told.dialect());
}

/// `MAJOR MINOR PATCH`, or `none` for a version that isn't told.
fn read_version(turn: &mut Turn<'_, '_>) -> Option<SemVer> {
    match turn.read_word() {
        "none" => None,
        "version" => Some(SemVer {
            major: turn.read_i32(),
            minor: turn.read_i32(),
            patch: turn.read_i32(),
        }),
        _ => {
            turn.refuse(RowFault::BadCall);
            None
        }
    }
}
