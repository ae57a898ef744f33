//! The remote attempt of the proxy, as the core sees it.

ghost use Rattle.rx_core.specs.FarmHistories.{farm_rules};
ghost use Rattle.rx_core.specs.FarmLaws.{farm-lawful};
ghost use Rattle.rx_remote.specs.Marks.{Turn};

use crate::RemoteHistory;
use rx_world::World;

/// The attempts on a farm that speaks the Remote Execution API: what they ask, what they hear, and
/// the end that this leaves, by the definitions of `rx_remote`.
pub struct FarmHistory;

impl<W: World> RemoteHistory<W> for FarmHistory {
    ghost heard = { Turn };

    ghost rules = { farm_rules W.blob W.tool };

    ghost lawful = { farm-lawful W.blob W.tool };
}
