//! Tickets: each is the one right to a pass, and knows what became of it under the lock.

ghost use Rattle.std.specs.Prelude.{◌≡◌};
ghost use Rattle.rx_race.specs.declared.slips.Slip.TheVariants.{Unused as unused};
ghost use Rattle.rx_race.specs.Slips.{IsTicket, code};

use crate::contests::{CancelSeat, LocalSeat, RemoteSeat, Seats};
use crate::slips::{Seat, Slip};
use std::marker::Model;
use std::sync::ledger::Share;

/// The right to a pass. The share of its seat is whole, and counts by its amount what became of the
/// pass. The other two are empty.
#[derive(Drop)]
pub struct Ticket<K: Seats> {
    pub(crate) seat: Seat,
    pub(crate) slip: Slip,
    pub(crate) local: Share<LocalSeat<K>>,
    pub(crate) remote: Share<RemoteSeat<K>>,
    pub(crate) cancel: Share<CancelSeat<K>>,
}

impl<K: Seats> Model for Ticket<K> {
    ghost use Rattle.rx_race.specs.Slips.{IsTicket, Ticket as TicketOf, code};

    ghost Value = { TicketOf };

    ghost view = { λ t. record { seat = t.seat; slip = t.slip } };

    ghost invariant = { λ t. IsTicket t.seat (code t.slip)
        t.local.parts t.local.amount t.remote.parts t.remote.amount
        t.cancel.parts t.cancel.amount };
}

impl<K: Seats> Ticket<K> {
    /// The right to a pass that wasn't used.
    pub(crate) fn unused(
        seat: Seat,
        local: Share<LocalSeat<K>>,
        remote: Share<RemoteSeat<K>>,
        cancel: Share<CancelSeat<K>>,
    ) -> Ticket<K>
        requires { IsTicket seat (code unused)
            local.parts local.amount remote.parts remote.amount cancel.parts cancel.amount }
        ensures { result ≡ record { seat = seat; slip = unused } }
    {
        Ticket {
            seat,
            slip: Slip::Unused,
            local,
            remote,
            cancel,
        }
    }

    /// What became of the pass.
    pub fn slip(&self) -> Slip
        ensures { result ≡ self.now.slip }
    {
        self.slip
    }
}
