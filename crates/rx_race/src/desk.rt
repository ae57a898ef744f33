//! The desk of slips: what became of each pass, beside the books that say so.

ghost use Rattle.std.specs.Prelude.{◌≡◌, ◌<◌};
ghost use Rattle.rx_race.specs.declared.slips.Seat.TheVariants.{Canceller as canceller, Of as of_attempt};
ghost use Rattle.rx_race.specs.declared.slips.Slip.TheVariants.{Unused as unused};
ghost use Rattle.rx_race.specs.Slips.{AreBlank, code, number_of, slip_at, unused_slips, with_slip};
ghost use Rattle.rx_world.specs.declared.attempts.Attempt.TheVariants.{Local as local_attempt, Remote as remote_attempt};

use crate::Verdict;
use crate::contests::{Blanks, CancelSeat, LocalSeat, RemoteSeat, Seats};
use crate::slips::{Seat, Slip};
use crate::tickets::Ticket;
use rx_world::{Attempt, Decision};
use std::marker::Model;
use std::sync::ledger::{Book, Ledger, Share};

/// What became of each pass. Each book has the number of its pass's slip.
#[derive(Drop)]
pub(crate) struct SlipDesk<K: Seats> {
    local: Slip,
    remote: Slip,
    cancel: Slip,
    local_book: Book<LocalSeat<K>>,
    remote_book: Book<RemoteSeat<K>>,
    cancel_book: Book<CancelSeat<K>>,
}

impl<K: Seats> Model for SlipDesk<K> {
    ghost use Rattle.rx_race.specs.Slips.{AreBooked, Slips};

    ghost Value = { Slips };

    ghost view = { λ d. record { local = d.local; remote = d.remote; cancel = d.cancel } };

    ghost invariant = { λ d. AreBooked
        (record { local = d.local; remote = d.remote; cancel = d.cancel })
        d.local_book.total d.remote_book.total d.cancel_book.total };
}

/// The number of a decision.
fn number_of(decision: Decision) -> u64
    ensures number { result ≡ number_of decision }
    ensures below { result < 5 }
{
    match decision {
        Decision::Undecided => 0,
        Decision::By(Attempt::Local) => 1,
        Decision::By(Attempt::Remote) => 2,
        Decision::Cancelled => 3,
        Decision::Nothing => 4,
    }
}

/// The number that stands for a slip in a ledger.
fn code(slip: Slip) -> u64
    ensures { result ≡ code slip }
{
    match slip {
        Slip::Unused => 0,
        Slip::Refused => 1,
        Slip::Live => 2,
        Slip::Told(Verdict::Won) => 3,
        Slip::Told(Verdict::Late) => 4,
        Slip::Told(Verdict::Noted) => 5,
        Slip::Stopped(decision) => 6 + number_of(decision),
        Slip::Yielded(decision) => 11 + number_of(decision),
    }
}

/// The book and its one share agree on a slip, and both go on to another.
fn rewrite<L: Ledger>(book: &mut Book<L>, share: &mut Share<L>, held: Slip, from: Slip, to: Slip)
    requires held { book.old.total ≡ code held }
    requires whole { share.old.parts ≡ L.parts }
    requires some { 0 < share.old.parts }
    requires from { share.old.amount ≡ code from }
    ensures agree { held ≡ from }
    ensures total { book.new.total ≡ code to }
    ensures amount { share.new.amount ≡ code to }
    ensures parts { share.new.parts ≡ share.old.parts }
{
    book.audit(share);
    book.sub(share, code(from));
    book.add(share, code(to));
}

impl<K: Seats> SlipDesk<K> {
    /// A desk of passes that weren't used, and their tickets: local, remote, cancel.
    pub(crate) fn open(blanks: Blanks) -> (SlipDesk<K>, Ticket<K>, Ticket<K>, Ticket<K>)
        requires { AreBlank blanks K.local K.remote K.cancel }
        ensures desk { result.0 ≡ unused_slips }
        ensures local { result.1 ≡ record { seat = of_attempt local_attempt; slip = unused } }
        ensures remote { result.2 ≡ record { seat = of_attempt remote_attempt; slip = unused } }
        ensures cancel { result.3 ≡ record { seat = canceller; slip = unused } }
    {
        let Blanks {
            local,
            remote,
            cancel,
        } = blanks;
        let (local_book, mut local) = local.open::<LocalSeat<K>>();
        let (remote_book, mut remote) = remote.open::<RemoteSeat<K>>();
        let (cancel_book, mut cancel) = cancel.open::<CancelSeat<K>>();
        let first = (local.empty(), remote.empty(), cancel.empty());
        let second = (local.empty(), remote.empty(), cancel.empty());
        let desk = SlipDesk {
            local: Slip::Unused,
            remote: Slip::Unused,
            cancel: Slip::Unused,
            local_book,
            remote_book,
            cancel_book,
        };
        (
            desk,
            Ticket::unused(Seat::Of(Attempt::Local), local, first.1, first.2),
            Ticket::unused(Seat::Of(Attempt::Remote), first.0, remote, second.2),
            Ticket::unused(Seat::Canceller, second.0, second.1, cancel),
        )
    }

    /// What a ticket says is so, and from now on both say this.
    pub(crate) fn write(&mut self, ticket: &mut Ticket<K>, slip: Slip)
        ensures agrees { slip_at ticket.old.seat self.old ≡ ticket.old.slip }
        ensures desk { self.new ≡ with_slip ticket.old.seat slip self.old }
        ensures ticket { ticket.new ≡ record { seat = ticket.old.seat; slip = slip } }
    {
        match ticket.seat {
            Seat::Of(Attempt::Local) => {
                rewrite(
                    &mut self.local_book,
                    &mut ticket.local,
                    self.local,
                    ticket.slip,
                    slip,
                );
                self.local = slip;
            }
            Seat::Of(Attempt::Remote) => {
                rewrite(
                    &mut self.remote_book,
                    &mut ticket.remote,
                    self.remote,
                    ticket.slip,
                    slip,
                );
                self.remote = slip;
            }
            Seat::Canceller => {
                rewrite(
                    &mut self.cancel_book,
                    &mut ticket.cancel,
                    self.cancel,
                    ticket.slip,
                    slip,
                );
                self.cancel = slip;
            }
        }
        ticket.slip = slip;
    }

    /// What a ticket says is so.
    pub(crate) fn check(&mut self, ticket: &mut Ticket<K>)
        ensures agrees { slip_at ticket.old.seat self.old ≡ ticket.old.slip }
        ensures desk { self.new ≡ self.old }
        ensures ticket { ticket.new ≡ ticket.old }
    {
        let slip = ticket.slip;
        self.write(ticket, slip);
    }
}
