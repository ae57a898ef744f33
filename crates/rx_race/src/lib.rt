//! The race of one request's attempts: which of them may start, whose end is published, and that
//! this is decided once. It is a plain value, and that value behind a lock for attempts in threads.
//! Nothing here knows of sandboxes, farms or replies.
#![tactic(auto)]

mod contests;
mod desk;
mod events;
mod held;
mod looking;
mod passes;
mod publishing;
mod race;
mod shared_race;
mod slips;
mod standing;
mod tickets;

pub use contests::{Blanks, CancelSeat, Contest, LocalSeat, RemoteSeat, Seats};
pub use events::{Event, Verdict};
pub use looking::Looking;
pub use passes::{CancelPass, Live, Mark, NoStart, StartPass};
pub use publishing::may_publish;
pub use race::Race;
pub use shared_race::SharedRace;
pub use slips::{Seat, Slip};
pub use standing::{Phase, Standing};
pub use tickets::Ticket;
