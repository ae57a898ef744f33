//! A connection between the calls of two clients of one farm.

ghost use Rattle.std.specs.Prelude.{◌≡◌};

use crate::transport::Transport;
use rx_world::Link;
use std::marker::Model;

/// A connection that no client uses: its link, with all that was agreed and counted on it. Another client's next call can be made
/// on it.
#[derive(Drop)]
pub struct Resting<L: Link + Drop> {
    pub(crate) transport: Transport<L>,
}

impl<L: Link + Drop> Model for Resting<L> {
    ghost use Rattle.rx_grpc.specs.Transport.{TransportOf};

    ghost Value = { TransportOf L };

    ghost view = { λ r. r.transport };
}

impl<L: Link + Drop> Resting<L> {
    /// The link.
    pub fn link(&self) -> &L
        ensures { result.now ≡ self.now.link }
    {
        self.transport.link()
    }
}
