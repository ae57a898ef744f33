//! Messages of a row, as the body of a call.

use rx_base::{Bytes, NoMemory};
use rx_grpc::Body;
use rx_rows::{RowFault, Turn};
use std::collections::VecDeque;
use std::marker::Model;

/// Messages that are sent one after the other.
#[derive(Drop)]
pub(crate) struct Messages {
    left: VecDeque<Bytes>,
}

impl Model for Messages {
    ghost use Rattle.std.specs.Prelude.{List, ℕ};

    ghost Value = { List (List ℕ) };

    ghost use Rattle.std.specs.Prelude.{◌<◌, ◌^◌, length};
    ghost use Rattle.std.specs.List.{All};

    ghost view = { λ m. m.left.items };

    ghost invariant = { λ m. All (λ message. length message < 2 ^ 32) m.left.items };
}

impl Messages {
    /// The messages of the words that are left.
    pub(crate) fn read(turn: &mut Turn<'_, '_>) -> Messages {
        let mut messages = Messages {
            left: VecDeque::new(turn.alloc()),
        };
        for _ in 0..u32::MAX {
            if turn.is_done() {
                break;
            }
            let message = Bytes::from_vec(turn.read_bytes());
            let added = messages.add(message);
            turn.keep(added);
        }
        messages
    }

    /// Adds a message.
    fn add(&mut self, message: Bytes) -> Result<(), RowFault> {
        if message.len() > u32::MAX as usize {
            return Err(RowFault::BadCall);
        }
        self.left.push_back(message)?;
        Ok(())
    }
}

impl Body for Messages {
    ghost messages = { λ m. m };

    fn is_done(&self) -> bool {
        self.left.is_empty()
    }

    fn next_message(&mut self) -> Result<Option<Bytes>, NoMemory> {
        Ok(self.left.pop_front())
    }
}
