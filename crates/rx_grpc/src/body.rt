//! The messages of a request that are sent one after another.

ghost use Rattle.std.specs.Prelude.{◌≡◌, ◌<◌, ◌==◌, ◌^◌, [], List, ℕ, length, IfOk, IfSome};
ghost use Rattle.rx_grpc.specs.Seen.{HandsOut};

use rx_base::{Bytes, NoMemory};

/// The messages of a request.
pub trait Body {
    /// Those that are left.
    ghost messages: { Self → List (List ℕ) };

    /// Whether none is left.
    fn is_done(&self) -> bool
        ensures { result ≡ (length (messages self.now) == 0) };

    /// The next one, which has fewer than 4,294,967,296 bytes.
    fn next_message(&mut self) -> Result<Option<Bytes>, NoMemory>
        ensures message { IfOk result (HandsOut (messages self.old) (messages self.new)) }
        ensures short { IfOk result (λ next. IfSome next (λ message.
            length message < 2 ^ 32)) };
}

/// No messages: the request has all of its bytes already.
#[derive(Drop)]
pub struct NoBody {}

impl Body for NoBody {
    ghost messages = { λ b. [] };

    fn is_done(&self) -> bool {
        true
    }

    fn next_message(&mut self) -> Result<Option<Bytes>, NoMemory> {
        Ok(None)
    }
}
