//! Why a conversation gave nothing.

ghost use Rattle.std.specs.Prelude.{◌≡◌};
ghost use Rattle.rx_client.specs.declared.talk_fault.TalkFault.TheVariants.{Conversation, NoMemory};

use rx_world::Failed;
use std::alloc::AllocError;
use thiserror::Error;

/// Why nothing was heard from the proxy.
#[derive(Clone, Copy, Debug, PartialEq, Eq, Error)]
pub(crate) enum TalkFault {
    /// No connection was made, or it failed.
    #[error("no proxy")]
    Conversation,
    /// The bytes that came begin with no frame that was awaited.
    #[error("bad reply")]
    BadReply,
    #[error("out of memory")]
    NoMemory,
}

impl From<Failed> for TalkFault {
    ghost from_gives = { λ _ fault. fault ≡ Conversation };

    fn from(_failed: Failed) -> TalkFault {
        TalkFault::Conversation
    }
}

impl From<AllocError> for TalkFault {
    ghost from_gives = { λ _ fault. fault ≡ NoMemory };

    fn from(_error: AllocError) -> TalkFault {
        TalkFault::NoMemory
    }
}
