//! What is known of a source tree's files, kept from one call to the next: their digests, so that a file whose stamp hasn't
//! changed isn't read again, and what their texts include. Nothing here knows of commands, of sessions or of what a file means.
#![tactic(auto)]

mod cache;
mod cache_fault;
mod kept;
mod lexed;

pub use cache::{DIGEST_CACHE_LIMIT, DigestCache};
pub use cache_fault::CacheFault;
pub use kept::{KeptDigests, NotKept, StampedDigest};
pub use lexed::Lexed;
