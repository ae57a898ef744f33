//! Contents that were hashed, kept so that a file which many commands read is hashed for the first of them alone. What is
//! found here was compared byte by byte.

ghost use Rattle.std.specs.Prelude.{◌≡◌, IsTrue};
ghost use Rattle.rx_base.specs.Digests.{digest_of};

use rx_base::Digest;
use rx_memo::Memo;
use std::alloc::{AllocError, Global};
use std::marker::Model;
use std::sync::Arc;

/// The most bytes that the hashed contents of a run take.
const MOST_BYTES: usize = 64 << 20;

/// A content under its digest.
#[derive(Drop)]
struct Hashed {
    digest: Digest,
    bytes: Vec<u8>,
}

impl Model for Hashed {
    ghost use Rattle.rx_inputs.specs.Hashed.{Content, IsHashed};

    ghost Value = { Content };

    ghost view = { λ h. record { digest = h.digest; bytes = h.bytes.items } };

    ghost invariant = { λ h. IsHashed (record { digest = h.digest; bytes = h.bytes.items }) };
}

impl Hashed {
    fn new(alloc: Global, digest: Digest, bytes: &[u8]) -> Result<Arc<Hashed, Global>, AllocError>
        requires { digest_of bytes.now ≡ digest }
    {
        let bytes = Vec::from_slice(alloc, bytes)?;
        Ok(Arc::new(alloc, Hashed { digest, bytes })?)
    }

    /// Whether these are its bytes, and this is its digest.
    fn is(&self, digest: Digest, bytes: &[u8]) -> bool
        ensures { IsTrue result → digest_of bytes.now ≡ digest }
    {
        self.digest == digest && self.bytes.as_slice() == bytes
    }
}

/// The contents that the sessions of a run share, by their hashes.
#[derive(Drop)]
pub struct HashedContents {
    by_hash: Memo<[u8; 32], Hashed>,
}

impl HashedContents {
    /// None is kept yet. It takes no memory.
    pub fn new(alloc: Global) -> HashedContents {
        HashedContents {
            by_hash: Memo::new(alloc, MOST_BYTES),
        }
    }

    /// Whether these bytes are kept under this digest. Then it is theirs.
    pub fn has(&self, digest: Digest, bytes: &[u8]) -> bool
        ensures { IsTrue result → digest_of bytes.now ≡ digest }
    {
        match self.by_hash.find(&digest.hash) {
            Some(hashed) => hashed.is(digest, bytes),
            None => false,
        }
    }

    /// Keeps bytes under their digest, where there is memory for them.
    pub fn keep(&self, alloc: Global, digest: Digest, bytes: &[u8])
        requires { digest_of bytes.now ≡ digest }
    {
        if let Ok(hashed) = Hashed::new(alloc, digest, bytes) {
            self.by_hash.keep(alloc, digest.hash, hashed, bytes.len());
        }
    }
}
