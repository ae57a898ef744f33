//! Where the bytes of a text or of a file come from: from the result itself, or from a blob.

ghost use Rattle.std.specs.Prelude.{◌≡◌};
ghost use Rattle.rx_results.specs.Outcomes.{body_of, texts_after};
ghost use Rattle.rx_results.specs.Results.{is_text_too_large};
ghost use Rattle.rx_results.specs.Slots.{mismatch_of, size_told, text_size, wanted};

use crate::limits::MAX_TEXT_BYTES;
use rx_base::{Bytes, Digest, digest_of};
use std::collections::VecDeque;

/// Contents in a result that haven't the digest that the result names for them.
#[derive(Clone, Copy, Debug, PartialEq, Eq)]
pub struct DigestMismatch {
    /// The digest that the result names.
    pub expected: Digest,
    /// The digest of the contents.
    pub got: Digest,
}

/// Bytes that a result gives: in the result itself or, where there are none, as the digest of a
/// blob.
#[derive(Debug, Drop)]
pub(crate) struct Slot {
    pub(crate) inline: Bytes,
    pub(crate) digest: Option<Digest>,
}

impl Slot {
    /// The digest that has to be fetched. A blob of no bytes needs no fetch.
    pub(crate) fn wanted(&self) -> Option<Digest>
        ensures { result ≡ wanted self.now }
    {
        if !self.inline.is_empty() {
            return None;
        }
        match self.digest {
            Some(digest) if digest.size != 0 => Some(digest),
            _ => None,
        }
    }

    /// The size by the digest that is named, and 0 without one.
    pub(crate) fn size_told(&self) -> u64
        ensures { result ≡ size_told self.now.digest }
    {
        match self.digest {
            Some(digest) => digest.size,
            None => 0,
        }
    }

    /// How many bytes a text will have: those in the result, or else by its digest.
    pub(crate) fn text_size(&self) -> u64
        ensures { result ≡ text_size self.now }
    {
        if self.inline.is_empty() {
            return self.size_told();
        }
        self.inline.len() as u64
    }

    /// Whether a text is too large, by its bytes in the result or else by its digest.
    pub(crate) fn is_too_large_text(&self) -> bool
        ensures { result ≡ is_text_too_large self.now }
    {
        self.text_size() > MAX_TEXT_BYTES
    }

    /// Both digests, where the bytes in the result haven't the one that is named.
    pub(crate) fn mismatch(&self) -> Option<DigestMismatch>
        ensures { result ≡ mismatch_of self.now }
    {
        let expected = self.digest?;
        if self.inline.is_empty() {
            return None;
        }
        let got = digest_of(self.inline.as_slice());
        if got == expected {
            return None;
        }
        Some(DigestMismatch { expected, got })
    }

    /// The bytes: those in the result, or else the next of the fetched texts.
    pub(crate) fn fill(self, texts: &mut VecDeque<Bytes>) -> Bytes
        ensures bytes { result ≡ body_of (wanted self) self.inline texts.old.items }
        ensures rest { texts.new.items ≡ texts_after (wanted self) texts.old.items }
    {
        if self.wanted().is_none() {
            return self.inline;
        }
        match texts.pop_front() {
            Some(text) => text,
            None => self.inline,
        }
    }
}
