//! Blobs of a row by their texts: a digest is written as the text that has it.

use rx_base::{Digest, Items, NoMemory, digest_of};
use rx_rows::{RowFault, Turn};
use std::alloc::Global;

/// A text of a row, with its digest.
#[derive(Drop)]
struct Name {
    digest: Digest,
    text: Vec<u8>,
}

/// The texts of a row.
#[derive(Drop)]
pub(crate) struct Names {
    alloc: Global,
    all: Vec<Name>,
}

impl Names {
    /// No texts.
    pub(crate) fn new(alloc: Global) -> Names {
        Names {
            alloc,
            all: Vec::new(alloc),
        }
    }

    /// The digest of a text, which it goes by from here on.
    pub(crate) fn digest(&mut self, text: &[u8]) -> Result<Digest, NoMemory> {
        let digest = digest_of(text);
        let text = Vec::from_slice(self.alloc, text)?;
        self.all.push(Name { digest, text })?;
        Ok(digest)
    }

    /// The same, where the row is refused if memory runs out.
    pub(crate) fn digest_in(&mut self, text: &[u8], turn: &mut Turn<'_, '_>) -> Digest {
        match self.digest(text) {
            Ok(digest) => digest,
            Err(_) => {
                turn.refuse(RowFault::NoMemory);
                digest_of(text)
            }
        }
    }

    /// The next word, a text in quotes, by its digest.
    pub(crate) fn read_digest(&mut self, turn: &mut Turn<'_, '_>) -> Digest {
        let text = turn.read_text();
        self.digest_in(&text, turn)
    }

    /// The digests of the texts in the next word, with a space between each two in one pair of quotes.
    pub(crate) fn read_digests(&mut self, turn: &mut Turn<'_, '_>) -> Items<Digest> {
        let texts = turn.read_text();
        let mut digests = Items::new(self.alloc);
        if texts.is_empty() {
            return digests;
        }
        for text in texts.split(|byte| *byte == b' ') {
            if digests.push(self.digest_in(text, turn)).is_err() {
                turn.refuse(RowFault::NoMemory);
            }
        }
        digests
    }

    /// Writes the text that has the digest, or `?` where the row has none.
    pub(crate) fn write(&self, digest: &Digest, turn: &mut Turn<'_, '_>) {
        match self.all.iter().find(|name| name.digest == *digest) {
            Some(name) => turn.write_text(&name.text),
            None => turn.write_word("?"),
        }
    }
}
