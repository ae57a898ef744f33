//! Texts with what they include, kept so that a header which many commands reach is read for its directives once. What is
//! found here was compared byte by byte.

ghost use Rattle.std.specs.Prelude.{◌≡◌, IfOk, IfSome, IsTrue};
ghost use Rattle.std.specs.Arc.{arc_value};
ghost use Rattle.rx_lex.specs.Directives.{directives_of};
ghost use Rattle.rx_lex.specs.Found.{found_view};

use rx_base::{NoMemory, RelPath};
use rx_lex::{Directives, directives};
use rx_memo::Memo;
use std::alloc::Global;
use std::sync::Arc;

/// The most bytes that the texts take.
const MOST_BYTES: usize = 64 << 20;

/// A text, and what it includes.
#[derive(Drop)]
pub struct Lexed {
    text: Vec<u8>,
    /// What the text includes.
    pub found: Directives,
    pub ghost found_in: { found_view found ≡ directives_of text.items },
}

impl Lexed {
    /// Whether this is its text.
    fn is_of(&self, text: &[u8]) -> bool
        ensures { IsTrue result → found_view self.now.found ≡ directives_of text.now }
    {
        are_same(self.text.as_slice(), text)
    }
}

/// Whether these are the same bytes.
fn are_same(first: &[u8], second: &[u8]) -> bool
    ensures { IsTrue result → first.now ≡ second.now }
{
    first == second
}

/// Texts by the paths at which they were last.
#[derive(Drop)]
pub(crate) struct LexedTexts {
    by_path: Memo<String, Lexed>,
}

impl LexedTexts {
    /// None is kept yet. It takes no memory.
    pub(crate) fn new(alloc: Global) -> LexedTexts {
        LexedTexts {
            by_path: Memo::new(alloc, MOST_BYTES),
        }
    }

    /// What a text at a path includes.
    pub(crate) fn lexed(
        &self,
        alloc: Global,
        path: &RelPath,
        text: &[u8],
    ) -> Result<Arc<Lexed, Global>, NoMemory>
        ensures { IfOk result (λ lexed.
            found_view (arc_value lexed).found ≡ directives_of text.now) }
    {
        if let Some(lexed) = self.find(path, text) {
            return Ok(lexed);
        }
        let found = directives(alloc, text)?;
        let text = Vec::from_slice(alloc, text)?;
        let taken = text.len();
        let lexed = Arc::new(alloc, Lexed { text, found })?;
        if let (Ok(path), Ok(kept)) = (
            String::from_str(alloc, path.as_str()),
            Arc::try_clone(&lexed),
        ) {
            self.by_path.keep(alloc, path, kept, taken);
        }
        Ok(lexed)
    }

    /// What is kept of a path, where it is of just this text.
    fn find(&self, path: &RelPath, text: &[u8]) -> Option<Arc<Lexed, Global>>
        ensures { IfSome result (λ lexed.
            found_view (arc_value lexed).found ≡ directives_of text.now) }
    {
        let lexed = self.by_path.find(path.as_str())?;
        if lexed.is_of(text) { Some(lexed) } else { None }
    }
}
