//! The words that matter, told by their letters.
ghost use Rattle.std.specs.Prelude.{◌≡◌, ◌≤◌, length, true};
ghost use Rattle.std.specs.List.{list_all};
ghost use Rattle.rx_lex.specs.Letters.{letters_at};
ghost use Rattle.rx_lex.specs.Pieces.{is_name};
ghost use Rattle.rx_lex.specs.Line.{is_among, same};
ghost use Rattle.rx_lex.specs.Words.{spellings, word_bytes};

use crate::class::next_is_name;
use crate::letters::begins;

/// A word that matters, or a few of which it doesn't matter which one stands.
#[derive(Clone, Copy)]
pub(crate) enum Keyword {
    /// `include`, `include_next` or `import` in a directive
    Include,
    /// `__has_include` or `__has_include_next`
    IncludeQuery,
    /// `import` or `module` at a line's front
    Module,
    Import,
    Export,
    Pragma,
    Dependency,
    Embed,
    /// `__has_embed`
    EmbedQuery,
}

/// Whether a word that begins with `first`, before `next`, is `word`.
fn spells(text: &[u8], first: u8, next: usize, word: &[u8]) -> bool
    requires room { next ≤ length text.now }
    requires names { list_all is_name word.now ≡ true }
    ensures { result ≡ same (word_bytes first (letters_at text.now next)) word.now }
{
    let Some((head, tail)) = word.split_first() else {
        return false;
    };
    if first != *head {
        return false;
    }
    match begins(text, next, tail) {
        Some(end) => !next_is_name(text, end),
        None => false,
    }
}

/// Whether a word that begins with `first`, before `next`, is the keyword.
#[inline(always)]
pub(crate) fn is_keyword(text: &[u8], first: u8, next: usize, keyword: Keyword) -> bool
    requires { next ≤ length text.now }
    ensures { result ≡ is_among (spellings keyword) (word_bytes first (letters_at text.now next)) }
{
    match keyword {
        Keyword::Include => {
            spells(text, first, next, b"include")
                || spells(text, first, next, b"include_next")
                || spells(text, first, next, b"import")
        }
        Keyword::IncludeQuery => {
            spells(text, first, next, b"__has_include")
                || spells(text, first, next, b"__has_include_next")
        }
        Keyword::Module => {
            spells(text, first, next, b"import") || spells(text, first, next, b"module")
        }
        Keyword::Import => spells(text, first, next, b"import"),
        Keyword::Export => spells(text, first, next, b"export"),
        Keyword::Pragma => spells(text, first, next, b"pragma"),
        Keyword::Dependency => spells(text, first, next, b"dependency"),
        Keyword::Embed => spells(text, first, next, b"embed"),
        Keyword::EmbedQuery => spells(text, first, next, b"__has_embed"),
    }
}
