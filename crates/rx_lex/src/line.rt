//! What the tokens that stand on a line before a place tell, and how a piece changes it.
ghost use Rattle.std.specs.Prelude.{◌≡◌, ◌≤◌, length, []};
ghost use Rattle.rx_lex.specs.Letters.{letters_at};
ghost use Rattle.rx_lex.specs.Words.{word_bytes};
ghost use Rattle.rx_lex.specs.Cut.{is_hash, is_open};
ghost use Rattle.rx_lex.specs.Step.{behind_mark, behind_word, is_hard_kind, is_hard_word, line_behind, line_of};

use crate::cut::Kind;
use crate::words::{Keyword, is_keyword};

#[derive(Clone, Copy)]
pub(crate) struct Line {
    /// It has no token.
    pub(crate) empty: bool,
    /// It has one token.
    pub(crate) single: bool,
    /// Its first token is `#` or `%:`.
    pub(crate) directive: bool,
    /// Its one token is the word `export`.
    pub(crate) exported: bool,
    /// A header name has to stand next.
    pub(crate) wanted: bool,
    /// It is a directive and ends by `__has_include` or `__has_include_next`.
    pub(crate) asking: bool,
    /// It is a directive `pragma`.
    pub(crate) pragma: bool,
}

/// A line without tokens.
#[inline(always)]
pub(crate) fn start() -> Line
    ensures { result ≡ line_of [] }
{
    Line {
        empty: true,
        single: false,
        directive: false,
        exported: false,
        wanted: false,
        asking: false,
        pragma: false,
    }
}

/// The line behind a word.
fn behind_word(text: &[u8], line: Line, first: u8, next: usize) -> Line
    requires { next ≤ length text.now }
    ensures { result ≡ behind_word line (word_bytes first (letters_at text.now next)) }
{
    if !line.empty && !line.directive {
        return Line {
            empty: false,
            single: false,
            directive: false,
            exported: false,
            wanted: false,
            asking: false,
            pragma: line.pragma,
        };
    }
    let named = line.single && line.directive;
    Line {
        empty: false,
        single: line.empty,
        directive: !line.empty && line.directive,
        exported: line.empty && is_keyword(text, first, next, Keyword::Export),
        wanted: named && is_keyword(text, first, next, Keyword::Include),
        asking: line.directive && is_keyword(text, first, next, Keyword::IncludeQuery),
        pragma: line.pragma || (named && is_keyword(text, first, next, Keyword::Pragma)),
    }
}

/// The line behind another token.
fn behind_mark(line: Line, kind: Kind) -> Line
    ensures { result ≡ behind_mark line (is_hash kind) (is_open kind) }
{
    let (hash, open) = match kind {
        Kind::Hash => (true, false),
        Kind::Open => (false, true),
        _ => (false, false),
    };
    Line {
        empty: false,
        single: line.empty,
        directive: if line.empty { hash } else { line.directive },
        exported: false,
        wanted: line.asking && open,
        asking: false,
        pragma: line.pragma,
    }
}

/// The line behind a piece.
#[inline(always)]
pub(crate) fn behind(text: &[u8], line: Line, first: u8, next: usize, kind: Kind) -> Line
    requires { next ≤ length text.now }
    ensures { result ≡ line_behind line kind (word_bytes first (letters_at text.now next)) }
{
    match kind {
        Kind::Comment | Kind::Blank => line,
        Kind::LineEnd => start(),
        Kind::Word => behind_word(text, line, first, next),
        _ => behind_mark(line, kind),
    }
}

/// Whether a word makes the file hard behind such a line.
fn is_hard_word(text: &[u8], line: Line, first: u8, next: usize) -> bool
    requires { next ≤ length text.now }
    ensures { result ≡ is_hard_word line (word_bytes first (letters_at text.now next)) }
{
    (line.directive
        && ((line.single && is_keyword(text, first, next, Keyword::Embed))
            || is_keyword(text, first, next, Keyword::EmbedQuery)))
        || (line.pragma && is_keyword(text, first, next, Keyword::Dependency))
        || (line.empty && is_keyword(text, first, next, Keyword::Module))
        || (line.exported && is_keyword(text, first, next, Keyword::Import))
}

/// Whether a piece makes the file hard behind such a line.
#[inline(always)]
pub(crate) fn is_hard_behind(text: &[u8], line: Line, first: u8, next: usize, kind: Kind) -> bool
    requires { next ≤ length text.now }
    ensures { result ≡ is_hard_kind line kind (word_bytes first (letters_at text.now next)) }
{
    match kind {
        Kind::Comment | Kind::Blank | Kind::Header => false,
        Kind::Word => line.wanted || is_hard_word(text, line, first, next),
        Kind::Raw(over_lines) => line.wanted || (line.directive && over_lines),
        _ => line.wanted,
    }
}
