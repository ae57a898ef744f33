//! Lines that matter to no phase: the walk passes over a run of them in one go. They are what most of a header is made of.
ghost use Rattle.std.specs.Prelude.{◌≡◌, ◌<◌, ◌≤◌, length, min, IfSome};
ghost use Rattle.memchr.specs.Find.{Nowhere, OccursAt, Passes, is_byte3};
ghost use Rattle.rx_lex.specs.Quiet.{IsAhead, IsLineEnd, Skips, quiet_end};

use crate::line::{Line, start};
use memchr::{memchr3, memmem, memrchr};

/// A place, and what the tokens before it on its line tell.
#[derive(Clone, Copy)]
pub(crate) struct Place {
    pub(crate) line: Line,
    pub(crate) at: usize,
}

/// What is known of the text ahead. Each place is where a search has ended, so that it isn't made again before it.
#[derive(Clone, Copy)]
pub(crate) struct Ahead {
    /// No `import` begins before it.
    pub(crate) import_at: usize,
    /// No `module` begins before it.
    pub(crate) module_at: usize,
    /// None of `"`, `'` and `/`, by which literals and comments begin, stands before it.
    pub(crate) literal_at: usize,
    /// None of `#`, `%` and backslash, by which directives and splices begin, stands before it.
    pub(crate) mark_at: usize,
}

/// Nothing is known.
pub(crate) fn nothing_ahead() -> Ahead
    ensures { result ≡ (record { import_at = 0; module_at = 0; literal_at = 0; mark_at = 0 }) }
{
    Ahead {
        import_at: 0,
        module_at: 0,
        literal_at: 0,
        mark_at: 0,
    }
}

/// Where what matters to no phase may end.
#[inline(always)]
fn quiet_end(ahead: Ahead) -> usize
    ensures { result ≡ quiet_end ahead }
{
    ahead
        .import_at
        .min(ahead.module_at)
        .min(ahead.literal_at.min(ahead.mark_at))
}

/// Where the word next begins, or the text's end; `known` is such a place of an earlier search.
#[inline(always)]
fn next_word(text: &[u8], at: usize, word: &[u8], known: usize) -> usize
    requires on { at ≤ length text.now }
    requires known { Nowhere (OccursAt text.now word.now) at known }
    ensures absent { Nowhere (OccursAt text.now word.now) at result }
    ensures on { at ≤ result }
    ensures within { result ≤ length text.now }
{
    if at <= known && known <= text.len() {
        return known;
    }
    match memmem::find(&text[at..], word) {
        Some(found) => at + found,
        None => text.len(),
    }
}

/// Where one of the three bytes next stands, or the text's end; `known` is such a place of an earlier search.
#[inline(always)]
fn next_byte(text: &[u8], at: usize, a: u8, b: u8, c: u8, known: usize) -> usize
    requires on { at ≤ length text.now }
    requires known { Nowhere (Passes (is_byte3 a b c) text.now) at known }
    ensures absent { Nowhere (Passes (is_byte3 a b c) text.now) at result }
    ensures on { at ≤ result }
    ensures within { result ≤ length text.now }
{
    if at <= known && known <= text.len() {
        return known;
    }
    match memchr3(a, b, c, &text[at..]) {
        Some(found) => at + found,
        None => text.len(),
    }
}

/// Looks ahead from `at`.
#[inline(always)]
fn look_ahead(text: &[u8], at: usize, known: Ahead) -> Ahead
    requires room { at ≤ length text.now }
    requires known { IsAhead text.now at known }
    ensures known { IsAhead text.now at result }
    ensures on { at ≤ quiet_end result }
    ensures within { quiet_end result ≤ length text.now }
{
    Ahead {
        import_at: next_word(text, at, b"import", known.import_at),
        module_at: next_word(text, at, b"module", known.module_at),
        literal_at: next_byte(text, at, b'"', b'\'', b'/', known.literal_at),
        mark_at: next_byte(text, at, b'#', b'%', b'\\', known.mark_at),
    }
}

/// The last LF between these places.
#[inline(always)]
fn last_line_end(text: &[u8], from: usize, to: usize) -> Option<usize>
    requires on { from ≤ to }
    requires within { to ≤ length text.now }
    ensures { IfSome result (λ place. IsLineEnd text.now from to place) }
{
    if from == to {
        return None;
    }
    match memrchr(b'\n', &text[from..to]) {
        Some(found) => Some(from + found),
        None => None,
    }
}

/// Passes over the lines from `at` on that matter to no phase.
#[inline(always)]
pub(crate) fn skip_lines(text: &[u8], line: Line, at: usize, known: Ahead) -> (Place, Ahead)
    requires room { at ≤ length text.now }
    requires known { IsAhead text.now at known }
    ensures skips { Skips text.now line at result.0 }
    ensures known { IsAhead text.now result.0.at result.1 }
{
    if line.directive || at < quiet_end(known) {
        return (Place { line, at }, known);
    }
    let ahead = look_ahead(text, at, known);
    let looked = quiet_end(ahead);
    match last_line_end(text, at, looked) {
        Some(end) => (
            Place {
                line: start(),
                at: end + 1,
            },
            ahead,
        ),
        None => (Place { line, at }, ahead),
    }
}
