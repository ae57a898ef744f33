//! The letters of a text: its bytes without the splices, read one by one from a place of the text on.
//! What letters mean isn't known here.
ghost use Rattle.std.specs.Prelude.{◌≡◌, ◌<◌, ◌≤◌, ◌+◌, length, drop, MatchOption, []};
ghost use Rattle.memchr.specs.Find.{is_byte2};
ghost use Rattle.rx_lex.specs.Letters.{IsBegun, IsNext, Without, is_blank, is_split_at, letters_at, splice_rest, without_mark};

use memchr::memchr2;

/// The UTF-8 byte-order mark, which some editors write at a text's front.
const BYTE_ORDER_MARK: [u8; 3] = [0xef, 0xbb, 0xbf];

/// Space, tab, vertical tab, form feed or CR.
#[inline(always)]
pub(crate) fn is_blank(byte: u8) -> bool
    ensures { result ≡ is_blank byte }
{
    byte == b' ' || byte == b'\t' || byte == 11 || byte == 12 || byte == b'\r'
}

/// Where the text begins behind its byte-order mark.
pub(crate) fn text_start(text: &[u8]) -> usize
    ensures value { drop result text.now ≡ without_mark text.now }
    ensures within { result ≤ length text.now }
{
    if text.starts_with(&BYTE_ORDER_MARK) {
        3
    } else {
        0
    }
}

/// How many bytes of a splice stand at `at`, behind its backslash; 0 where there is none.
pub(crate) fn splice_len(text: &[u8], at: usize) -> usize
    requires { at ≤ length text.now }
    ensures value { result ≡ splice_rest (drop at text.now) }
    ensures within { at + result ≤ length text.now }
{
    let mut end = at;
    while end < text.len() {
        let byte = text[end];
        if byte == b'\n' {
            return end + 1 - at;
        }
        if !is_blank(byte) {
            return 0;
        }
        end += 1;
    }
    0
}

/// Whether a splice begins at `at`.
pub(crate) fn is_split(text: &[u8], at: usize) -> bool
    requires { at ≤ length text.now }
    ensures { result ≡ is_split_at text.now at }
{
    if at < text.len() && text[at] == b'\\' {
        return 0 < splice_len(text, at + 1);
    }
    false
}

#[inline(never)]
fn slow_letter(text: &[u8], from: usize) -> Option<(u8, usize)>
    requires { from ≤ length text.now }
    ensures { MatchOption result (letters_at text.now from ≡ [])
        (λ found. IsNext text.now from found.0 found.1) }
{
    let mut at = from;
    while at < text.len() {
        let byte = text[at];
        if byte != b'\\' {
            return Some((byte, at + 1));
        }
        let skip = splice_len(text, at + 1);
        if skip == 0 {
            return Some((byte, at + 1));
        }
        at += 1 + skip;
    }
    None
}

/// The first letter from `at` on, and the place just behind it.
#[inline(always)]
pub(crate) fn letter(text: &[u8], at: usize) -> Option<(u8, usize)>
    requires { at ≤ length text.now }
    ensures { MatchOption result (letters_at text.now at ≡ [])
        (λ found. IsNext text.now at found.0 found.1) }
{
    if at < text.len() {
        let byte = text[at];
        if byte != b'\\' {
            return Some((byte, at + 1));
        }
    }
    slow_letter(text, at)
}

/// The place behind these bytes, where the next letters are they.
pub(crate) fn begins(text: &[u8], from: usize, wanted: &[u8]) -> Option<usize>
    requires { from ≤ length text.now }
    ensures { IsBegun text.now from wanted.now result }
{
    let mut at = from;
    for byte in wanted {
        let Some((found, next)) = letter(text, at) else {
            return None;
        };
        if found != *byte {
            return None;
        }
        at = next;
    }
    Some(at)
}

/// The next place that holds this byte or a backslash, or the text's end.
#[inline(always)]
pub(crate) fn skip_to(text: &[u8], at: usize, byte: u8) -> usize
    requires { at ≤ length text.now }
    ensures { Without (is_byte2 byte 92) text.now at result }
{
    match memchr2(byte, b'\\', &text[at..]) {
        Some(found) => at + found,
        None => text.len(),
    }
}
