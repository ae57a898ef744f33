//! Which values compile words may have.

ghost use Rattle.std.specs.Prelude.{◌≡◌};
ghost use Rattle.std.specs.List.{list_all};
ghost use Rattle.rx_cppflags.specs.Values.{has_text, is_assembler_word, is_preprocessor_word, is_windows, listed, takes_value};

use crate::features::is_far;
use crate::meanings::Meaning;

/// Whether a word that means this, and no path, may have this value.
pub(crate) fn takes_value(meaning: Meaning, value: &str) -> bool
    ensures { result ≡ takes_value meaning value.now }
{
    let bytes = value.as_bytes();
    match meaning {
        Meaning::Refused | Meaning::OtherSource => false,
        Meaning::Machine => !bytes.ends_with(b"=native"),
        Meaning::Target => !is_windows(bytes),
        Meaning::Language => matches!(value, "c" | "c++" | "none"),
        Meaning::Feature => !is_far(value),
        Meaning::Print => !(bytes.contains(&b'=') || bytes.ends_with(b"-file")),
        Meaning::Assembler => are_assembler_words(value),
        Meaning::Preprocessor => are_preprocessor_words(value),
        _ => true,
    }
}

/// Whether a machine is one on which Clang looks for includes beside each file that includes.
fn is_windows(target: &[u8]) -> bool
    ensures { result ≡ is_windows target.now }
{
    has_text(b"windows", target) || has_text(b"win32", target)
}

/// Whether a text has another one in it.
fn has_text(other: &[u8], text: &[u8]) -> bool
    ensures { result ≡ has_text other.now text.now }
{
    let mut rest = text;
    while let Some((_, others)) = rest.split_first() {
        if rest.starts_with(other) {
            return true;
        }
        rest = others;
    }
    false
}

/// Whether each word between commas has the assembler read and write no other file.
fn are_assembler_words(text: &str) -> bool
    ensures { result ≡ list_all is_assembler_word (listed text.now) }
{
    for word in text.split(',') {
        if !is_assembler_word(word) {
            return false;
        }
    }
    true
}

/// Whether each word between commas is whole, and says nothing that is read here.
fn are_preprocessor_words(text: &str) -> bool
    ensures { result ≡ list_all is_preprocessor_word (listed text.now) }
{
    for word in text.split(',') {
        if !is_preprocessor_word(word) {
            return false;
        }
    }
    true
}

/// Whether a word for the assembler has it read and write no other file.
fn is_assembler_word(word: &str) -> bool
    ensures { result ≡ is_assembler_word word.now }
{
    let bytes = word.as_bytes();
    bytes.starts_with(b"-m")
        || bytes.starts_with(b"-g")
        || bytes.starts_with(b"-W")
        || bytes.starts_with(b"--no")
        || bytes.starts_with(b"--compress-debug")
        || matches!(
            word,
            "--fatal-warnings" | "--crel" | "--allow-experimental-crel"
        )
}

/// Whether a word for the preprocessor is whole, and says nothing that is read here.
fn is_preprocessor_word(word: &str) -> bool
    ensures { result ≡ is_preprocessor_word word.now }
{
    let bytes = word.as_bytes();
    word == "-MP" || (bytes.len() > 2 && (bytes.starts_with(b"-D") || bytes.starts_with(b"-U")))
}
