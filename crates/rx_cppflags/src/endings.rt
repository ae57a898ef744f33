//! The last name of a text, what stands before it, and its ending.

ghost use Rattle.std.specs.Prelude.{◌≡◌, ◌==◌, ◌++◌, IfOk, map, option_map};
ghost use Rattle.std.specs.List.{list_any};
ghost use Rattle.std.specs.Path.{slash};
ghost use Rattle.rx_cppflags.specs.Endings.{directory_of, last_name, with_ending, without_ending};

use rx_base::{Items, NoMemory, Text};
use std::alloc::Global;

/// The last name of a text: what stands behind its last slash.
pub(crate) fn last_name(text: &str) -> &str
    ensures { result.now ≡ last_name text.now }
{
    match text.rsplit_once('/') {
        Some((_, name)) => name,
        None => text,
    }
}

/// What stands before the last slash of a text that has one.
pub(crate) fn directory_of(text: &str) -> Option<&str>
    ensures { option_map (λ directory. directory.now) result ≡ directory_of text.now }
{
    match text.rsplit_once('/') {
        Some((directory, _)) => Some(directory),
        None => None,
    }
}

/// The text with another ending in place of its last.
pub(crate) fn with_ending(alloc: Global, ending: &str, text: &str) -> Result<Text, NoMemory>
    ensures { IfOk result (λ ended. ended ≡ with_ending ending.now text.now) }
{
    let mut ended = String::from_str(alloc, without_ending(text))?;
    ended.push_str(ending)?;
    Ok(Text::from_string(ended))
}

/// The text without its last ending, which begins with a point in its last name.
fn without_ending(text: &str) -> &str
    ensures { result.now ≡ without_ending text.now }
{
    match text.rsplit_once('.') {
        Some((stem, ending)) if !has_slash(ending) => stem,
        _ => text,
    }
}

fn has_slash(text: &str) -> bool
    ensures { result ≡ list_any (λ b. b == slash) text.now }
{
    text.as_bytes().contains(&b'/')
}

/// Texts, and behind them others with this ending.
pub(crate) fn with_endings(
    alloc: Global,
    ending: &str,
    texts: &[Text],
    mut ended: Items<Text>,
) -> Result<Items<Text>, NoMemory>
    ensures { IfOk result (λ all. all ≡ ended ++ map (with_ending ending.now) texts.now) }
{
    for text in texts {
        ended.push(with_ending(alloc, ending, text.as_str())?)?;
    }
    Ok(ended)
}
