//! Absolute paths below the root in words, made relative to the working directory.

ghost use Rattle.std.specs.Prelude.{◌≡◌, ◌<◌, ◌-◌, ◌++◌, IfOk, OnOk, drop, length, map, string_bytes, true};
ghost use Rattle.rx_base.specs.Texts.{texts};
ghost use Rattle.rx_wrap.specs.RelativePaths.{begin_alike, down, front_of, names_of, path_below, path_by, path_in_word, relative_word, relative_words, up, way, with_path};

use crate::commas::split_at;
use crate::directories::below;
use crate::strips::{begins, stripped};
use rx_base::{Items, NoMemory, PathFault, RelPath, Text};
use std::alloc::{AllocError, Global};

/// The names of a path; the root has none.
#[tactic(auto, unfolding(crate::specs::RelativePaths::names_of))]
fn names_of(alloc: Global, path: &RelPath) -> Result<Vec<&str>, NoMemory>
    ensures { IfOk result (λ names. texts names.items ≡ names_of path.now) }
{
    if path.is_root() {
        return Ok(Vec::new(alloc));
    }
    split_at(alloc, path.as_str(), '/')
}

/// Adds the way up from each of these directories; from none, `.`.
fn push_up(text: &mut String, names: &[&str]) -> Result<(), NoMemory>
    ensures { OnOk result (string_bytes text.new ≡ string_bytes text.old ++ up (texts names.now)) }
{
    let Some((_, names)) = names.split_first() else {
        return text.push_str(".");
    };
    text.push_str("..")?;
    for _name in names {
        text.push_str("/..")?;
    }
    Ok(())
}

/// Adds names, each behind a slash.
fn push_down(text: &mut String, names: &[&str]) -> Result<(), NoMemory>
    ensures { OnOk result
        (string_bytes text.new ≡ string_bytes text.old ++ down (texts names.now)) }
{
    for name in names {
        text.push('/')?;
        text.push_str(name)?;
    }
    Ok(())
}

/// Whether there are two first names, and they are one.
fn begin_alike(names: &[&str], others: &[&str]) -> bool
    ensures alike { result ≡ begin_alike (texts names.now) (texts others.now) }
    ensures some { result ≡ true → (0 < length names.now) × (0 < length others.now) }
{
    match names.first() {
        Some(name) => match others.first() {
            Some(other) => name == other,
            None => false,
        },
        None => false,
    }
}

/// The names but the first.
fn behind_first<'a, 'b>(names: &'a [&'b str]) -> &'a [&'b str]
    requires { 0 < length names.now }
    ensures names { result.now ≡ drop 1 names.now }
    ensures len { length result.now < length names.now }
{
    let (_, others) = names.split_at(1);
    others
}

/// A directory and a path without the names that both begin with.
#[tactic(auto, using(crate::proofs::WayLemmas::way_alike, crate::proofs::WayLemmas::way_apart))]
fn apart<'a, 'b>(directory: &'a [&'b str], path: &'a [&'b str]) -> (&'a [&'b str], &'a [&'b str])
    ensures { up (texts result.0.now) ++ down (texts result.1.now)
        ≡ way (texts directory.now) (texts path.now) }
{
    let mut directory = directory;
    let mut path = path;
    while begin_alike(directory, path) {
        directory = behind_first(directory);
        path = behind_first(path);
    }
    (directory, path)
}

/// Adds the way from a directory to a path.
#[tactic(auto, using(std::proofs::lemmas::List::append_assoc))]
fn push_way(text: &mut String, directory: &[&str], path: &[&str]) -> Result<(), NoMemory>
    ensures { OnOk result (string_bytes text.new
        ≡ string_bytes text.old ++ way (texts directory.now) (texts path.now)) }
{
    let (directory, path) = apart(directory, path);
    push_up(text, directory)?;
    push_down(text, path)
}

/// The path of a text below the root, which may be empty.
#[tactic(auto, unfolding(crate::specs::RelativePaths::path_by))]
fn path_by(alloc: Global, text: &str) -> Result<Option<RelPath>, NoMemory>
    ensures { IfOk result (λ path. path ≡ path_by text.now) }
{
    if text.is_empty() {
        return Ok(Some(RelPath::root(alloc)));
    }
    match RelPath::read(alloc, text) {
        Ok(path) => Ok(Some(path)),
        Err(PathFault::NoMemory) => Err(AllocError),
        Err(_) => Ok(None),
    }
}

/// The path below the root that an absolute text names, if it names one.
fn path_below(alloc: Global, root: &str, text: &str) -> Result<Option<RelPath>, NoMemory>
    ensures { IfOk result (λ path. path ≡ path_below root.now text.now) }
{
    match below(root, text) {
        Some(text) => path_by(alloc, text),
        None => Ok(None),
    }
}

/// What an argument begins with that may have a path right behind it.
#[tactic(auto, unfolding(crate::specs::RelativePaths::front_of))]
fn front_of(word: &str) -> &'static str
    ensures { result.now ≡ front_of word.now }
{
    if begins(word, b"-I") {
        "-I"
    } else if begins(word, b"-isystem") {
        "-isystem"
    } else if begins(word, b"-iquote") {
        "-iquote"
    } else if begins(word, b"-idirafter") {
        "-idirafter"
    } else if begins(word, b"-include") {
        "-include"
    } else if begins(word, b"-imacros") {
        "-imacros"
    } else if begins(word, b"-o") {
        "-o"
    } else if begins(word, b"-MF") {
        "-MF"
    } else if begins(word, b"--sysroot=") {
        "--sysroot="
    } else {
        ""
    }
}

/// The path below the root that a word names behind its front.
fn path_in_word(
    alloc: Global,
    root: &str,
    front: &str,
    word: &str,
) -> Result<Option<RelPath>, NoMemory>
    requires { front.now ≡ front_of word.now }
    ensures { IfOk result (λ path. path ≡ path_in_word root.now word.now) }
{
    match stripped(front, word) {
        Some(text) => path_below(alloc, root, text),
        None => Ok(None),
    }
}

/// A front, and behind it the way from the working directory to a path.
fn with_way(
    alloc: Global,
    front: &str,
    directory: &[&str],
    path: &RelPath,
) -> Result<Text, NoMemory>
    ensures { IfOk result (λ text. text
        ≡ front.now ++ way (texts directory.now) (names_of path.now)) }
{
    let names = names_of(alloc, path)?;
    let mut text = String::from_str(alloc, front)?;
    push_way(&mut text, directory, &names)?;
    Ok(Text::from_string(text))
}

/// A word whose path is relative to the working directory, where it is below the root.
#[tactic(auto, unfolding(crate::specs::RelativePaths::relative_word))]
fn relative_word(
    alloc: Global,
    root: &str,
    directory: &RelPath,
    names: &[&str],
    word: &str,
) -> Result<Text, NoMemory>
    requires { texts names.now ≡ names_of directory.now }
    ensures { IfOk result (λ relative. relative ≡ relative_word root.now directory.now word.now) }
{
    let front = front_of(word);
    match path_in_word(alloc, root, front, word)? {
        Some(path) => with_way(alloc, front, names, &path),
        None => Text::copy_of(alloc, word),
    }
}

/// Words whose paths are relative to the working directory, where they are below the root.
fn each_word(
    alloc: Global,
    root: &str,
    directory: &RelPath,
    words: &[Text],
) -> Result<Items<Text>, NoMemory>
    ensures { IfOk result (λ relative. relative
        ≡ map (relative_word root.now directory.now) words.now) }
{
    let names = names_of(alloc, directory)?;
    let mut relative = Vec::with_capacity(alloc, words.len())?;
    for word in words {
        relative.push(relative_word(alloc, root, directory, &names, word.as_str())?)?;
    }
    Ok(Items::from_vec(relative))
}

/// The words of a command that runs in this directory below the root: absolute paths below the root
/// are relative to it.
#[tactic(auto, unfolding(crate::specs::RelativePaths::relative_words))]
pub(crate) fn relative_words(
    alloc: Global,
    root: &str,
    directory: &str,
    words: &[Text],
) -> Result<Items<Text>, NoMemory>
    ensures { IfOk result (λ relative. relative
        ≡ relative_words root.now directory.now words.now) }
{
    match path_by(alloc, directory)? {
        Some(directory) => each_word(alloc, root, &directory, words),
        None => Items::copy_of(alloc, words),
    }
}
