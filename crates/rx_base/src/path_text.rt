//! From a text to the names of a path, and back to text. Only `paths` uses it.

ghost use Rattle.std.specs.Prelude.{◌≡◌, ◌==◌, IfOk, IsTrue, position, string_bytes};
ghost use Rattle.std.specs.List.{AllByRecursion};
ghost use Rattle.rx_base.specs.declared.path_fault.PathFault.TheVariants as fault;
ghost use Rattle.rx_base.specs.Paths.{checked, joined, parts, text_behind, with_part, with_text, IsName, Lacks};
ghost use Rattle.rx_base.specs.Results.{Equals, Gives};
ghost use Rattle.rx_base.specs.Texts.{texts};

use crate::memory::NoMemory;
use crate::path_fault::PathFault;
use std::alloc::Global;

/// Refuses an absolute text and one with a zero byte.
#[tactic(auto, unfolding(crate::specs::Paths::checked))]
pub(crate) fn check(text: &str) -> Result<(), PathFault>
    ensures { Equals (λ x. x) result (checked text.now) }
{
    if text.starts_with('/') {
        return Err(PathFault::Absolute);
    }
    match zero_at(text) {
        Some(at) => Err(PathFault::BadByte(at)),
        None => Ok(()),
    }
}

/// Where the first zero byte stands.
fn zero_at(text: &str) -> Option<usize>
    ensures { result ≡ position (λ b. b == 0) text.now }
{
    text.bytes().position(|b| b == 0)
}

/// Whether each part of a text is a name.
pub(crate) fn are_names(text: &str) -> bool
    requires { Lacks 0 text.now }
    ensures { IsTrue result → AllByRecursion IsName (parts text.now) }
{
    for part in text.split('/') {
        if !is_name(part) {
            return false;
        }
    }
    true
}

/// Whether a part of a text, which has neither a slash nor a zero byte, is a name.
fn is_name(part: &str) -> bool
    requires no_slash { Lacks 47 part.now }
    requires no_zero { Lacks 0 part.now }
    ensures { IsTrue result → IsName part.now }
{
    !matches!(part, "" | "." | "..")
}

/// The names after the parts of a text.
pub(crate) fn walk<'a>(names: Vec<&'a str>, text: &'a str) -> Result<Vec<&'a str>, PathFault>
    ensures { Gives fault.NoMemory (λ v. texts v.items) result
        (with_text (texts names.entry.items) text.now) }
{
    let mut names = names;
    for part in text.split('/') {
        names = step(names, part)?;
    }
    Ok(names)
}

/// The names after one more part.
#[tactic(auto, using(std::proofs::lemmas::List::map_push), unfolding(crate::specs::Paths::with_part))]
fn step<'a>(mut names: Vec<&'a str>, part: &'a str) -> Result<Vec<&'a str>, PathFault>
    ensures { Gives fault.NoMemory (λ v. texts v.items) result
        (with_part (texts names.entry.items) part.now) }
{
    match part {
        "" | "." => Ok(names),
        ".." => match names.pop() {
            Some(_) => Ok(names),
            None => Err(PathFault::AboveRoot),
        },
        name => {
            names.push(name)?;
            Ok(names)
        }
    }
}

/// The parts of a text, between its slashes.
pub(crate) fn parts_of(alloc: Global, text: &str) -> Result<Vec<&str>, NoMemory>
    ensures { IfOk result (λ found. texts found.items ≡ parts text.now) }
{
    let mut found = Vec::new(alloc);
    for part in text.split('/') {
        found.push(part)?;
    }
    Ok(found)
}

/// The text of a path with another text behind it.
pub(crate) fn text_behind(alloc: Global, path: &str, text: &str) -> Result<String, NoMemory>
    ensures { IfOk result (λ all. string_bytes all ≡ text_behind path.now text.now) }
{
    if path.is_empty() {
        return String::from_str(alloc, text);
    }
    let room = path.len().saturating_add(1).saturating_add(text.len());
    let mut all = String::with_capacity(alloc, room)?;
    all.push_str(path)?;
    all.push('/')?;
    all.push_str(text)?;
    Ok(all)
}

/// The text of these names.
pub(crate) fn join_names(alloc: Global, names: &[&str]) -> Result<String, NoMemory>
    ensures { IfOk result (λ text. string_bytes text ≡ joined (texts names.now)) }
{
    let mut text = String::new(alloc);
    for (i, name) in names.iter().enumerate() {
        if i > 0 {
            text.push('/')?;
        }
        text.push_str(name)?;
    }
    Ok(text)
}
