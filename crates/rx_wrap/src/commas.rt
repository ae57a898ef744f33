//! Values of several items: texts by comma, and pairs `NAME=VALUE`.

ghost use Rattle.std.specs.Prelude.{◌≡◌, ◌<◌, ◌==◌, IfOk, map};
ghost use Rattle.std.specs.List.{list_all, slice_split};
ghost use Rattle.rx_base.specs.Texts.{texts};
ghost use Rattle.rx_wrap.specs.Commas.{listed, pair_of, pairs_of};
ghost use Rattle.rx_wrap.specs.Cuts.{equals_sign, has};

use rx_base::{Items, NoMemory, Text};
use rx_world::Pair;
use std::alloc::Global;

/// The texts between commas; the empty text has none.
#[tactic(auto, unfolding(crate::specs::Commas::listed))]
pub(crate) fn parts(alloc: Global, text: &str) -> Result<Vec<&str>, NoMemory>
    ensures { IfOk result (λ found. texts found.items ≡ listed text.now) }
{
    if text.is_empty() {
        return Ok(Vec::new(alloc));
    }
    split_at(alloc, text, ',')
}

/// The texts between separators.
pub(crate) fn split_at(alloc: Global, text: &str, separator: char) -> Result<Vec<&str>, NoMemory>
    requires { separator < 128 }
    ensures { IfOk result (λ found. texts found.items
        ≡ slice_split (λ b. b == separator) text.now) }
{
    let mut found = Vec::new(alloc);
    for part in text.split(separator) {
        found.push(part)?;
    }
    Ok(found)
}

/// Copies of texts.
pub(crate) fn copies(alloc: Global, parts: &[&str]) -> Result<Items<Text>, NoMemory>
    ensures { IfOk result (λ copies. copies ≡ texts parts.now) }
{
    let mut copies = Vec::with_capacity(alloc, parts.len())?;
    for part in parts {
        copies.push(Text::copy_of(alloc, part)?)?;
    }
    Ok(Items::from_vec(copies))
}

/// Whether a text has an equals sign.
fn is_pair(text: &str) -> bool
    ensures { result ≡ has equals_sign text.now }
{
    match text.split_once('=') {
        Some(_) => true,
        None => false,
    }
}

/// Whether each text has an equals sign.
fn are_pairs(parts: &[&str]) -> bool
    ensures { result ≡ list_all (has equals_sign) (texts parts.now) }
{
    for part in parts {
        if !is_pair(part) {
            return false;
        }
    }
    true
}

/// NAME=VALUE; without an equals sign the value is empty.
fn pair_of(alloc: Global, text: &str) -> Result<Pair, NoMemory>
    ensures { IfOk result (λ pair. pair ≡ pair_of text.now) }
{
    let (name, value) = match text.split_once('=') {
        Some((name, value)) => (name, value),
        None => (text, ""),
    };
    Ok(Pair {
        name: Text::copy_of(alloc, name)?,
        value: Text::copy_of(alloc, value)?,
    })
}

/// The pairs that texts are.
fn each_pair(alloc: Global, parts: &[&str]) -> Result<Items<Pair>, NoMemory>
    ensures { IfOk result (λ pairs. pairs ≡ map pair_of (texts parts.now)) }
{
    let mut pairs = Vec::with_capacity(alloc, parts.len())?;
    for part in parts {
        pairs.push(pair_of(alloc, part)?)?;
    }
    Ok(Items::from_vec(pairs))
}

/// The pairs by comma, where each item has an equals sign.
#[tactic(auto, unfolding(crate::specs::Commas::pairs_of))]
pub(crate) fn pairs_in(alloc: Global, text: &str) -> Result<Option<Items<Pair>>, NoMemory>
    ensures { IfOk result (λ pairs. pairs ≡ pairs_of (listed text.now)) }
{
    let parts = parts(alloc, text)?;
    if !are_pairs(&parts) {
        return Ok(None);
    }
    Ok(Some(each_pair(alloc, &parts)?))
}
